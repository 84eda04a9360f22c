ghost use Rattle.std.specs.Prelude.{◌≡◌};
ghost use Rattle.kern_lanes.specs.Widths.{IsLane};
ghost use Rattle.kern_lanes.specs.Atomic.{replacement};

use crate::binary::{difference, sum};
use crate::width::Width;

/// How an atomic instruction changes a number in memory (SPIR-V 1.2, 3.32.18; LLVM 14, `atomicrmw`).
#[derive(Clone, Copy, Debug, PartialEq, Eq, Hash)]
pub enum RmwOp {
    Xchg,
    Add,
    Sub,
    And,
    Or,
    Xor,
    Max,
    Min,
    UMax,
    UMin,
}

/// The number that an atomic instruction writes for the old number and its operand. `Max` and `Min`
/// compare signed values, `UMax` and `UMin` the numbers themselves.
pub fn rmw(op: RmwOp, w: Width, old: u64, value: u64) -> u64
    requires memory { IsLane w old }
    requires operand { IsLane w value }
    ensures { result ≡ replacement op w old value }
{
    match op {
        RmwOp::Xchg => value,
        RmwOp::Add => sum(w, old, value),
        RmwOp::Sub => difference(w, old, value),
        RmwOp::And => old & value,
        RmwOp::Or => old | value,
        RmwOp::Xor => old ^ value,
        RmwOp::Max if w.signed_value(old) < w.signed_value(value) => value,
        RmwOp::Max => old,
        RmwOp::Min if w.signed_value(value) < w.signed_value(old) => value,
        RmwOp::Min => old,
        RmwOp::UMax => old.max(value),
        RmwOp::UMin => old.min(value),
    }
}
