ghost use Rattle.std.specs.Prelude.{◌≡◌};
ghost use Rattle.kern_lanes.specs.Widths.{IsLane};
ghost use Rattle.kern_lanes.specs.Comparison.{comparison};

use crate::width::Width;

/// How two lanes are compared: as they are, or by the signed values that they stand for (`S..`).
#[derive(Clone, Copy, Debug, PartialEq, Eq, Hash)]
pub enum Pred {
    Eq,
    Ne,
    Ugt,
    Uge,
    Ult,
    Ule,
    Sgt,
    Sge,
    Slt,
    Sle,
}

/// Whether the predicate holds of two lanes (SPIR-V 1.2, 3.32.15; LLVM 14, `icmp`).
pub fn cmp(p: Pred, w: Width, a: u64, b: u64) -> bool
    requires left { IsLane w a }
    requires right { IsLane w b }
    ensures { result ≡ comparison p w a b }
{
    match p {
        Pred::Eq => a == b,
        Pred::Ne => a != b,
        Pred::Ugt => a > b,
        Pred::Uge => a >= b,
        Pred::Ult => a < b,
        Pred::Ule => a <= b,
        Pred::Sgt => w.signed_value(a) > w.signed_value(b),
        Pred::Sge => w.signed_value(a) >= w.signed_value(b),
        Pred::Slt => w.signed_value(a) < w.signed_value(b),
        Pred::Sle => w.signed_value(a) <= w.signed_value(b),
    }
}
