ghost use Rattle.std.specs.Prelude.{◌≡◌, ◌≤◌, length, All};
ghost use Rattle.kern_lanes.specs.Widths.{bits_of, IsLane};
ghost use Rattle.kern_lanes.specs.Regrouping.{part_count, parts_of, joined};

use crate::width::Width;

/// Writes the parts of width `to` of a lane of width `from` into `out`, the lowest first
/// (SPIR-V 1.2, `OpBitcast`; LLVM 14, `bitcast`).
pub fn split(from: Width, to: Width, a: u64, out: &mut [u64])
    requires lane { IsLane from a }
    requires narrower { bits_of to ≤ bits_of from }
    requires places { length out.old ≡ part_count from to }
    ensures { out.new ≡ parts_of from to a }
{
    let base = to.value_count();
    let mut rest = u128::from(a);
    for part in out.iter_mut() {
        *part = (rest % base) as u64;
        rest /= base;
    }
}

/// The lane of width `from` that `split` cuts into these parts of width `to`.
pub fn join(from: Width, to: Width, parts: &[u64]) -> u64
    requires lanes { All (IsLane to) parts.now }
    requires narrower { bits_of to ≤ bits_of from }
    requires count { length parts.now ≡ part_count from to }
    ensures { result ≡ joined to parts.now }
{
    let base = to.value_count();
    let mut scale = 1u128;
    let mut number = 0u128;
    for part in parts {
        number += u128::from(*part) * scale;
        scale *= base;
    }
    number as u64
}
