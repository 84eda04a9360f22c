ghost use Rattle.std.specs.Prelude.{◌≡◌};
ghost use Rattle.kern_lanes.specs.Widths.{IsLane};
ghost use Rattle.kern_lanes.specs.Conversion.{conversion};

use crate::width::Width;

/// How a lane becomes one of another width: cut, extended by zeros, or extended by its sign.
#[derive(Clone, Copy, Debug, PartialEq, Eq, Hash)]
pub enum Conv {
    Trunc,
    Zext,
    Sext,
}

/// The lane of width `to` for a lane of width `from`: the number, or for `Sext` the signed value,
/// modulo 2 to the power of `to` (SPIR-V 1.2, 3.32.11; LLVM 14, `trunc`, `zext`, `sext`).
pub fn convert(kind: Conv, from: Width, to: Width, a: u64) -> u64
    requires { IsLane from a }
    ensures { result ≡ conversion kind from to a }
{
    match kind {
        Conv::Trunc | Conv::Zext => to.low_bits(u128::from(a)),
        Conv::Sext => to.lane(from.signed_value(a)),
    }
}
