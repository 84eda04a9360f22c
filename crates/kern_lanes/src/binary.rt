ghost use Rattle.std.specs.Prelude.{◌≡◌, ◌/◌, ◌%◌};
ghost use Rattle.kern_lanes.specs.Widths.{IsLane};
ghost use Rattle.kern_lanes.specs.Binary.{binary, value_of, zero_trap, signed_trap, shift_trap, unless_trapped};

use crate::trap::Trap;
use crate::width::Width;

/// An operation on two lanes of one width (SPIR-V 1.2, 3.32.13; LLVM 14, binary operations).
#[derive(Clone, Copy, Debug, PartialEq, Eq, Hash)]
pub enum BinOp {
    Add,
    Sub,
    Mul,
    UDiv,
    SDiv,
    URem,
    SRem,
    Shl,
    LShr,
    AShr,
    And,
    Or,
    Xor,
}

/// The result of an operation on two lanes: a sum, difference, product or left shift modulo 2 to the
/// power of the width, a quotient rounded toward zero, a remainder with the dividend's sign, a right
/// shift rounded down.
///
/// `DivZero` comes exactly where a divisor is zero, `DivOverflow` exactly where the least signed value
/// is divided by -1, and `ShiftRange` exactly where a shift is by the width or more.
pub fn bin(op: BinOp, w: Width, a: u64, b: u64) -> Result<u64, Trap>
    requires left { IsLane w a }
    requires right { IsLane w b }
    ensures { result ≡ binary op w a b }
{
    match op {
        BinOp::Add => Ok(sum(w, a, b)),
        BinOp::Sub => Ok(difference(w, a, b)),
        BinOp::Mul => Ok(product(w, a, b)),
        BinOp::UDiv => unsigned_quotient(a, b),
        BinOp::SDiv => signed_quotient(w, a, b),
        BinOp::URem => unsigned_remainder(a, b),
        BinOp::SRem => signed_remainder(w, a, b),
        BinOp::Shl => left_shift(w, a, b),
        BinOp::LShr => logical_right_shift(w, a, b),
        BinOp::AShr => arithmetic_right_shift(w, a, b),
        BinOp::And => Ok(a & b),
        BinOp::Or => Ok(a | b),
        BinOp::Xor => Ok(a ^ b),
    }
}

pub(crate) fn sum(w: Width, a: u64, b: u64) -> u64
    ensures { result ≡ value_of BinOp.Add w a b }
{
    w.low_bits(u128::from(a) + u128::from(b))
}

pub(crate) fn difference(w: Width, a: u64, b: u64) -> u64
    ensures { result ≡ value_of BinOp.Sub w a b }
{
    w.lane(i128::from(a) - i128::from(b))
}

fn product(w: Width, a: u64, b: u64) -> u64
    ensures { result ≡ value_of BinOp.Mul w a b }
{
    w.low_bits(u128::from(a) * u128::from(b))
}

fn unsigned_quotient(a: u64, b: u64) -> Result<u64, Trap>
    ensures { result ≡ unless_trapped (zero_trap b) (a / b) }
{
    a.checked_div(b).ok_or(Trap::DivZero)
}

fn unsigned_remainder(a: u64, b: u64) -> Result<u64, Trap>
    ensures { result ≡ unless_trapped (zero_trap b) (a % b) }
{
    a.checked_rem(b).ok_or(Trap::DivZero)
}

fn signed_quotient(w: Width, a: u64, b: u64) -> Result<u64, Trap>
    requires left { IsLane w a }
    requires right { IsLane w b }
    ensures { result ≡ binary BinOp.SDiv w a b }
{
    check_signed_division(w, a, b)?;
    Ok(w.lane(w.signed_value(a) / w.signed_value(b)))
}

fn signed_remainder(w: Width, a: u64, b: u64) -> Result<u64, Trap>
    requires left { IsLane w a }
    requires right { IsLane w b }
    ensures { result ≡ binary BinOp.SRem w a b }
{
    check_signed_division(w, a, b)?;
    Ok(w.lane(w.signed_value(a) % w.signed_value(b)))
}

fn left_shift(w: Width, a: u64, b: u64) -> Result<u64, Trap>
    ensures { result ≡ binary BinOp.Shl w a b }
{
    check_shift(w, b)?;
    Ok(w.low_bits(u128::from(a) << b))
}

fn logical_right_shift(w: Width, a: u64, b: u64) -> Result<u64, Trap>
    ensures { result ≡ binary BinOp.LShr w a b }
{
    check_shift(w, b)?;
    Ok(a >> b)
}

fn arithmetic_right_shift(w: Width, a: u64, b: u64) -> Result<u64, Trap>
    requires { IsLane w a }
    ensures { result ≡ binary BinOp.AShr w a b }
{
    check_shift(w, b)?;
    Ok(w.lane(w.signed_value(a) >> b))
}

fn check_signed_division(w: Width, a: u64, b: u64) -> Result<(), Trap>
    ensures { result ≡ unless_trapped (signed_trap w a b) tt }
{
    if b == 0 {
        return Err(Trap::DivZero);
    }
    if a == w.least_negative() && u128::from(b) == w.value_count() - 1 {
        return Err(Trap::DivOverflow);
    }
    Ok(())
}

fn check_shift(w: Width, b: u64) -> Result<(), Trap>
    ensures { result ≡ unless_trapped (shift_trap w b) tt }
{
    if b < u64::from(w.bits()) {
        Ok(())
    } else {
        Err(Trap::ShiftRange)
    }
}
