ghost use Rattle.std.specs.Prelude.{◌≡◌, IfOk, IfErr, Some};
ghost use Rattle.kern_events.specs.NumberLists.{with_digit};

use ports::OutOfMemory;
use std::alloc::{AllocError, AllocFailed, Global};

/// Why a text gives no numbers.
#[derive(Clone, Copy, Debug, PartialEq, Eq, Hash)]
pub enum NumbersError {
    NoMemory,
    /// The text is no list of numbers. The place, in bytes, is the length of its longest beginning that
    /// begins such a list.
    Number { place: usize },
}

impl From<OutOfMemory> for NumbersError {
    ghost use Rattle.kern_events.specs.declared.numbers.NumbersError.TheVariants.{NoMemory};

    ghost from_gives = { λ _ error. error ≡ NoMemory };

    fn from(_refused: OutOfMemory) -> NumbersError {
        NumbersError::NoMemory
    }
}

impl From<AllocError> for NumbersError {
    ghost use Rattle.kern_events.specs.declared.numbers.NumbersError.TheVariants.{NoMemory};

    ghost from_gives = { λ _ error. error ≡ NoMemory };

    fn from(_refused: AllocError) -> NumbersError {
        NumbersError::NoMemory
    }
}

impl<T: Drop> From<AllocFailed<T>> for NumbersError {
    ghost use Rattle.kern_events.specs.declared.numbers.NumbersError.TheVariants.{NoMemory};

    ghost from_gives = { λ _ error. error ≡ NoMemory };

    fn from(_refused: AllocFailed<T>) -> NumbersError {
        NumbersError::NoMemory
    }
}

/// A digit more behind the digits of a number. None where the byte is no digit, or the number is too
/// great.
pub(crate) fn with_digit(begun: Option<u64>, byte: u8) -> Option<u64>
    ensures { result ≡ with_digit begun byte }
{
    if !(b'0'..=b'9').contains(&byte) {
        return None;
    }
    begun
        .unwrap_or(0)
        .checked_mul(10)?
        .checked_add(u64::from(byte - b'0'))
}
