use ports::{OutOfMemory, SpvFault};
use std::alloc::{AllocError, AllocFailed};
use std::error::Error;
use std::fmt;

/// Why a text has no translation.
#[derive(Clone, Copy, Debug, PartialEq, Eq, Hash)]
pub enum TranslateError {
    NoMemory,
    /// The name at this byte is used and defined nowhere.
    UndefinedName { byte: u64 },
    /// The text is outside the covered subset in another way.
    Outside,
}

impl fmt::Display for TranslateError {
    fn fmt<W: fmt::Write>(&self, f: &mut fmt::Formatter<W>) -> fmt::Result {
        f.write_str(match self {
            TranslateError::NoMemory => "out of memory",
            TranslateError::UndefinedName { .. } => "a name is defined nowhere",
            TranslateError::Outside => "the text is outside the covered subset",
        })
    }
}

impl Error for TranslateError {}

impl From<OutOfMemory> for TranslateError {
    ghost use Rattle.std.specs.Prelude.{◌≡◌};
    ghost use Rattle.kernel_translation.specs.declared.error.TranslateError.TheVariants.{NoMemory};

    ghost from_gives = { λ _ told. told ≡ NoMemory };

    fn from(_refused: OutOfMemory) -> TranslateError {
        TranslateError::NoMemory
    }
}

impl From<AllocError> for TranslateError {
    ghost use Rattle.std.specs.Prelude.{◌≡◌};
    ghost use Rattle.kernel_translation.specs.declared.error.TranslateError.TheVariants.{NoMemory};

    ghost from_gives = { λ _ told. told ≡ NoMemory };

    fn from(_refused: AllocError) -> TranslateError {
        TranslateError::NoMemory
    }
}

impl<T: Drop> From<AllocFailed<T>> for TranslateError {
    ghost use Rattle.std.specs.Prelude.{◌≡◌};
    ghost use Rattle.kernel_translation.specs.declared.error.TranslateError.TheVariants.{NoMemory};

    ghost from_gives = { λ _ told. told ≡ NoMemory };

    fn from(_refused: AllocFailed<T>) -> TranslateError {
        TranslateError::NoMemory
    }
}

/// Why a binary has no translation.
#[derive(Clone, Copy, Debug, PartialEq, Eq, Hash)]
pub enum BinaryError {
    NoMemory,
    /// The bytes break this rule of framing first.
    Misframed(SpvFault),
    /// The module that the bytes spell breaks this rule of its sections, ids or functions first.
    Invalid(SpvFault),
    /// The binary is outside the covered subset.
    Outside,
}

impl fmt::Display for BinaryError {
    fn fmt<W: fmt::Write>(&self, f: &mut fmt::Formatter<W>) -> fmt::Result {
        f.write_str(match self {
            BinaryError::NoMemory => "out of memory",
            BinaryError::Misframed(_) => "the bytes break a rule of framing",
            BinaryError::Invalid(_) => "the module breaks a rule of its sections, ids or functions",
            BinaryError::Outside => "the binary is outside the covered subset",
        })
    }
}

impl Error for BinaryError {}

impl From<OutOfMemory> for BinaryError {
    ghost use Rattle.std.specs.Prelude.{◌≡◌};
    ghost use Rattle.kernel_translation.specs.declared.error.BinaryError.TheVariants.{NoMemory};

    ghost from_gives = { λ _ told. told ≡ NoMemory };

    fn from(_refused: OutOfMemory) -> BinaryError {
        BinaryError::NoMemory
    }
}
