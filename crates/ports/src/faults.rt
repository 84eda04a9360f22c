ghost use Rattle.std.specs.Prelude.{◌≡◌};

use std::alloc::{AllocError, AllocFailed};
use std::error::Error;
use std::fmt;

/// No memory could be had. It is the one answer that no contract ties to a cause.
#[derive(Clone, Copy, Debug, PartialEq, Eq, Hash)]
pub struct OutOfMemory;

impl fmt::Display for OutOfMemory {
    fn fmt<W: fmt::Write>(&self, f: &mut fmt::Formatter<W>) -> fmt::Result {
        f.write_str("out of memory")
    }
}

impl Error for OutOfMemory {}

impl From<AllocError> for OutOfMemory {
    fn from(_refused: AllocError) -> OutOfMemory {
        OutOfMemory
    }
}

impl<T: Drop> From<AllocFailed<T>> for OutOfMemory {
    fn from(_refused: AllocFailed<T>) -> OutOfMemory {
        OutOfMemory
    }
}

/// The rule that a SPIR-V module breaks, and the word where it does: words count from the module's
/// first one, which is 0.
#[derive(Clone, Copy, Debug, PartialEq, Eq, Hash)]
pub struct SpvFault {
    pub rule: u16,
    pub word: u64,
}

/// The rule that an LLVM text breaks, and the byte where it does: bytes count from 0.
#[derive(Clone, Copy, Debug, PartialEq, Eq, Hash)]
pub struct LlFault {
    pub rule: u16,
    pub byte: u64,
}

/// Why a call on SPIR-V failed.
#[derive(Clone, Copy, Debug, PartialEq, Eq, Hash)]
pub enum SpvError {
    NoMemory,
    Fault(SpvFault),
}

/// Why a call on LLVM text failed.
#[derive(Clone, Copy, Debug, PartialEq, Eq, Hash)]
pub enum LlError {
    NoMemory,
    Fault(LlFault),
}

impl fmt::Display for SpvError {
    fn fmt<W: fmt::Write>(&self, f: &mut fmt::Formatter<W>) -> fmt::Result {
        match self {
            SpvError::NoMemory => f.write_str("out of memory"),
            SpvError::Fault(fault) => write!(f, "rule S{} at word {}", fault.rule, fault.word),
        }
    }
}

impl fmt::Display for LlError {
    fn fmt<W: fmt::Write>(&self, f: &mut fmt::Formatter<W>) -> fmt::Result {
        match self {
            LlError::NoMemory => f.write_str("out of memory"),
            LlError::Fault(fault) => write!(f, "rule L{} at byte {}", fault.rule, fault.byte),
        }
    }
}

impl Error for SpvError {}

impl Error for LlError {}

impl From<OutOfMemory> for SpvError {
    ghost use Rattle.ports.specs.declared.faults.SpvError.TheVariants.{NoMemory};

    ghost from_gives = { λ _ error. error ≡ NoMemory };

    fn from(_refused: OutOfMemory) -> SpvError {
        SpvError::NoMemory
    }
}

impl From<AllocError> for SpvError {
    ghost use Rattle.ports.specs.declared.faults.SpvError.TheVariants.{NoMemory};

    ghost from_gives = { λ _ error. error ≡ NoMemory };

    fn from(_refused: AllocError) -> SpvError {
        SpvError::NoMemory
    }
}

impl<T: Drop> From<AllocFailed<T>> for SpvError {
    ghost use Rattle.ports.specs.declared.faults.SpvError.TheVariants.{NoMemory};

    ghost from_gives = { λ _ error. error ≡ NoMemory };

    fn from(_refused: AllocFailed<T>) -> SpvError {
        SpvError::NoMemory
    }
}

impl From<SpvFault> for SpvError {
    ghost use Rattle.ports.specs.declared.faults.SpvError.TheVariants.{Fault};

    ghost from_gives = { λ fault error. error ≡ Fault fault };

    fn from(fault: SpvFault) -> SpvError {
        SpvError::Fault(fault)
    }
}

impl From<OutOfMemory> for LlError {
    ghost use Rattle.ports.specs.declared.faults.LlError.TheVariants.{NoMemory};

    ghost from_gives = { λ _ error. error ≡ NoMemory };

    fn from(_refused: OutOfMemory) -> LlError {
        LlError::NoMemory
    }
}

impl From<AllocError> for LlError {
    ghost use Rattle.ports.specs.declared.faults.LlError.TheVariants.{NoMemory};

    ghost from_gives = { λ _ error. error ≡ NoMemory };

    fn from(_refused: AllocError) -> LlError {
        LlError::NoMemory
    }
}

impl<T: Drop> From<AllocFailed<T>> for LlError {
    ghost use Rattle.ports.specs.declared.faults.LlError.TheVariants.{NoMemory};

    ghost from_gives = { λ _ error. error ≡ NoMemory };

    fn from(_refused: AllocFailed<T>) -> LlError {
        LlError::NoMemory
    }
}

impl From<LlFault> for LlError {
    ghost use Rattle.ports.specs.declared.faults.LlError.TheVariants.{Fault};

    ghost from_gives = { λ fault error. error ≡ Fault fault };

    fn from(fault: LlFault) -> LlError {
        LlError::Fault(fault)
    }
}
