use std::alloc::AllocError;

/// Why tokens aren't read: the rule that they break, and how many of them are left from the token on that
/// breaks it, which is 0 where the tokens end too early.
#[derive(Clone, Copy, Debug, PartialEq, Eq)]
pub struct Refusal {
    pub rule: u16,
    pub left: usize,
}

/// The rule that a token breaks which can't stand where it does.
pub const UNEXPECTED: u16 = 3;

/// The rule that a number breaks which is out of its range.
pub const OUT_OF_RANGE: u16 = 4;

/// Why a value that owns memory isn't read.
#[derive(Clone, Copy, Debug, PartialEq, Eq)]
pub enum ReadError {
    NoMemory,
    Refused(Refusal),
}

impl From<AllocError> for ReadError {
    ghost use Rattle.std.specs.Prelude.{◌≡◌};
    ghost use Rattle.ll_parser.specs.declared.refusal.ReadError.TheVariants.{NoMemory};

    ghost from_gives = { λ _ told. told ≡ NoMemory };

    fn from(_refused: AllocError) -> ReadError {
        ReadError::NoMemory
    }
}

impl From<Refusal> for ReadError {
    ghost use Rattle.std.specs.Prelude.{◌≡◌};
    ghost use Rattle.ll_parser.specs.declared.refusal.ReadError.TheVariants.{Refused};

    ghost from_gives = { λ refusal told. told ≡ Refused refusal };

    fn from(refusal: Refusal) -> ReadError {
        ReadError::Refused(refusal)
    }
}
