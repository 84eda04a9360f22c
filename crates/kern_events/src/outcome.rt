ghost use Rattle.std.specs.Prelude.{◌≡◌};
ghost use Rattle.kern_events.specs.Words.{outcome_words};

use ports::OutOfMemory;
use std::alloc::{AllocError, AllocFailed};

/// Why a work-item cannot go on.
#[derive(Clone, Copy, Debug, PartialEq, Eq, Hash)]
pub enum FaultKind {
    DivZero,
    DivOverflow,
    ShiftRange,
    LaneRange,
    /// A value was read before it was set.
    Unset,
    /// Control reached a place that the kernel says it never does.
    Unreachable,
}

/// How far a work-item came.
#[derive(Clone, Copy, Debug, PartialEq, Eq, Hash)]
pub enum Outcome {
    Ended,
    Fault(FaultKind),
    /// The next event takes more answers than are left.
    Asks,
    /// The steps are spent.
    Running,
}

/// Why a work-item could not be started.
#[derive(Clone, Copy, Debug, PartialEq, Eq, Hash)]
pub enum StartError {
    NoMemory,
    /// No kernel has the name.
    NoKernel,
}

impl From<OutOfMemory> for StartError {
    ghost use Rattle.kern_events.specs.declared.outcome.StartError.TheVariants.{NoMemory};

    ghost from_gives = { λ _ error. error ≡ NoMemory };

    fn from(_refused: OutOfMemory) -> StartError {
        StartError::NoMemory
    }
}

impl From<AllocError> for StartError {
    ghost use Rattle.kern_events.specs.declared.outcome.StartError.TheVariants.{NoMemory};

    ghost from_gives = { λ _ error. error ≡ NoMemory };

    fn from(_refused: AllocError) -> StartError {
        StartError::NoMemory
    }
}

impl<T: Drop> From<AllocFailed<T>> for StartError {
    ghost use Rattle.kern_events.specs.declared.outcome.StartError.TheVariants.{NoMemory};

    ghost from_gives = { λ _ error. error ≡ NoMemory };

    fn from(_refused: AllocFailed<T>) -> StartError {
        StartError::NoMemory
    }
}

/// The line of an outcome, without a line feed.
pub fn outcome_text(o: Outcome) -> &'static str
    ensures { result.now ≡ outcome_words o }
{
    match o {
        Outcome::Ended => "ended",
        Outcome::Fault(FaultKind::DivZero) => "fault div_zero",
        Outcome::Fault(FaultKind::DivOverflow) => "fault div_overflow",
        Outcome::Fault(FaultKind::ShiftRange) => "fault shift_range",
        Outcome::Fault(FaultKind::LaneRange) => "fault lane_range",
        Outcome::Fault(FaultKind::Unset) => "fault unset",
        Outcome::Fault(FaultKind::Unreachable) => "fault unreachable",
        Outcome::Asks => "asks",
        Outcome::Running => "running",
    }
}
