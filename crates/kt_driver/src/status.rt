ghost use Rattle.std.specs.Prelude.{◌≡◌, ◌≤◌};
ghost use Rattle.kt_driver.specs.Statuses.{exit_number_of};

/// How a run ended.
#[derive(Clone, Copy, Debug, PartialEq, Eq, Hash)]
pub enum Status {
    /// The answer was written.
    Ok,
    /// The input breaks a rule, which was told.
    Refused,
    /// The words are no request.
    Usage,
    /// The source failed.
    ReadFault,
    /// A sink failed.
    WriteFault,
    /// No memory could be had.
    NoMemory,
}

impl Status {
    /// The number that the program ends with: 0 to 5, in the order of the statuses.
    pub fn exit_number(self) -> u8
        ensures { result ≡ exit_number_of self }
    {
        match self {
            Status::Ok => 0,
            Status::Refused => 1,
            Status::Usage => 2,
            Status::ReadFault => 3,
            Status::WriteFault => 4,
            Status::NoMemory => 5,
        }
    }
}
