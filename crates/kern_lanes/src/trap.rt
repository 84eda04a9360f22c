/// Why an operation on lanes has no result.
#[derive(Clone, Copy, Debug, PartialEq, Eq, Hash)]
pub enum Trap {
    /// A division or remainder by zero.
    DivZero,
    /// The least signed value divided by -1, whose quotient no lane holds.
    DivOverflow,
    /// A shift by the width or more.
    ShiftRange,
    /// A lane that the vector does not have.
    LaneRange,
}
