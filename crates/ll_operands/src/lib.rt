//! What the instructions of LLVM 14's assembly language consist of: operands, labels and words that stand or don't.
#![tactic(auto)]

mod laws;
mod operands;
#[cfg(test)]
mod tests;
mod words;

pub use laws::{
    operands_leave_one_rest, operations_before_an_end_are_whole, refused_operands_derive_nothing,
};
pub use operands::{OfOneType, Three, Two, read_label, read_of_one_type, read_three, read_two};
pub use words::{take_if_word, take_operand_comma};
