//! Instructions on values of LLVM 14's assembly language, read from the tokens of a text.
#![tactic(auto)]

mod laws;
mod opcodes;
mod operations;
#[cfg(test)]
mod tests;

pub use laws::{
    refused_value_operations_derive_nothing, value_operations_are_parts,
    value_operations_before_an_end_are_whole, value_operations_leave_one_rest,
};
pub use operations::read_value_operation;
