//! Calls of LLVM 14's assembly language, read from the tokens of a text.
#![tactic(auto)]

mod arguments;
mod callees;
mod calls;
mod laws;
mod openings;
#[cfg(test)]
mod tests;

pub use calls::read_call;
pub use laws::{
    calls_are_operations, calls_are_parts, calls_before_an_end_are_whole, calls_leave_one_rest,
    refused_calls_derive_nothing,
};
