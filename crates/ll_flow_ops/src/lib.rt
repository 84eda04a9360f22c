//! Instructions of control flow of LLVM 14's assembly language, read from the tokens of a text.
#![tactic(auto)]

mod laws;
mod opcodes;
mod operations;
mod phis;
mod switches;
mod targets;
#[cfg(test)]
mod tests;

pub use laws::{
    flow_operations_are_parts, flow_operations_before_an_end_are_whole,
    flow_operations_leave_one_rest, refused_flow_operations_derive_nothing,
};
pub use operations::read_flow_operation;
