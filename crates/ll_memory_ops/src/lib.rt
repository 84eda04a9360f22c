//! Instructions on memory of LLVM 14's assembly language, read from the tokens of a text.
#![tactic(auto)]

mod accesses;
mod addresses;
mod alignments;
mod allocations;
mod atomics;
mod laws;
mod opcodes;
mod operations;
mod orders;
#[cfg(test)]
mod tests;

pub use laws::{
    memory_operations_are_parts, memory_operations_before_an_end_are_whole,
    memory_operations_leave_one_rest, refused_memory_operations_derive_nothing,
};
pub use operations::read_memory_operation;
