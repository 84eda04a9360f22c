//! The bodies of functions in LLVM 14's assembly language, read from the tokens of a text: instructions with their names and
//! attachments, blocks with their labels.
#![tactic(auto)]

mod blocks;
mod insts;
mod laws;
mod operations;
#[cfg(test)]
mod tests;

pub use blocks::{Blocks, PlacedBlock, read_blocks};
pub use insts::{read_inst, read_insts};
pub use laws::{blocks_are_parts, blocks_leave_one_rest, refused_blocks_derive_nothing};
pub use operations::read_operation;
