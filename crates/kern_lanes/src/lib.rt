//! The arithmetic of lanes: whole numbers of 1, 8, 16, 32 or 64 bits, with the operations that
//! SPIR-V 1.2 (3.32.13, 3.32.14) and the LLVM 14 Language Reference have in common.
//!
//! A lane is handed in and out as a `u64` below 2 to the power of its width. No call takes memory.
#![tactic(auto)]

mod atomic;
mod binary;
mod comparison;
mod conversion;
mod indexing;
mod laws;
mod regrouping;
mod scope;
#[cfg(test)]
mod tests;
mod trap;
mod width;

pub use atomic::{RmwOp, rmw};
pub use binary::{BinOp, bin};
pub use comparison::{Pred, cmp};
pub use conversion::{Conv, convert};
pub use indexing::lane_of;
pub use laws::{join_undoes_split, results_are_lanes, split_undoes_join, traps_come_exactly};
pub use regrouping::{join, split};
pub use scope::Scope;
pub use trap::Trap;
pub use width::Width;
