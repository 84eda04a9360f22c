//! The text of kernels of the covered subset: its grammar, and a reader of it.
#![tactic(auto)]

mod blocks;
mod error;
mod insts;
mod kernels;
mod laws;
mod name_sorts;
mod names;
mod operands;
mod params;
mod phrases;
mod pieces;
mod signatures;

pub use error::KernelTextError;
pub use kernels::read_kernel;
pub use laws::{kernels_are_read, one_kernel};
