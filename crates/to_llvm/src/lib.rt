//! From the instructions of a binary back to the kernel whose module they are. The kernel is guessed from them, and its own module is
//! compared with the one that was given.
#![tactic(auto)]

mod canonical_kernel;
mod entry;
mod guess;
mod ids;
mod insts;
mod laws;
mod operands;
mod own_name;
mod params;
mod same;
mod table;

pub use canonical_kernel::to_llvm;
pub use laws::{
    binaries_are_modules, canonical_modules_differ, first_kernel_is_found, guess_is_right,
    one_kernel,
};
