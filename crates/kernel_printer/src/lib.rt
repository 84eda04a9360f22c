//! The text of kernels with numbered names (LLVM 14 Language Reference, "Functions").
#![tactic(auto)]

mod insts;
mod params;
mod print;

pub use print::print_kernel;
