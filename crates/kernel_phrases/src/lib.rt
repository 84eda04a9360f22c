//! The text that a canonical kernel is printed as is what its module is written as (LLVM 14 Language Reference, "Module Structure";
//! "Functions").
#![tactic(auto)]

mod laws;

pub use laws::canonical_kernels_are_written;
