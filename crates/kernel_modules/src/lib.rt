//! The text of a kernel is the text of a module, and nests no deeper than a module may (LLVM 14 Language Reference, "Module
//! Structure"; "Functions").
#![tactic(auto)]

mod laws;

pub use laws::{kernels_are_of_modules, kernels_nest_no_deeper};
