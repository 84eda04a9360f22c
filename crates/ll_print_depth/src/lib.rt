//! What a module of LLVM 14's assembly language is written as nests no deeper than a text of the module.
#![tactic(auto)]

mod laws;

pub use laws::written_modules_nest_no_deeper;
