//! What a module of LLVM 14's assembly language is written as is a text of the same module.
#![tactic(auto)]

mod laws;

pub use laws::{printed_modules_are_read, printed_modules_are_themselves, texts_have_one_module};
