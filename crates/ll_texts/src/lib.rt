//! The texts of modules of LLVM 14's assembly language: from a text to its module, or to the first rule that it breaks.
#![tactic(auto)]

mod laws;
mod parsing;
mod rules;
#[cfg(test)]
mod tests;

pub use laws::{modules_have_no_fault, texts_of_modules_break_no_rule};
pub use parsing::{parse, text_fault};
