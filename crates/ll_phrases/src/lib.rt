//! What the modules of LLVM 14's assembly language are written as: tokens and the blanks between them.
#![tactic(auto)]

mod laws;

pub use laws::texts_are_read_as_their_phrases;
