//! The tokens of a text of LLVM's assembly language, as slices of the text with the bytes where they
//! begin. A text is read once, and no part of it is copied.
#![tactic(auto)]

mod bytes;
mod encoding;
mod gaps;
mod kinds;
pub mod laws;
mod lengths;
mod longest;
mod scanning;

pub use encoding::utf8;
pub use kinds::{Token, TokenKind};
pub use scanning::{Tokenized, tokenize, tokens};

#[cfg(test)]
mod tests;
