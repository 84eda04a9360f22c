//! The translation of kernels of the covered subset between text and binary, whole: from the bytes of an input to those of its translation.
#![tactic(auto)]

mod binary;
mod canonical;
mod decoded;
mod error;
pub mod laws;
mod limits;
mod text;
mod text_translation;
mod translation;

pub use decoded::module_of;
pub use error::{BinaryError, TranslateError};
pub use text_translation::translate_binary;
pub use translation::{MAX_BYTES, translate};
