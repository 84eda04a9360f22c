//! The text of types, values and instructions, as LLVM 14's assembly language has them.
#![tactic(auto)]

mod bytes;
mod memory;
mod names;
mod operands;
mod ops;
mod types;
mod values;
mod words;

pub use bytes::{push_bytes, push_number, push_quoted, push_separator, push_str};
pub use names::{can_be_written, push_global, push_label, push_local};
pub use operands::push_align;
pub use ops::push_op;
pub use types::push_type;
pub use values::{push_typed, push_value};
pub use words::{attribute_word, target_word};
