//! Modules of LLVM 14's assembly language, read whole from the tokens of a text: items, functions with their bodies, and what is
//! kept of them.
#![tactic(auto)]

mod collected;
mod definitions;
mod items;
mod laws;
mod parsing;
#[cfg(test)]
mod tests;

pub use definitions::{Definition, read_definition};
pub use items::{ModuleItem, read_item};
pub use laws::{
    items_are_read_whole, items_leave_one_rest, refused_items_derive_nothing,
    refused_tokens_are_of_no_module,
};
pub use parsing::parse_tokens;
