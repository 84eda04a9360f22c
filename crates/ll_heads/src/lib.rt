//! Heads of functions in LLVM 14's assembly language, read from the tokens of a text: declarations, and definitions up to their
//! bodies.
#![tactic(auto)]

mod definitions;
mod heads;
mod laws;
mod numbering;
mod params;
#[cfg(test)]
mod tests;

pub use definitions::{DefinitionStart, read_definition_start};
pub use heads::read_declaration;
pub use laws::{
    declarations_are_read_whole, definition_starts_are_read_whole,
    definitions_begin_with_their_fronts, heads_are_read_in_one_way, heads_leave_one_rest,
    refused_heads_derive_nothing,
};
pub use numbering::{is_number, one_more};
pub use params::first_place;
