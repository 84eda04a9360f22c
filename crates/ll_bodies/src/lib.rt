//! What holds the instructions of LLVM 14's assembly language together: which end a block, the names that they are given, and the
//! labels of blocks, read from the tokens of a text.
#![tactic(auto)]

mod kinds;
mod labels;
mod laws;
mod namings;
#[cfg(test)]
mod tests;
mod words;

pub use kinds::{has_value, is_terminator};
pub use labels::read_block_label;
pub use laws::{
    bodies_end_instructions, instructions_begin_with_their_words, labels_leave_one_rest,
};
pub use namings::{name_left_out, number_behind, read_given_name};
pub use words::{begins_terminator, begins_unnamed};
