//! The grammar of the kernel subset of LLVM 14's assembly language, over the tokens of a text, and readers of
//! its productions.
#![tactic(auto)]

mod cursor;
mod escapes;
mod laws;
mod name_key;
mod name_table;
mod names;
mod numbers;
mod refusal;
mod spaces;
mod spellings;
mod suffixes;
mod word_types;

pub use cursor::{is_of_kind, split_first, take_mark, take_word, unexpected};
pub use escapes::unescaped;
pub use laws::{
    integer_types_are_read_in_one_way, kernels_are_read, numbers_are_read_in_one_way,
    pointers_are_read_in_one_way, spaces_are_read_whole, types_are_read,
};
pub use name_table::NameTable;
pub use names::{global, local, spelled_number, type_name};
pub use numbers::{are_digits, capped_decimal, integer_type, number};
pub use refusal::{OUT_OF_RANGE, ReadError, Refusal, UNEXPECTED};
pub use spaces::space;
pub use spellings::spelling;
pub use suffixes::{last, pointers};
pub use word_types::word_type;
