//! The words of a SPIR-V binary: their bytes in either byte order, and texts as words (SPIR-V 1.2, 2.2.1 and 2.3).
#![tactic(auto)]

mod feed;
mod laws;
mod strings;
mod words;

pub use feed::{WordError, WordFeed};
pub use laws::{one_string, one_word_list, pieces_join, string_reads_back};
pub use strings::{StringError, string_words, words_string};
pub use words::{MAGIC, Order, get_word, put_word, put_words};
