//! What the same tokens are is one thing, but for the numbers that tables give to names.
#![tactic(auto)]

mod laws;

pub use laws::{blocks_are_one, modules_are_one, values_are_one};
