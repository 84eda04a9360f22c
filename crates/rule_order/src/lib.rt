//! Which of the rules that an input breaks is told: the one at the least place, and of those there the one with the least number.
#![tactic(auto)]

mod breaks;
mod laws;

pub use breaks::{Break, FirstPlace, first_break};
pub use laws::{first_break_is_first, least_is_least};
