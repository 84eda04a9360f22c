//! A refusal of types and operands depends on nothing behind its place: with the tokens up to the one at the place, none is there.
#![tactic(auto)]

mod laws;

pub use laws::{operands_stay, types_stay};
