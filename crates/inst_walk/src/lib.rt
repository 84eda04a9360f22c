//! What the walks over a function body need of an instruction set, and the walks: each is proved once
//! for every instruction set that keeps the laws of `InstSet`.
#![tactic(auto)]

mod body;
mod calls;
mod definitions;
mod flow;
mod inst_set;
mod laws;
mod name_places;
mod renamed;
mod renaming;
mod uses;

pub use body::{Block, Body};
pub use calls::call_cycle;
pub use flow::block_order;
pub use inst_set::InstSet;
pub use laws::{
    body_renamed_alike, body_renamed_same, body_renamed_twice, call_cycle_of_renumbered,
    first_call_of_renamed, first_use_of_renamed, names_of_renamed, order_of_renamed,
    outline_of_renamed, places_are_apart, walks_of_renumbered, walks_without_others,
};
pub use name_places::Places;
pub use renamed::renumber;
pub use renaming::Renaming;
pub use uses::first_use_above;

#[cfg(test)]
mod tests;
