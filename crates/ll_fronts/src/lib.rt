//! A refusal depends on nothing behind its place: with the tokens up to the one at the place, no module begins.
#![tactic(auto)]

mod laws;

pub use laws::{
    refusals_depend_on_nothing_behind, refusals_stay, shorter_lists_go_on,
    texts_depend_on_nothing_behind,
};
