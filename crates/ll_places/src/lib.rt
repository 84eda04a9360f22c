//! What is told of a text that is no module's is one thing: its tokens are refused at one place, by one rule.
#![tactic(auto)]

mod laws;

pub use laws::{texts_have_one_fault, tokens_are_refused_once};
