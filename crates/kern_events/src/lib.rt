//! What a kernel does that is seen from outside: its events, what they are given, and their text.
#![tactic(auto)]

mod bytes;
mod event;
mod item;
mod lanes;
mod listing;
mod numbers;
mod outcome;
mod parts;
#[cfg(test)]
mod tests;
mod text;
mod words;

pub use bytes::{Init, InitBytes};
pub use event::Event;
pub use item::{Inputs, Item, Numbers};
pub use lanes::Lanes;
pub use listing::read_numbers;
pub use numbers::NumbersError;
pub use outcome::{FaultKind, Outcome, StartError, outcome_text};
pub use parts::hex_text;
pub use text::event_text;
