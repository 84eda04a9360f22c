//! The commands of the translator: from the words of a command line, a source and two sinks to a status.
#![tactic(auto)]

mod binary_listing;
mod driver;
pub mod laws;
mod listing;
mod refusals;
mod reply;
mod request;
mod status;

pub use driver::run;
pub use request::{Format, Request};
pub use status::Status;
