//! Which rules of ids and functions the instructions of a binary break (SPIR-V 1.2, 2.4 "Logical Layout of a Module" and 2.16.1
//! "Universal Validation Rules").
#![tactic(auto)]

mod asks;
mod definitions;
mod dropped;
mod faults;
mod functions;
mod id_rules;
mod laws;
mod role_rules;
mod uses;
mod widths;

pub use definitions::{Definition, Definitions};
pub use dropped::{is_dropped, is_versioned};
pub use faults::names_fault;
pub use functions::{Part, function_section, part_of};
pub use laws::{functions_are_listed, misfit_is_first, unfinished_is_at_the_end};
pub use widths::has_wide;

#[cfg(test)]
mod tests;
