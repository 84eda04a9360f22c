//! The types that the instructions of a SPIR-V binary declare, as a table (SPIR-V 1.2, 3.32.6 "Type-Declaration Instructions").
#![tactic(auto)]

mod laws;
mod numbers;
mod packed;
mod readings;
mod tables;

pub use laws::types_are_read_back;
pub use readings::class_of;
pub use tables::types_of;
