//! The sections of a SPIR-V binary: which one an instruction stands in, and which instructions break their order (SPIR-V 1.2, 2.4
//! "Logical Layout of a Module").
#![tactic(auto)]

mod places;
mod section_order;
mod standing;

pub use places::{lesser, told};
pub use section_order::{rank_in, section_fault};
pub use standing::{Section, Standing, begins_functions, standing_of};
