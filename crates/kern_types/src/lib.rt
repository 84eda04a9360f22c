//! The types of kernels, with sizes and alignments in bytes, and the offsets of a type's parts.
//!
//! A table of types is a list to which types are added; a type names its parts by their place in the
//! table (SPIR-V 1.2, 3.32.6; LLVM 14, type system).
#![tactic(auto)]

mod class;
mod ids;
mod laws;
mod layout;
mod steps;
mod table;
#[cfg(test)]
mod tests;
mod ty;

pub use class::{Class, PointerWidth};
pub use ids::Ids;
pub use laws::{layouts_are_aligned, layouts_come_from_parts, layouts_stay, steps_add_up};
pub use steps::step;
pub use table::{TypeTable, align_of, size_of};
pub use ty::{Ty, TyId};
