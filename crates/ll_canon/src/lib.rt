//! The canonical form of kernels of text: which ones have it, and what it is (LLVM 14 Language Reference, "Identifiers").
#![tactic(auto)]

mod canonical_form;
mod definitions;
mod distinct;
mod laws;
mod numbered;
mod sequence;
mod undefined;
mod uses;

pub use canonical_form::{CanonError, canon};
pub use laws::{canonical_is_its_own, canonical_is_numbered, same_kernels_are_one};
