//! The printed text of a canonical kernel is read as that kernel (LLVM 14 Language Reference, "Identifiers"; "Functions").
#![tactic(auto)]

mod laws;

pub use laws::{
    canonical_kernels_are_canonical, canonical_texts_are_read, example_is_printed,
    own_names_are_own, own_names_are_utf8, printed_kernels_are_read,
    printed_texts_are_of_one_kernel,
};
