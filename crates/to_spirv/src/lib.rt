//! From a kernel with numbered names to its SPIR-V module. Definitions say which module that is.
#![tactic(auto)]

mod body;
mod bound;
mod ids;
mod laws;
mod limits;
mod lists;
mod names;
mod operations;
mod partner;
mod type_list;
mod types;

pub use laws::{
    first_kernels_have_their_words, ids_are_in_order, partner_keeps_framing, partner_pairs,
    partner_pairs_with_one, partners_differ, text_has_its_words,
};
pub use limits::is_within_limits;
pub use names::has_plain_name;
pub use partner::to_spirv;
