//! Attributes, attachments and the words at the head of functions in LLVM 14's assembly language, read from the tokens of a
//! text.
#![tactic(auto)]

mod attachments;
mod attribute_kinds;
mod attributes;
mod function_attributes;
mod heads;
mod laws;
mod numbers;
#[cfg(test)]
mod tests;
mod texts;

pub use attachments::{node_name, read_attachments, skip_attachments};
pub use attributes::read_attributes;
pub use function_attributes::{attribute_group, skip_function_attributes};
pub use heads::{is_kernel, read_linkage, skip_convention, skip_unnamed, skip_word_if_there};
pub use laws::{
    attachments_are_read_in_one_way, attributes_are_read_in_one_way, attributes_are_read_whole,
    attributes_leave_one_rest, function_attributes_are_read_whole,
    function_attributes_leave_one_rest, heads_are_read_in_one_way, heads_are_read_whole,
    nodes_and_texts_are_read_in_one_way, other_tokens_begin_no_function_attribute,
    refused_attachments_derive_nothing, refused_attributes_derive_nothing,
    refused_function_attributes_derive_nothing, tokens_are_refused_at_one_place,
    types_and_values_begin_no_attribute,
};
pub use texts::{read_text, skip_text};
