//! The items of modules of LLVM 14's assembly language, but for functions, read from the tokens of a text.
#![tactic(auto)]

mod groups;
mod laws;
mod lists;
mod named_nodes;
mod node_parts;
mod nodes;
mod openings;
mod small_items;
mod starts;
mod structs;
mod targets;
#[cfg(test)]
mod tests;
mod variables;

pub use groups::{skip_attribute_group, skip_source_filename};
pub use laws::{
    items_are_read_in_one_way, items_are_read_whole, items_leave_one_rest,
    refused_items_derive_nothing, refused_small_items_derive_nothing, small_items_are_read_whole,
    small_items_leave_one_rest,
};
pub use named_nodes::{NamedNodes, read_named_nodes};
pub use nodes::read_node;
pub use small_items::{SmallItem, read_small_item};
pub use structs::read_struct_type;
pub use targets::read_target;
pub use variables::read_variable;
