//! A module that is written as its instructions is built again from them (SPIR-V 1.2, 2.4 "Logical Layout of a Module").
#![tactic(auto)]

mod laws;

pub use laws::{
    building_gives_back, entries_are_built_again, functions_are_built_again, lists_are_built_again,
    modules_are_built_again, nothing_is_dropped, partner_is_built_again, partner_is_writable,
    texts_are_read_back, types_are_built_again, variables_are_built_again,
};
