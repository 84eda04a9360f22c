//! From the instructions of a SPIR-V binary to its module (SPIR-V 1.2, 2.4 "Logical Layout of a Module").
#![tactic(auto)]

mod building;
mod entries;
mod functions;
mod globals;
mod insts;
mod items;
mod kept;
mod laws;
mod modules;
mod readers;
mod texts;

pub use building::build;
pub use laws::{
    built_modules_are_one, built_or_refused, decoded_instructions_are_spelled_again,
    functions_are_read_back, instructions_are_spelled_again, items_are_read_back,
};

#[cfg(test)]
mod tests;
