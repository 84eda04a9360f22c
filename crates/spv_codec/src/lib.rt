//! Binaries of SPIR-V: which instructions their bytes spell, and the bytes of instructions (SPIR-V 1.2, 2.3 "Physical Layout of a SPIR-V
//! Module and Instruction").
#![tactic(auto)]

mod decode;
mod decoder;
mod encoder;
mod ids;
mod instructions;
mod laws;
mod module;
mod operands;

pub use decoder::SpvDecoder;
pub use encoder::encode;
pub use laws::{module_or_fault, one_fault, one_module, operands_are_groups, spells_itself};
pub use module::{RawInst, RawModule};
