//! The text of a module, as LLVM 14's assembly language has it.
#![tactic(auto)]

mod functions;
mod heads;
mod insts;
mod items;
mod nodes;
mod printing;
mod variables;

pub use printing::print;
