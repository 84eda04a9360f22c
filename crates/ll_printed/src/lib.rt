//! What a module of LLVM 14's assembly language is written as is read as that module, places aside.
#![tactic(auto)]

mod laws;

pub use laws::{
    written_modules_are_read, written_modules_have_tokens, written_operations_are_read,
};
