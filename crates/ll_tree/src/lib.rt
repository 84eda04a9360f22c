//! The modules of the kernel subset of LLVM 14 as trees (LLVM 14 Language Reference, with typed pointers):
//! items, types, values and instructions, each by its production of the grammar and with its place in the
//! text. Contracts see every one of them as a plain value.
#![tactic(auto)]

mod child;
mod inst;
mod inst_set;
mod laws;
mod module;
mod name;
mod op;
mod op_renaming;
mod op_uses;
mod parts;
mod renaming;
#[cfg(test)]
mod tests;
mod ty;
mod uses;
mod value;

pub use child::Child;
pub use inst::{Inst, LlInst};
pub use laws::{example_loses_its_places, spellings_are_told_apart};
pub use module::{
    Attribute, AttributeKind, Function, Head, Linkage, LlModule, Node, NodePart, NodeRef, Param,
    Struct, Target, TargetKind, Variable,
};
pub use name::{Name, NameKind, NameText, Spelling};
pub use op::{AllocaCount, CastKind, Flag, FlagWord, Op, Order, PhiEntry, SwitchCase};
pub use parts::Parts;
pub use ty::{LlType, TypeBase};
pub use value::{TypedValue, Value};
