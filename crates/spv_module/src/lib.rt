//! The module of a SPIR-V binary: its items by their sections, its types as a table, and its function bodies (SPIR-V 1.2, 2.4 "Logical
//! Layout of a Module"). Contracts see every one of them as a plain value.
#![tactic(auto)]

mod declared;
mod flattening;
mod inst;
mod inst_set;
mod items;
mod laws;
mod module;
mod roles;
mod texts;
mod types;
mod woven;

pub use flattening::flatten;
pub use inst::{Operands, SpvInst};
pub use laws::{example_loses_its_places, first_kernel_is_spelled};
pub use module::{
    Capability, Constant, ConstantValue, DebugString, Decoration, DecorationGroup, Entry,
    Extension, Function, Group, Import, MemoryModel, Mode, Param, SourceVersion, SpvModule,
    Variable,
};
pub use roles::{IdRoles, has_result, has_result_type, roles_of};
pub use types::{TypeName, Types};
