use ll_tree::{Name, NameText};
use sqlite_items::Items;

/// The types of the covered subset's values (LLVM 14, Type System).
#[derive(Clone, Copy, Debug, PartialEq, Eq)]
pub enum ValueType {
    /// `i32`
    Int,
    /// `i32 addrspace(1)*`, a pointer to global memory
    Pointer,
}

/// A parameter of a kernel.
#[derive(Clone, Copy, Debug, PartialEq, Eq)]
pub struct KernelParam {
    pub value_type: ValueType,
    pub name: Name,
}

/// An instruction of a kernel, with the names of the values that it takes (LLVM 14, Instruction Reference). All numbers are `i32`,
/// and an alignment, where one is written, is of 4 bytes.
#[derive(Clone, Copy, Debug, PartialEq, Eq)]
pub enum KernelInst {
    Add {
        sum: Name,
        left: Name,
        right: Name,
    },
    Load {
        loaded: Name,
        pointer: Name,
        is_aligned: bool,
    },
    Store {
        value: Name,
        pointer: Name,
        is_aligned: bool,
    },
}

/// A kernel of the covered subset, alone in its module: a function without result and with one block, which ends with `ret void`.
#[derive(Drop)]
pub struct Kernel {
    /// Whether the two target lines stand before the kernel.
    pub has_targets: bool,
    pub name: Name,
    pub params: Items<KernelParam>,
    /// The name of the block. A label that is left out has the place of the block's first token.
    pub block: Name,
    /// The instructions before the `ret void`.
    pub insts: Items<KernelInst>,
    /// What each number of a name stands for.
    pub names: Items<NameText>,
}
