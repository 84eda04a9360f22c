ghost use Rattle.std.specs.Prelude.{◌≡◌};

use crate::name::Name;
use sqlite_items::{Boxed, Items};

/// A type as it is written (LLVM 14, Type System): a base, and an address space for each `*` behind it, from
/// left to right. A `*` without an address space has space 0.
#[cycle(types)]
#[derive(Drop)]
pub struct LlType {
    pub base: TypeBase,
    pub pointers: Items<u64>,
}

/// What a type begins with.
#[cycle(types)]
#[derive(Drop)]
pub enum TypeBase {
    Void,
    /// `i` and the number of bits, which is 2^64 - 1 for every number above that.
    Int(u64),
    Half,
    Float,
    Double,
    /// A struct type by its name.
    Named(Name),
    /// `[count x part]`
    Array(u64, Boxed<LlType>),
    /// `<lanes x part>`
    Vector(u64, Boxed<LlType>),
    /// `{ .. }`
    Struct(Items<LlType>),
    /// `<{ .. }>`
    Packed(Items<LlType>),
}

impl LlType {
    ghost use Rattle.ll_tree.specs.Types.{int_width};

    /// The number of bits of an integer type. None exactly for every other type, a pointer to an integer too.
    pub fn int_width(&self) -> Option<u64>
        ensures { result ≡ int_width self.now }
    {
        match self.base {
            TypeBase::Int(bits) if self.pointers.is_empty() => Some(bits),
            _ => None,
        }
    }
}
