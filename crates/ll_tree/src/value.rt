use crate::child::Child;
use crate::name::Name;
use crate::op::CastKind;
use crate::parts::Parts;
use crate::ty::LlType;
use sqlite_items::Items;

/// A value with its type.
#[cycle(values)]
#[derive(Drop)]
pub struct TypedValue {
    pub ty: LlType,
    pub value: Value,
}

/// A value as it is written (LLVM 14, Constants).
#[cycle(values)]
#[derive(Drop)]
pub enum Value {
    Local(Name),
    Global(Name),
    /// A whole number, as it is written.
    Int(i128),
    /// `c".."`, by its bytes.
    Bytes(Items<u8>),
    Bool(bool),
    Null,
    /// `zeroinitializer`
    Zero,
    Undef,
    Poison,
    /// `< .. >`
    Vector(Parts<TypedValue>),
    /// `[ .. ]`
    Array(Parts<TypedValue>),
    /// `{ .. }`
    Struct(Parts<TypedValue>),
    /// `<{ .. }>`
    Packed(Parts<TypedValue>),
    /// `getelementptr`: the type that it steps through, then the pointer and the indexes.
    GetElementPtr {
        inbounds: bool,
        ty: LlType,
        operands: Parts<TypedValue>,
    },
    /// A conversion of a constant to a type.
    Cast {
        kind: CastKind,
        operand: Child<TypedValue>,
        to: LlType,
    },
}
