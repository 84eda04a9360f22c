use crate::class::Class;
use crate::ids::Ids;
use kern_lanes::Width;

/// The place of a type in its table.
#[derive(Clone, Copy, Debug, PartialEq, Eq, PartialOrd, Ord, Hash)]
pub struct TyId(pub u32);

/// A type. Its parts are types that stand before it in the table.
#[derive(Debug, Drop)]
pub enum Ty {
    Void,
    Bool,
    Int(Width),
    Vector { of: TyId, lanes: u32 },
    Array { of: TyId, count: u64 },
    Struct { members: Ids, packed: bool },
    Pointer { class: Class, to: TyId },
    Function { result: TyId, params: Ids },
    /// A type that the other variants cannot hold, such as an integer of 24 bits.
    Other,
}
