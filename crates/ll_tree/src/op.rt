use crate::name::Name;
use crate::parts::Parts;
use crate::ty::LlType;
use crate::value::{TypedValue, Value};
use kern_lanes::{BinOp, Pred, RmwOp};
use sqlite_items::Items;

/// A flag of an arithmetic instruction (LLVM 14, Binary Operations).
#[derive(Clone, Copy, Debug, PartialEq, Eq)]
pub enum FlagWord {
    Nuw,
    Nsw,
    Exact,
}

/// A flag and its place.
#[derive(Clone, Copy, Debug, PartialEq, Eq)]
pub struct Flag {
    pub word: FlagWord,
    pub byte: u64,
}

/// A conversion of a value to another type (LLVM 14, Conversion Operations).
#[derive(Clone, Copy, Debug, PartialEq, Eq)]
pub enum CastKind {
    Trunc,
    Zext,
    Sext,
    PtrToInt,
    IntToPtr,
    Bitcast,
    AddrSpaceCast,
}

/// The order of an atomic instruction (LLVM 14, Atomic Memory Ordering Constraints).
#[derive(Clone, Copy, Debug, PartialEq, Eq)]
pub enum Order {
    Monotonic,
    Acquire,
    Release,
    AcqRel,
    SeqCst,
}

/// What a phi takes where control comes from a block.
#[derive(Drop)]
pub struct PhiEntry {
    pub value: Value,
    pub block: Name,
}

/// A case of a switch and the block that it leads to.
#[derive(Drop)]
pub struct SwitchCase {
    pub value: TypedValue,
    pub target: Name,
}

/// How many values an `alloca` makes room for, as it is written.
#[derive(Drop)]
pub struct AllocaCount {
    pub ty: LlType,
    pub number: i128,
}

/// What an instruction does (LLVM 14, Instruction Reference), with its operands in the order in which they
/// are written. An alignment is in bytes, and absent where none is written. A `syncscope` is the bytes of its
/// text. The attributes, the calling convention and `tail` of a call are not kept.
#[derive(Drop)]
pub enum Op {
    Binary {
        op: BinOp,
        flags: Items<Flag>,
        ty: LlType,
        left: Value,
        right: Value,
    },
    Compare {
        pred: Pred,
        ty: LlType,
        left: Value,
        right: Value,
    },
    Select {
        condition: TypedValue,
        accepted: TypedValue,
        rejected: TypedValue,
    },
    Cast {
        kind: CastKind,
        operand: TypedValue,
        to: LlType,
    },
    Phi {
        ty: LlType,
        entries: Parts<PhiEntry>,
    },
    Alloca {
        ty: LlType,
        count: Option<AllocaCount>,
        align: Option<u64>,
    },
    Load {
        volatile: bool,
        ty: LlType,
        pointer: TypedValue,
        align: Option<u64>,
    },
    Store {
        volatile: bool,
        value: TypedValue,
        pointer: TypedValue,
        align: Option<u64>,
    },
    AtomicLoad {
        ty: LlType,
        pointer: TypedValue,
        scope: Option<Items<u8>>,
        order: Order,
        align: u64,
    },
    AtomicStore {
        value: TypedValue,
        pointer: TypedValue,
        scope: Option<Items<u8>>,
        order: Order,
        align: u64,
    },
    CompareExchange {
        pointer: TypedValue,
        comparator: TypedValue,
        value: TypedValue,
        scope: Option<Items<u8>>,
        equal: Order,
        unequal: Order,
        align: Option<u64>,
    },
    AtomicRmw {
        op: RmwOp,
        pointer: TypedValue,
        value: TypedValue,
        scope: Option<Items<u8>>,
        order: Order,
        align: Option<u64>,
    },
    Fence {
        scope: Option<Items<u8>>,
        order: Order,
    },
    GetElementPtr {
        inbounds: bool,
        ty: LlType,
        pointer: TypedValue,
        indexes: Parts<TypedValue>,
    },
    ExtractElement {
        vector: TypedValue,
        index: TypedValue,
    },
    InsertElement {
        vector: TypedValue,
        element: TypedValue,
        index: TypedValue,
    },
    ShuffleVector {
        left: TypedValue,
        right: TypedValue,
        mask: TypedValue,
    },
    ExtractValue {
        aggregate: TypedValue,
        index: u64,
    },
    Call {
        ty: LlType,
        callee: Name,
        arguments: Parts<TypedValue>,
    },
    ReturnVoid,
    Return {
        value: TypedValue,
    },
    Jump {
        target: Name,
    },
    Branch {
        condition: TypedValue,
        accepted: Name,
        rejected: Name,
    },
    Switch {
        selector: TypedValue,
        default: Name,
        cases: Parts<SwitchCase>,
    },
    Unreachable,
}
