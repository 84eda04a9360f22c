use crate::bytes::Init;
use crate::lanes::Lanes;
use kern_lanes::{RmwOp, Scope, Width};
use kern_types::Class;

/// What a kernel does to memory or to other work-items. Sizes, alignments and addresses are in bytes;
/// a mask is one of SPIR-V's memory semantics (SPIR-V 1.2, 3.25), 0 where it orders nothing.
#[derive(Debug, Drop)]
pub enum Event {
    /// A variable of the module is placed; the answer is its address.
    Place {
        class: Class,
        size: u64,
        align: u64,
        init: Init,
        answer: u64,
    },
    /// A variable of a function is placed; the answer is its address.
    Alloc {
        size: u64,
        align: u64,
        answer: u64,
    },
    /// Lanes are read; they are the answers.
    Load {
        class: Class,
        address: u64,
        width: Width,
        align: u64,
        volatile: bool,
        lanes: Lanes,
    },
    /// Lanes are written.
    Store {
        class: Class,
        address: u64,
        width: Width,
        align: u64,
        volatile: bool,
        lanes: Lanes,
    },
    AtomicLoad {
        class: Class,
        address: u64,
        width: Width,
        scope: Scope,
        mask: u32,
        answer: u64,
    },
    AtomicStore {
        class: Class,
        address: u64,
        width: Width,
        scope: Scope,
        mask: u32,
        value: u64,
    },
    /// A number is read, changed and written; the answer is the old one.
    Rmw {
        op: RmwOp,
        class: Class,
        address: u64,
        width: Width,
        scope: Scope,
        mask: u32,
        value: u64,
        answer: u64,
    },
    /// The value is written where the old number, which is the answer, equals the comparator.
    Cas {
        class: Class,
        address: u64,
        width: Width,
        scope: Scope,
        equal: u32,
        unequal: u32,
        value: u64,
        comparator: u64,
        answer: u64,
    },
    Fence {
        scope: Scope,
        mask: u32,
    },
    Barrier {
        execution: Scope,
        memory: Scope,
        mask: u32,
    },
}
