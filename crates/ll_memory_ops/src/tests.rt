use crate::read_memory_operation;
use ll_parser::{NameTable, ReadError};
use ll_tokens::{Token, tokens};
use ll_tree::{Op, Order, Value};
use sqlite_items::Items;
use std::alloc::Global;
use std::test::Fail;

/// What reading comes to: the instruction, some numbers that it holds and how many tokens are left, or the rule that is broken and
/// how many tokens are left.
#[derive(Clone, Copy, Debug, PartialEq, Eq)]
enum Outcome {
    Read(&'static str, [i128; 4], usize),
    NoOperation,
    Refused(u16, usize),
    NoMemory,
}

use Outcome::{Read, Refused};

/// A number, and 0 for every other value.
fn number_of(value: &Value) -> i128 {
    match value {
        Value::Int(number) => *number,
        _ => 0,
    }
}

/// An alignment, and -1 where there is none.
fn bytes_of(align: &Option<u64>) -> i128 {
    match align {
        Some(bytes) => i128::from(*bytes),
        None => -1,
    }
}

/// How long the text of a scope is, and -1 where there is none.
fn length_of(scope: &Option<Items<u8>>) -> i128 {
    match scope {
        Some(text) => text.len() as i128,
        None => -1,
    }
}

fn rank(order: Order) -> i128 {
    match order {
        Order::Monotonic => 1,
        Order::Acquire => 2,
        Order::Release => 3,
        Order::AcqRel => 4,
        Order::SeqCst => 5,
    }
}

/// The instruction with its numbers, in the order in which they are written: 1 for `volatile` and `inbounds`, the pointers of a
/// type, the values, the length of the scope, the rank of an order, the alignment, and how many indexes there are.
fn shape(op: &Op, left: usize) -> Outcome {
    match op {
        Op::Alloca { ty, count, align } => {
            let number = match count {
                Some(count) => count.number,
                None => -1,
            };
            Read(
                "alloca",
                [ty.pointers.len() as i128, number, bytes_of(align), 0],
                left,
            )
        }
        Op::Load {
            volatile,
            ty,
            align,
            ..
        } => Read(
            "load",
            [
                i128::from(*volatile),
                ty.pointers.len() as i128,
                bytes_of(align),
                0,
            ],
            left,
        ),
        Op::Store {
            volatile,
            value,
            pointer,
            align,
        } => Read(
            "store",
            [
                i128::from(*volatile),
                number_of(&value.value),
                number_of(&pointer.value),
                bytes_of(align),
            ],
            left,
        ),
        other => atomic_shape(other, left),
    }
}

fn atomic_shape(op: &Op, left: usize) -> Outcome {
    match op {
        Op::AtomicLoad {
            scope,
            order,
            align,
            ..
        } => Read(
            "load atomic",
            [length_of(scope), rank(*order), i128::from(*align), 0],
            left,
        ),
        Op::AtomicStore {
            value,
            scope,
            order,
            align,
            ..
        } => Read(
            "store atomic",
            [
                number_of(&value.value),
                length_of(scope),
                rank(*order),
                i128::from(*align),
            ],
            left,
        ),
        Op::CompareExchange {
            comparator,
            value,
            equal,
            unequal,
            ..
        } => Read(
            "cmpxchg",
            [
                number_of(&comparator.value),
                number_of(&value.value),
                rank(*equal),
                rank(*unequal),
            ],
            left,
        ),
        Op::AtomicRmw {
            value,
            scope,
            order,
            align,
            ..
        } => Read(
            "atomicrmw",
            [
                number_of(&value.value),
                length_of(scope),
                rank(*order),
                bytes_of(align),
            ],
            left,
        ),
        Op::Fence { scope, order } => Read("fence", [length_of(scope), rank(*order), 0, 0], left),
        Op::GetElementPtr {
            inbounds,
            indexes,
            ..
        } => {
            Read(
                "getelementptr",
                [
                    i128::from(*inbounds),
                    indexes.as_slice().len() as i128,
                    0,
                    0,
                ],
                left,
            )
        }
        _ => Outcome::NoOperation,
    }
}

fn outcome_of(alloc: Global, tokens: &[Token<'_>]) -> Outcome {
    let mut names = NameTable::new(alloc);
    match read_memory_operation(alloc, tokens, &mut names) {
        Ok(Some((op, rest))) => shape(&op, rest.len()),
        Ok(None) => Outcome::NoOperation,
        Err(ReadError::Refused(refusal)) => Refused(refusal.rule, refusal.left),
        Err(ReadError::NoMemory) => Outcome::NoMemory,
    }
}

static READ: [(&str, Outcome); 21] = [
    ("alloca i32", Read("alloca", [0, -1, -1, 0], 0)),
    ("alloca i32*, align 8", Read("alloca", [1, -1, 8, 0], 0)),
    (
        "alloca i32, i64 -3, align 4",
        Read("alloca", [0, -3, 4, 0], 0),
    ),
    (
        "alloca i32, i64 7, !dbg !1",
        Read("alloca", [0, 7, -1, 0], 3),
    ),
    ("alloca i32, !dbg !1", Read("alloca", [0, -1, -1, 0], 3)),
    ("load i32, i32* %p", Read("load", [0, 0, -1, 0], 0)),
    (
        "load volatile i8*, i8** %p, align 8, !dbg !1",
        Read("load", [1, 1, 8, 0], 3),
    ),
    ("store i32 5, i32* %p", Read("store", [0, 5, 0, -1], 0)),
    (
        "store volatile i32 5, i32* %p, align 4",
        Read("store", [1, 5, 0, 4], 0),
    ),
    (
        "load atomic i32, i32* %p seq_cst, align 4",
        Read("load atomic", [-1, 5, 4, 0], 0),
    ),
    (
        "load atomic i32, i32* %p syncscope(\"agent\") monotonic, align 4",
        Read("load atomic", [5, 1, 4, 0], 0),
    ),
    (
        "store atomic i32 9, i32* %p release, align 4",
        Read("store atomic", [9, -1, 3, 4], 0),
    ),
    (
        "cmpxchg i32* %p, i32 1, i32 2 acq_rel acquire",
        Read("cmpxchg", [1, 2, 4, 2], 0),
    ),
    (
        "cmpxchg i32* %p, i32 1, i32 2 syncscope(\"agent\") seq_cst monotonic, align 4",
        Read("cmpxchg", [1, 2, 5, 1], 0),
    ),
    (
        "atomicrmw add i32* %p, i32 3 monotonic",
        Read("atomicrmw", [3, -1, 1, -1], 0),
    ),
    (
        "atomicrmw umax i32* %p, i32 3 syncscope(\"agent\") acquire, align 4",
        Read("atomicrmw", [3, 5, 2, 4], 0),
    ),
    (
        "fence syncscope(\"workgroup\") acq_rel",
        Read("fence", [9, 4, 0, 0], 0),
    ),
    (
        "getelementptr i32, i32* %p, i64 1",
        Read("getelementptr", [0, 1, 0, 0], 0),
    ),
    (
        "getelementptr inbounds { i32 }, { i32 }* %p, i64 1, i32 0, !dbg !1",
        Read("getelementptr", [1, 2, 0, 0], 3),
    ),
    ("ret void", Outcome::NoOperation),
    ("", Outcome::NoOperation),
];

static REFUSED: [(&str, Outcome); 16] = [
    ("alloca", Refused(3, 0)),
    ("alloca i32, 4", Refused(3, 1)),
    ("alloca i32, align", Refused(3, 0)),
    ("alloca i32, i8 256", Refused(4, 1)),
    ("alloca i32, i8 1, align -1", Refused(4, 1)),
    ("load i32 i32* %p", Refused(3, 3)),
    ("load volatile atomic i32, i32* %p", Refused(3, 6)),
    ("load atomic i32, i32* %p monotonic", Refused(3, 0)),
    ("load atomic i32, i32* %p, align 4", Refused(3, 3)),
    ("store i32 5 i32* %p", Refused(3, 3)),
    ("cmpxchg i32* %p, i32 1 monotonic monotonic", Refused(3, 2)),
    ("cmpxchg i32* %p, i32 1, i32 2 monotonic", Refused(3, 0)),
    ("atomicrmw nand i32* %p, i32 3 monotonic", Refused(3, 8)),
    ("fence syncscope(agent) acquire", Refused(3, 3)),
    ("fence", Refused(3, 0)),
    ("getelementptr i32, i32* %p", Refused(3, 0)),
];

#[test]
fn reads_instructions(rt: HostRuntime) -> Result<(), Fail> {
    for (text, want) in READ.iter() {
        let found = tokens(rt.alloc(), text)?;
        assert_eq!(rt;
            outcome_of(rt.alloc(), found.as_slice()),
            *want,
            "in {text}"
        );
    }
    Ok(())
}

#[test]
fn refuses_instructions(rt: HostRuntime) -> Result<(), Fail> {
    for (text, want) in REFUSED.iter() {
        let found = tokens(rt.alloc(), text)?;
        assert_eq!(rt;
            outcome_of(rt.alloc(), found.as_slice()),
            *want,
            "in {text}"
        );
    }
    Ok(())
}
