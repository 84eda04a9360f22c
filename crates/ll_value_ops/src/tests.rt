use crate::read_value_operation;
use ll_parser::{NameTable, ReadError};
use ll_tokens::{Token, tokens};
use ll_tree::{FlagWord, Op, Value};
use std::alloc::Global;
use std::test::Fail;

/// What reading comes to: the instruction, the numbers that are its operands and how many tokens are left, or the rule that is
/// broken and how many tokens are left.
#[derive(Clone, Copy, Debug, PartialEq, Eq)]
enum Outcome {
    Read(&'static str, [i128; 3], usize),
    NoOperation,
    Refused(u16, usize),
    NoMemory,
}

use Outcome::{Read, Refused};

/// A number, and 0 for every other value.
fn number_of(value: &Value) -> i128 {
    match value {
        Value::Int(number) => *number,
        _ => 0,
    }
}

/// The place of the last `nsw`.
fn place_of_nsw(op: &Op) -> i128 {
    let mut place = 0;
    if let Op::Binary { flags, .. } = op {
        for flag in flags.as_slice() {
            if flag.word == FlagWord::Nsw {
                place = i128::from(flag.byte);
            }
        }
    }
    place
}

fn shape(op: &Op, left: usize) -> Outcome {
    match op {
        Op::Binary {
            left: first,
            right,
            ..
        } => {
            Read(
                "binary",
                [number_of(first), number_of(right), place_of_nsw(op)],
                left,
            )
        }
        Op::Compare {
            left: first,
            right,
            ..
        } => { Read("compare", [number_of(first), number_of(right), 0], left) }
        Op::Select {
            condition,
            accepted,
            rejected,
        } => Read(
            "select",
            [
                number_of(&condition.value),
                number_of(&accepted.value),
                number_of(&rejected.value),
            ],
            left,
        ),
        Op::Cast { operand, to, .. } => Read(
            "cast",
            [number_of(&operand.value), to.pointers.len() as i128, 0],
            left,
        ),
        Op::ExtractElement { vector, index } => Read(
            "extractelement",
            [number_of(&vector.value), number_of(&index.value), 0],
            left,
        ),
        Op::InsertElement {
            vector,
            element,
            index,
        } => Read(
            "insertelement",
            [
                number_of(&vector.value),
                number_of(&element.value),
                number_of(&index.value),
            ],
            left,
        ),
        Op::ShuffleVector {
            left: first,
            right,
            mask,
        } => Read(
            "shufflevector",
            [
                number_of(&first.value),
                number_of(&right.value),
                number_of(&mask.value),
            ],
            left,
        ),
        Op::ExtractValue { aggregate, index } => Read(
            "extractvalue",
            [number_of(&aggregate.value), i128::from(*index), 0],
            left,
        ),
        _ => Outcome::NoOperation,
    }
}

fn outcome_of(alloc: Global, tokens: &[Token<'_>]) -> Outcome {
    let mut names = NameTable::new(alloc);
    match read_value_operation(alloc, tokens, &mut names) {
        Ok(Some((op, rest))) => shape(&op, rest.len()),
        Ok(None) => Outcome::NoOperation,
        Err(ReadError::Refused(refusal)) => Refused(refusal.rule, refusal.left),
        Err(ReadError::NoMemory) => Outcome::NoMemory,
    }
}

const READ: [(&str, Outcome); 16] = [
    ("add i32 1, 2", Read("binary", [1, 2, 0], 0)),
    (
        "add nuw nsw i32 1, 2 ret void",
        Read("binary", [1, 2, 8], 2),
    ),
    ("udiv exact i32 %a, 2", Read("binary", [0, 2, 0], 0)),
    (
        "ashr <2 x i8> %a, <i8 1, i8 2>",
        Read("binary", [0, 0, 0], 0),
    ),
    ("icmp slt i32 3, 4, !dbg !1", Read("compare", [3, 4, 0], 3)),
    ("select i1 1, i32 5, i32 6", Read("select", [1, 5, 6], 0)),
    ("trunc i64 7 to i32", Read("cast", [7, 0, 0], 0)),
    (
        "bitcast i8* %p to i32 addrspace(1)**",
        Read("cast", [0, 2, 0], 0),
    ),
    (
        "addrspacecast i8* %p to i8 addrspace(4)* %q",
        Read("cast", [0, 1, 0], 1),
    ),
    (
        "extractelement <2 x i32> %v, i32 1",
        Read("extractelement", [0, 1, 0], 0),
    ),
    (
        "insertelement <2 x i32> %v, i32 8, i32 1",
        Read("insertelement", [0, 8, 1], 0),
    ),
    (
        "shufflevector <2 x i32> %v, <2 x i32> undef, <2 x i32> zeroinitializer",
        Read("shufflevector", [0, 0, 0], 0),
    ),
    (
        "extractvalue { i32, i8 } %s, 1",
        Read("extractvalue", [0, 1, 0], 0),
    ),
    ("ret void", Outcome::NoOperation),
    ("%add i32 1, 2", Outcome::NoOperation),
    ("", Outcome::NoOperation),
];

const REFUSED: [(&str, Outcome); 16] = [
    ("add", Refused(3, 0)),
    ("add fast i32 1, 2", Refused(3, 5)),
    ("add nsw i32 1 2", Refused(3, 1)),
    ("add i8 1, 256", Refused(4, 1)),
    ("add i32 %99999999999, 2", Refused(4, 3)),
    ("icmp i32 3, 4", Refused(3, 4)),
    ("icmp oeq i32 3, 4", Refused(3, 5)),
    ("select i1 1, i32 5", Refused(3, 0)),
    ("select i1 1, i32 5, 6", Refused(3, 1)),
    ("zext i8 1 i32", Refused(3, 1)),
    ("zext i8 1 to 2", Refused(3, 1)),
    ("extractelement <2 x i32> %v i32 1", Refused(3, 2)),
    ("insertelement <2 x i32> %v, i32 8 i32 1", Refused(3, 2)),
    ("shufflevector <2 x i32> %v, <2 x i32> undef", Refused(3, 0)),
    ("extractvalue { i32, i8 } %s, %i", Refused(3, 1)),
    (
        "extractvalue { i32, i8 } %s, 9223372036854775808",
        Refused(4, 1),
    ),
];

#[test]
fn reads_instructions(rt: HostRuntime) -> Result<(), Fail> {
    for (text, want) in READ {
        let found = tokens(rt.alloc(), text)?;
        assert_eq!(rt; outcome_of(rt.alloc(), found.as_slice()), want, "in {text}");
    }
    Ok(())
}

#[test]
fn refuses_instructions(rt: HostRuntime) -> Result<(), Fail> {
    for (text, want) in REFUSED {
        let found = tokens(rt.alloc(), text)?;
        assert_eq!(rt; outcome_of(rt.alloc(), found.as_slice()), want, "in {text}");
    }
    Ok(())
}
