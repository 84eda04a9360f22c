use crate::read_flow_operation;
use ll_parser::{NameTable, ReadError};
use ll_tokens::{Token, tokens};
use ll_tree::{Op, Value};
use std::alloc::Global;
use std::test::Fail;

/// What reading comes to: the instruction, the numbers of what stands in it and how many tokens are left, or the rule that is
/// broken and how many tokens are left.
#[derive(Clone, Copy, Debug, PartialEq, Eq)]
enum Outcome {
    Read(&'static str, [i128; 3], usize),
    NoOperation,
    Refused(u16, usize),
    NoMemory,
}

use Outcome::{Read, Refused};

/// A number, and 0 for every other value.
fn number_of(value: &Value) -> i128 {
    match value {
        Value::Int(number) => *number,
        _ => 0,
    }
}

/// The instruction, with the numbers of its values and blocks: of a phi or a switch the count of its entries or cases, and the
/// value and the block of the last one.
fn shape(op: &Op, left: usize) -> Outcome {
    match op {
        Op::Phi { entries, .. } => {
            let mut last = [entries.as_slice().len() as i128, 0, 0];
            for entry in entries.as_slice() {
                last[1] = number_of(&entry.value);
                last[2] = i128::from(entry.block.number);
            }
            Read("phi", last, left)
        }
        Op::ReturnVoid => Read("ret void", [0, 0, 0], left),
        Op::Return { value } => Read("ret", [number_of(&value.value), 0, 0], left),
        Op::Jump { target } => Read("jump", [i128::from(target.number), 0, 0], left),
        Op::Branch {
            condition,
            accepted,
            rejected,
        } => Read(
            "br",
            [
                number_of(&condition.value),
                i128::from(accepted.number),
                i128::from(rejected.number),
            ],
            left,
        ),
        Op::Switch { cases, .. } => {
            let mut last = [cases.as_slice().len() as i128, 0, 0];
            for case in cases.as_slice() {
                last[1] = number_of(&case.value.value);
                last[2] = i128::from(case.target.number);
            }
            Read("switch", last, left)
        }
        Op::Unreachable => Read("unreachable", [0, 0, 0], left),
        _ => Outcome::NoOperation,
    }
}

fn outcome_of(alloc: Global, tokens: &[Token<'_>]) -> Outcome {
    let mut names = NameTable::new(alloc);
    match read_flow_operation(alloc, tokens, &mut names) {
        Ok(Some((op, rest))) => shape(&op, rest.len()),
        Ok(None) => Outcome::NoOperation,
        Err(ReadError::Refused(refusal)) => Refused(refusal.rule, refusal.left),
        Err(ReadError::NoMemory) => Outcome::NoMemory,
    }
}

const READ: [(&str, Outcome); 16] = [
    ("phi i32 [ 1, %a ]", Read("phi", [1, 1, 0], 0)),
    (
        "phi i32 [ 1, %a ], [ 2, %b ], !dbg !1",
        Read("phi", [2, 2, 1], 3),
    ),
    ("ret void", Read("ret void", [0, 0, 0], 0)),
    ("ret i32 7", Read("ret", [7, 0, 0], 0)),
    ("ret void* %p", Read("ret void", [0, 0, 0], 2)),
    ("br label %a", Read("jump", [0, 0, 0], 0)),
    ("br i1 1, label %a, label %b", Read("br", [1, 0, 1], 0)),
    ("switch i32 5, label %a [ ]", Read("switch", [0, 0, 0], 0)),
    (
        "switch i32 5, label %a [ i32 1, label %b i32 2, label %c ] ret void",
        Read("switch", [2, 2, 2], 2),
    ),
    ("unreachable", Read("unreachable", [0, 0, 0], 0)),
    ("unreachable, !dbg !1", Read("unreachable", [0, 0, 0], 3)),
    ("add i32 1, 2", Outcome::NoOperation),
    ("%ret void", Outcome::NoOperation),
    ("", Outcome::NoOperation),
    ("phi [1 x i8] [ [i8 1], %a ]", Read("phi", [1, 0, 0], 0)),
    ("ret { i32 } { i32 1 }", Read("ret", [0, 0, 0], 0)),
];

const REFUSED: [(&str, Outcome); 18] = [
    ("phi", Refused(3, 0)),
    ("phi i32", Refused(3, 0)),
    ("phi i32 [ label, %a ]", Refused(3, 4)),
    ("phi i8 [ 256, %a ]", Refused(4, 4)),
    ("phi i32 [ 1 %a ]", Refused(3, 2)),
    ("phi i32 [ 1, a ]", Refused(3, 2)),
    ("phi i32 [ 1, %a", Refused(3, 0)),
    ("phi i32 [ 1, %a ], [ 2, %99999999999 ]", Refused(4, 2)),
    ("ret", Refused(3, 0)),
    ("ret i32", Refused(3, 0)),
    ("br", Refused(3, 0)),
    ("br label a", Refused(3, 1)),
    ("br i1 1 label %a", Refused(3, 2)),
    ("br i1 1, label %a", Refused(3, 0)),
    ("br i1 1, label %a, %b", Refused(3, 1)),
    ("switch i32 5, label %a", Refused(3, 0)),
    ("switch i32 5, label %a [ i32 1, label %b", Refused(3, 0)),
    ("switch i32 5, label %a [ i32 1 label %b ]", Refused(3, 3)),
];

#[test]
fn reads_instructions(rt: HostRuntime) -> Result<(), Fail> {
    for (text, want) in READ {
        let found = tokens(rt.alloc(), text)?;
        assert_eq!(rt; outcome_of(rt.alloc(), found.as_slice()), want, "in {text}");
    }
    Ok(())
}

#[test]
fn refuses_instructions(rt: HostRuntime) -> Result<(), Fail> {
    for (text, want) in REFUSED {
        let found = tokens(rt.alloc(), text)?;
        assert_eq!(rt; outcome_of(rt.alloc(), found.as_slice()), want, "in {text}");
    }
    Ok(())
}
