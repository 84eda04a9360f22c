use crate::{read_label, read_of_one_type, read_three, read_two, take_if_word, take_operand_comma};
use ll_parser::{NameTable, ReadError};
use ll_tokens::{Token, tokens};
use std::alloc::Global;
use std::test::Fail;

/// What reading comes to: how many tokens are left, or the rule that is broken and how many are left then.
#[derive(Clone, Copy, Debug, PartialEq, Eq)]
enum Outcome {
    Left(usize),
    Refused(u16, usize),
    NoMemory,
}

use Outcome::{Left, Refused};

fn refused(error: ReadError) -> Outcome {
    match error {
        ReadError::Refused(refusal) => Refused(refusal.rule, refusal.left),
        ReadError::NoMemory => Outcome::NoMemory,
    }
}

fn two_outcome(alloc: Global, tokens: &[Token<'_>]) -> Outcome {
    let mut names = NameTable::new(alloc);
    match read_two(alloc, tokens, &mut names) {
        Ok((_two, rest)) => Left(rest.len()),
        Err(error) => refused(error),
    }
}

fn three_outcome(alloc: Global, tokens: &[Token<'_>]) -> Outcome {
    let mut names = NameTable::new(alloc);
    match read_three(alloc, tokens, &mut names) {
        Ok((_three, rest)) => Left(rest.len()),
        Err(error) => refused(error),
    }
}

fn one_type_outcome(alloc: Global, tokens: &[Token<'_>]) -> Outcome {
    let mut names = NameTable::new(alloc);
    match read_of_one_type(alloc, tokens, &mut names) {
        Ok((_operands, rest)) => Left(rest.len()),
        Err(error) => refused(error),
    }
}

fn label_outcome(alloc: Global, tokens: &[Token<'_>]) -> Outcome {
    let mut names = NameTable::new(alloc);
    match read_label(alloc, tokens, &mut names) {
        Ok((_name, rest)) => Left(rest.len()),
        Err(error) => refused(error),
    }
}

static TWO: [(&str, Outcome); 6] = [
    ("i32 1, i64 %x ret", Left(1)),
    ("i32 1 i64 2", Refused(3, 2)),
    ("i32 4294967296, i32 1", Refused(4, 4)),
    ("i32 1, i8 256", Refused(4, 1)),
    ("i32 1, i32", Refused(3, 0)),
    ("", Refused(3, 0)),
];

static THREE: [(&str, Outcome); 4] = [
    ("i1 %c, i32 1, i32 2, !dbg !3", Left(3)),
    ("i1 %c, i32 1", Refused(3, 0)),
    ("i1 %c, i32 1; i32 2\n i32 2", Refused(3, 2)),
    ("i1 %c, i32 1, %99999999999", Refused(4, 1)),
];

static OF_ONE_TYPE: [(&str, Outcome); 5] = [
    ("i8 255, -128", Left(0)),
    ("i8 255, -129", Refused(4, 1)),
    ("i16* %p, null", Left(0)),
    ("i8 1", Refused(3, 0)),
    ("i8 1, i8 2", Refused(3, 2)),
];

static LABELS: [(&str, Outcome); 4] = [
    ("label %x, label %y", Left(3)),
    ("%x", Refused(3, 1)),
    ("label @x", Refused(3, 1)),
    ("label %2147483648", Refused(4, 1)),
];

#[test]
fn operands_are_read_or_refused(rt: HostRuntime) -> Result<(), Fail> {
    let alloc = rt.alloc();
    for (text, outcome) in TWO.iter() {
        let found = tokens(alloc, text)?;
        assert_eq!(rt; two_outcome(alloc, found.as_slice()), *outcome, "{text}");
    }
    for (text, outcome) in THREE.iter() {
        let found = tokens(alloc, text)?;
        assert_eq!(rt; three_outcome(alloc, found.as_slice()), *outcome, "{text}");
    }
    Ok(())
}

#[test]
fn operands_of_one_type_and_labels_are_read_or_refused(rt: HostRuntime) -> Result<(), Fail> {
    let alloc = rt.alloc();
    for (text, outcome) in OF_ONE_TYPE.iter() {
        let found = tokens(alloc, text)?;
        assert_eq!(rt;
            one_type_outcome(alloc, found.as_slice()),
            *outcome,
            "{text}"
        );
    }
    for (text, outcome) in LABELS.iter() {
        let found = tokens(alloc, text)?;
        assert_eq!(rt; label_outcome(alloc, found.as_slice()), *outcome, "{text}");
    }
    Ok(())
}

/// Tokens, how many are left behind `volatile`, and how many behind a comma that no attachment follows.
static FRONTS: [(&str, usize, Option<usize>); 4] = [
    ("volatile i32", 1, None),
    (", i32", 2, Some(1)),
    (", !dbg !1", 3, None),
    (",", 1, Some(0)),
];

#[test]
fn words_and_commas_are_taken_where_they_stand(rt: HostRuntime) -> Result<(), Fail> {
    let alloc = rt.alloc();
    for (text, left, behind_comma) in FRONTS.iter() {
        let found = tokens(alloc, text)?;
        let (there, rest) = take_if_word(found.as_slice(), "volatile");
        assert_eq!(rt; rest.len(), *left, "{text}");
        assert_eq!(rt; there, rest.len() < found.len(), "{text}");
        let behind = take_operand_comma(found.as_slice()).map(|rest| rest.len());
        assert_eq!(rt; behind, *behind_comma, "{text}");
    }
    Ok(())
}
