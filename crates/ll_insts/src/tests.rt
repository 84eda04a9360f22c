use crate::{read_blocks, read_inst};
use ll_parser::{NameTable, ReadError};
use ll_tokens::{Token, tokens};
use std::alloc::Global;
use std::test::Fail;

/// What reading comes to: how many tokens are left and the next number, or the rule that is broken and how many are left then.
#[derive(Clone, Copy, Debug, PartialEq, Eq)]
enum Outcome {
    Left(usize, usize),
    Refused(u16, usize),
    NoMemory,
}

use Outcome::{Left, Refused};

fn refused(error: ReadError) -> Outcome {
    match error {
        ReadError::Refused(refusal) => Refused(refusal.rule, refusal.left),
        ReadError::NoMemory => Outcome::NoMemory,
    }
}

fn inst_outcome(alloc: Global, tokens: &[Token<'_>]) -> Outcome {
    let mut names = NameTable::new(alloc);
    let mut next = 3;
    match read_inst(alloc, tokens, &mut names, &mut next) {
        Ok((_inst, rest)) => Left(rest.len(), next as usize),
        Err(error) => refused(error),
    }
}

/// What reading blocks comes to: how many tokens are left, and how many blocks there are.
fn blocks_outcome(alloc: Global, tokens: &[Token<'_>]) -> Outcome {
    let mut names = NameTable::new(alloc);
    match read_blocks(alloc, tokens, &mut names, 0) {
        Ok((blocks, rest)) => Left(rest.len(), blocks.labels.len()),
        Err(error) => refused(error),
    }
}

static INSTS: [(&str, Outcome); 10] = [
    ("%x = add i32 1, 2 ret", Left(1, 3)),
    ("add i32 1, 2, !dbg !7", Left(0, 4)),
    ("%3 = load i8, i8* %p, align 1 }", Left(1, 4)),
    ("call void @f(i32 1) #0", Left(0, 3)),
    ("call i32 @f()", Left(0, 4)),
    ("store i8 1, i8* %p", Left(0, 3)),
    ("ret void", Left(0, 3)),
    ("%x = store i8 1, i8* %p", Refused(3, 7)),
    ("%x = ret void", Refused(3, 2)),
    ("%x = fadd float 1, 2", Refused(3, 5)),
];

static BLOCKS: [(&str, Outcome); 7] = [
    ("ret void } x", Left(1, 1)),
    ("a: br label %b b: ret void }", Left(0, 2)),
    ("br label %1 ret void }", Left(0, 2)),
    ("}", Refused(3, 1)),
    ("ret void", Refused(3, 0)),
    ("%x = add i32 1, 2 }", Refused(3, 1)),
    ("9999999999: ret void }", Refused(4, 4)),
];

#[test]
fn instructions_are_read_or_refused(rt: HostRuntime) -> Result<(), Fail> {
    let alloc = rt.alloc();
    for (text, outcome) in INSTS.iter() {
        let found = tokens(alloc, text)?;
        assert_eq!(rt; inst_outcome(alloc, found.as_slice()), *outcome, "{text}");
    }
    Ok(())
}

#[test]
fn blocks_are_read_or_refused(rt: HostRuntime) -> Result<(), Fail> {
    let alloc = rt.alloc();
    for (text, outcome) in BLOCKS.iter() {
        let found = tokens(alloc, text)?;
        assert_eq!(rt; blocks_outcome(alloc, found.as_slice()), *outcome, "{text}");
    }
    Ok(())
}
