use crate::read_call;
use ll_parser::{NameTable, ReadError};
use ll_tokens::{Token, tokens};
use ll_tree::{Op, Parts, TypedValue, Value};
use std::alloc::Global;
use std::test::Fail;

/// What reading comes to: how many arguments a call has, its first and its last one where they are numbers, the place of the
/// name of what is called, and how many tokens are left; or the rule that is broken and how many tokens are left.
#[derive(Clone, Copy, Debug, PartialEq, Eq)]
enum Outcome {
    Read(usize, [i128; 2], u64, usize),
    NoCall,
    Refused(u16, usize),
    NoMemory,
}

use Outcome::{Read, Refused};

/// A number, and 0 for every other value and where there is none.
fn number_of(argument: Option<&TypedValue>) -> i128 {
    match argument {
        Some(argument) => match argument.value {
            Value::Int(number) => number,
            _ => 0,
        },
        None => 0,
    }
}

fn numbers_of(arguments: &Parts<TypedValue>) -> [i128; 2] {
    let arguments = arguments.as_slice();
    [number_of(arguments.first()), number_of(arguments.last())]
}

fn shape(op: &Op, left: usize) -> Outcome {
    match op {
        Op::Call {
            callee,
            arguments,
            ..
        } => Read(
            arguments.as_slice().len(),
            numbers_of(arguments),
            callee.byte,
            left,
        ),
        _ => Outcome::NoCall,
    }
}

fn outcome_of(alloc: Global, tokens: &[Token<'_>]) -> Outcome {
    let mut names = NameTable::new(alloc);
    match read_call(alloc, tokens, &mut names) {
        Ok(Some((op, rest))) => shape(&op, rest.len()),
        Ok(None) => Outcome::NoCall,
        Err(ReadError::Refused(refusal)) => Refused(refusal.rule, refusal.left),
        Err(ReadError::NoMemory) => Outcome::NoMemory,
    }
}

const READ: [(&str, Outcome); 14] = [
    ("call void @f()", Read(0, [0, 0], 10, 0)),
    ("tail call void @f()", Read(0, [0, 0], 15, 0)),
    ("notail call void @f()", Read(0, [0, 0], 17, 0)),
    ("call spir_func i32 @f(i32 1)", Read(1, [1, 1], 19, 0)),
    (
        "tail call spir_kernel noundef zeroext i8 @f(i8 signext 1, i8 noundef 2, i8 3) #0 nounwind, !dbg !1",
        Read(3, [1, 3], 41, 3),
    ),
    (
        "call i8* @f(i8* byval(i8) align 4 %p, i8 7)",
        Read(2, [0, 7], 9, 0),
    ),
    (
        "call void @f() \"a\"=\"b\" ret void",
        Read(0, [0, 0], 10, 2),
    ),
    ("call void @f() readnone noalias", Read(0, [0, 0], 10, 1)),
    (
        "call <2 x i8> @f(<2 x i8> <i8 1, i8 2>)",
        Read(1, [0, 0], 14, 0),
    ),
    ("call void @f() )", Read(0, [0, 0], 10, 1)),
    ("musttail call void @f()", Outcome::NoCall),
    ("add i32 1, 2", Outcome::NoCall),
    ("%call void @f()", Outcome::NoCall),
    ("", Outcome::NoCall),
];

const REFUSED: [(&str, Outcome); 20] = [
    ("call", Refused(3, 0)),
    ("tail", Refused(3, 0)),
    ("tail notail call void @f()", Refused(3, 6)),
    ("tail void @f()", Refused(3, 4)),
    ("call call void @f()", Refused(3, 5)),
    ("call spir_func spir_func void @f()", Refused(3, 5)),
    ("call align x void @f()", Refused(3, 5)),
    ("call void f()", Refused(3, 3)),
    ("call void (i32) @f()", Refused(3, 6)),
    ("call void @99999999999()", Refused(4, 3)),
    ("call void @f", Refused(3, 0)),
    ("call void @f(", Refused(3, 0)),
    ("call void @f(i32)", Refused(3, 1)),
    ("call void @f(i32 1", Refused(3, 0)),
    ("call void @f(i32 1,)", Refused(3, 1)),
    ("call void @f(, i32 1)", Refused(3, 4)),
    ("call void @f(i8 256)", Refused(4, 2)),
    ("call void @f(i32 1 i32 2)", Refused(3, 3)),
    ("call void @f(i32 align 4)", Refused(3, 1)),
    ("call void @f() #2147483648", Refused(4, 1)),
];

#[test]
fn reads_calls(rt: HostRuntime) -> Result<(), Fail> {
    for (text, want) in READ {
        let found = tokens(rt.alloc(), text)?;
        assert_eq!(rt; outcome_of(rt.alloc(), found.as_slice()), want, "in {text}");
    }
    Ok(())
}

#[test]
fn refuses_calls(rt: HostRuntime) -> Result<(), Fail> {
    for (text, want) in REFUSED {
        let found = tokens(rt.alloc(), text)?;
        assert_eq!(rt; outcome_of(rt.alloc(), found.as_slice()), want, "in {text}");
    }
    Ok(())
}
