use crate::{read_type, read_typed, too_deep};
use ll_parser::{NameTable, ReadError};
use ll_tokens::{Token, tokens};
use ll_tree::{LlType, TypeBase, TypedValue, Value};
use std::alloc::Global;
use std::test::Fail;

/// What reading comes to: what was read and a number of it, or the rule that is broken and how many tokens are left.
#[derive(Clone, Copy, Debug, PartialEq, Eq)]
enum Outcome {
    Read(&'static str, u64),
    Refused(u16, usize),
    NoMemory,
}

use Outcome::{Read, Refused};

fn shape(ty: &LlType) -> Outcome {
    if !ty.pointers.is_empty() {
        return Read("pointer", ty.pointers.len() as u64);
    }
    match &ty.base {
        TypeBase::Void => Read("void", 0),
        TypeBase::Int(bits) => Read("int", *bits),
        TypeBase::Half => Read("half", 0),
        TypeBase::Float => Read("float", 0),
        TypeBase::Double => Read("double", 0),
        TypeBase::Named(name) => Read("named", u64::from(name.number)),
        TypeBase::Array(count, _) => Read("array", *count),
        TypeBase::Vector(count, _) => Read("vector", *count),
        TypeBase::Struct(members) => Read("struct", members.len() as u64),
        TypeBase::Packed(members) => Read("packed", members.len() as u64),
    }
}

fn value_shape(typed: &TypedValue) -> Outcome {
    match &typed.value {
        Value::Local(name) => Read("local", u64::from(name.number)),
        Value::Global(name) => Read("global", u64::from(name.number)),
        Value::Int(number) => Read("int", if *number < 0 { 0 } else { 1 }),
        Value::Bytes(bytes) => Read("bytes", bytes.len() as u64),
        Value::Bool(truth) => Read("bool", u64::from(*truth)),
        Value::Null => Read("null", 0),
        Value::Zero => Read("zero", 0),
        Value::Undef => Read("undef", 0),
        Value::Poison => Read("poison", 0),
        Value::Vector(parts) => Read("vector", parts.as_slice().len() as u64),
        Value::Array(parts) => Read("array", parts.as_slice().len() as u64),
        Value::Struct(parts) => Read("struct", parts.as_slice().len() as u64),
        Value::Packed(parts) => Read("packed", parts.as_slice().len() as u64),
        Value::GetElementPtr { operands, .. } => Read("path", operands.as_slice().len() as u64),
        Value::Cast { .. } => Read("cast", 0),
    }
}

fn refused(error: ReadError) -> Outcome {
    match error {
        ReadError::Refused(refusal) => Refused(refusal.rule, refusal.left),
        ReadError::NoMemory => Outcome::NoMemory,
    }
}

fn type_outcome(alloc: Global, tokens: &[Token<'_>]) -> Outcome {
    let mut names = NameTable::new(alloc);
    match read_type(alloc, tokens, &mut names) {
        Ok((ty, _rest)) => shape(&ty),
        Err(error) => refused(error),
    }
}

fn value_outcome(alloc: Global, tokens: &[Token<'_>]) -> Outcome {
    let mut names = NameTable::new(alloc);
    match read_typed(alloc, tokens, &mut names) {
        Ok((typed, _rest)) => value_shape(&typed),
        Err(error) => refused(error),
    }
}

const TYPES: [(&str, Outcome); 19] = [
    ("void", Read("void", 0)),
    ("i32", Read("int", 32)),
    ("half", Read("half", 0)),
    ("float", Read("float", 0)),
    ("double", Read("double", 0)),
    ("%t", Read("named", 0)),
    ("[3 x [2 x i8]]", Read("array", 3)),
    ("<4 x float>", Read("vector", 4)),
    ("{}", Read("struct", 0)),
    ("{ i32, { i8 }*, %t }", Read("struct", 3)),
    ("<{ i32, i8 }>", Read("packed", 2)),
    ("i8 addrspace(1)**", Read("pointer", 2)),
    ("", Refused(3, 0)),
    ("%99999999999", Refused(4, 1)),
    ("[-1 x i8]", Refused(4, 4)),
    ("[2 y i8]", Refused(3, 3)),
    ("<2 x i8]", Refused(3, 1)),
    ("{ i32, }", Refused(3, 1)),
    ("<{ i32 } i8", Refused(3, 1)),
];

const VALUES: [(&str, Outcome); 25] = [
    ("i32 %x", Read("local", 0)),
    ("i8* @g", Read("global", 0)),
    ("i8 255", Read("int", 1)),
    ("i8 -128", Read("int", 0)),
    ("i8 256", Refused(4, 1)),
    ("i8 -129", Refused(4, 1)),
    ("i99 18446744073709551615", Read("int", 1)),
    ("i99 18446744073709551616", Refused(4, 1)),
    ("[2 x i8] c\"a\\0a\"", Read("bytes", 2)),
    ("i1 true", Read("bool", 1)),
    ("i8* null", Read("null", 0)),
    ("i8 zeroinitializer", Read("zero", 0)),
    ("i8 undef", Read("undef", 0)),
    ("i8 poison", Read("poison", 0)),
    ("i8 nil", Refused(3, 1)),
    ("[2 x i8] [i8 1, i8 2]", Read("array", 2)),
    ("{ i8 } { i8 1 }", Read("struct", 1)),
    ("<2 x i1> <i1 true, i1 false>", Read("vector", 2)),
    ("<{ i8, i8 }> <{ i8 1, i8 2 }>", Read("packed", 2)),
    ("<{}> <{}>", Read("packed", 0)),
    (
        "<2 x { i8 }> <{ i8 } { i8 1 }, { i8 } undef>",
        Read("vector", 2),
    ),
    ("<1 x {}> <{} undef>", Read("vector", 1)),
    (
        "i8* getelementptr inbounds (i8, i8* @g, i64 1)",
        Read("path", 2),
    ),
    ("i8* getelementptr (i8, i8* @g)", Refused(3, 1)),
    ("i64 ptrtoint (i8* @g to i64)", Read("cast", 0)),
];

#[test]
fn reads_types(rt: HostRuntime) -> Result<(), Fail> {
    for (text, want) in TYPES {
        let found = tokens(rt.alloc(), text)?;
        assert_eq!(rt;
            type_outcome(rt.alloc(), found.as_slice()),
            want,
            "in {text}"
        );
    }
    Ok(())
}

#[test]
fn reads_values(rt: HostRuntime) -> Result<(), Fail> {
    for (text, want) in VALUES {
        let found = tokens(rt.alloc(), text)?;
        assert_eq!(rt;
            value_outcome(rt.alloc(), found.as_slice()),
            want,
            "in {text}"
        );
    }
    Ok(())
}

/// So many brackets, one behind another.
fn brackets(alloc: Global, bracket: &str, count: usize) -> Result<String, Fail> {
    let mut text = String::new(alloc);
    for _i in 0..count {
        text.push_str(bracket)?;
    }
    Ok(text)
}

#[test]
fn brackets_nest_a_hundred_deep(rt: HostRuntime) -> Result<(), Fail> {
    for (bracket, count, want) in [
        ("(", 100, None),
        ("[", 101, Some(1)),
        ("<{", 100, None),
        ("<{", 101, Some(1)),
        ("< ", 103, Some(3)),
        ("{}", 200, None),
    ] {
        let text = brackets(rt.alloc(), bracket, count)?;
        let found = tokens(rt.alloc(), text.as_str())?;
        let refusal = too_deep(rt.alloc(), found.as_slice())?;
        assert_eq!(rt; refusal.map(|r| r.left), want, "at {count} of {bracket}");
    }
    Ok(())
}
