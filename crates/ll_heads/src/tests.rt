use crate::{read_declaration, read_definition_start};
use ll_parser::{NameTable, ReadError};
use ll_tokens::{Token, tokens};
use ll_tree::{Linkage, Name, NodeRef, Param, Spelling};
use std::alloc::Global;
use std::test::Fail;

/// What reading comes to: how many parameters were read and how many tokens are left, or the rule that is broken and how many
/// tokens are left.
#[derive(Clone, Copy, Debug, PartialEq, Eq)]
enum Outcome {
    Read(usize, usize),
    Refused(u16, usize),
    NoMemory,
}

use Outcome::{Read, Refused};

fn refused(error: ReadError) -> Outcome {
    match error {
        ReadError::Refused(refusal) => Refused(refusal.rule, refusal.left),
        ReadError::NoMemory => Outcome::NoMemory,
    }
}

fn declaration_outcome(alloc: Global, tokens: &[Token<'_>]) -> Outcome {
    let mut names = NameTable::new(alloc);
    match read_declaration(alloc, tokens, &mut names) {
        Ok((head, rest)) => Read(head.params.len(), rest.len()),
        Err(error) => refused(error),
    }
}

static DECLARATIONS: [(&str, Outcome); 18] = [
    ("declare void @f()", Read(0, 0)),
    ("declare i8 @f(i32) declare", Read(1, 1)),
    (
        "declare internal dso_local spir_kernel zeroext i32 @f(i32, float* nocapture %p, i8 noundef) unnamed_addr nounwind #0 define",
        Read(3, 1),
    ),
    (
        "declare zeroext void @f(i8 %x) local_unnamed_addr x",
        Read(1, 1),
    ),
    ("", Refused(3, 0)),
    ("define void @f()", Refused(3, 5)),
    ("declare", Refused(3, 0)),
    ("declare align x void @f()", Refused(3, 5)),
    ("declare void f()", Refused(3, 3)),
    ("declare void @99999999999()", Refused(4, 3)),
    ("declare void @f", Refused(3, 0)),
    ("declare void @f(i32", Refused(3, 0)),
    ("declare void @f(i32,)", Refused(3, 1)),
    ("declare void @f(, i32)", Refused(3, 3)),
    ("declare void @f(i32 align x)", Refused(3, 2)),
    ("declare void @f(i32 %99999999999)", Refused(4, 2)),
    ("declare void @f(i32 %a i32)", Refused(3, 2)),
    ("declare void @f() #2147483648 x", Refused(4, 2)),
];

#[test]
fn reads_declarations(rt: HostRuntime) -> Result<(), Fail> {
    for (text, want) in DECLARATIONS.iter() {
        let found = tokens(rt.alloc(), text)?;
        assert_eq!(rt;
            declaration_outcome(rt.alloc(), found.as_slice()),
            *want,
            "in {text}"
        );
    }
    Ok(())
}

/// The linkage of a declaration, whether it is a kernel, how many attributes its result has, and its place.
fn head_of(alloc: Global, tokens: &[Token<'_>]) -> Option<(Linkage, bool, usize, u64)> {
    let mut names = NameTable::new(alloc);
    match read_declaration(alloc, tokens, &mut names) {
        Ok((head, _rest)) => Some((
            head.linkage,
            head.is_kernel,
            head.attributes.len(),
            head.byte,
        )),
        Err(_refused) => None,
    }
}

static HEADS: [(&str, (Linkage, bool, usize, u64)); 6] = [
    ("declare void @f()", (Linkage::External, false, 0, 0)),
    (
        "  declare internal i32 @f(i32 zeroext)",
        (Linkage::Internal, false, 0, 2),
    ),
    (
        "declare private dso_local noundef zeroext i8 @f()",
        (Linkage::Private, false, 2, 0),
    ),
    (
        "declare spir_kernel void @k()",
        (Linkage::External, true, 0, 0),
    ),
    (
        "declare dso_local spir_func void @f()",
        (Linkage::External, false, 0, 0),
    ),
    (
        "declare spir_func align 4 i8* @f()",
        (Linkage::External, false, 1, 0),
    ),
];

#[test]
fn reads_heads(rt: HostRuntime) -> Result<(), Fail> {
    for (text, want) in HEADS.iter() {
        let found = tokens(rt.alloc(), text)?;
        assert_eq!(rt;
            head_of(rt.alloc(), found.as_slice()),
            Some(*want),
            "in {text}"
        );
    }
    Ok(())
}

/// The number that spells a name, if one does, and the name's place.
fn spelled(names: &NameTable, name: Name) -> (Option<u32>, u64) {
    match names.name(name.number) {
        Some(text) => match text.spelling {
            Spelling::Number(number) => (Some(number), name.byte),
            Spelling::Text(_) => (None, name.byte),
        },
        None => (None, name.byte),
    }
}

/// The name of a parameter and how many attributes it has.
fn param_at(
    names: &NameTable,
    params: &[Param],
    index: usize,
) -> Option<(Option<u32>, u64, usize)> {
    let param = params.get(index)?;
    let (number, byte) = spelled(names, param.name?);
    Some((number, byte, param.attributes.len()))
}

/// A parameter of a definition, and the next number behind all of them.
fn defined_at(
    alloc: Global,
    tokens: &[Token<'_>],
    index: usize,
) -> Option<(Option<u32>, u64, usize, u32)> {
    let mut names = NameTable::new(alloc);
    match read_definition_start(alloc, tokens, &mut names) {
        Ok((start, _rest)) => {
            let (number, byte, attributes) = param_at(&names, start.head.params.as_slice(), index)?;
            Some((number, byte, attributes, start.next))
        }
        Err(_refused) => None,
    }
}

static PARAMS: [(&str, usize, (Option<u32>, u64, usize, u32)); 6] = [
    ("define void @f(i32, i32 %x, i32) {", 0, (Some(0), 15, 0, 2)),
    ("define void @f(i32, i32 %x, i32) {", 1, (None, 24, 0, 2)),
    ("define void @f(i32, i32 %x, i32) {", 2, (Some(1), 28, 0, 2)),
    (
        "define void @f(i32 %5, i32 zeroext) {",
        0,
        (Some(5), 19, 0, 2),
    ),
    (
        "define void @f(i32 %5, i32 zeroext) {",
        1,
        (Some(1), 23, 1, 2),
    ),
    (
        "define void @f(i32 noundef zeroext %\"0\") {",
        0,
        (None, 35, 2, 0),
    ),
];

#[test]
fn numbers_parameters(rt: HostRuntime) -> Result<(), Fail> {
    for (text, index, want) in PARAMS.iter() {
        let found = tokens(rt.alloc(), text)?;
        assert_eq!(rt;
            defined_at(rt.alloc(), found.as_slice(), *index),
            Some(*want),
            "in {text}"
        );
    }
    Ok(())
}

/// The numbers of the three nodes that are kept, 0 for one that isn't there.
fn kept(alloc: Global, tokens: &[Token<'_>]) -> Option<(u32, u32, u32)> {
    let mut names = NameTable::new(alloc);
    match read_definition_start(alloc, tokens, &mut names) {
        Ok((start, _rest)) => Some((
            number_of(start.kernel_arg_type),
            number_of(start.reqd_work_group_size),
            number_of(start.work_group_size_hint),
        )),
        Err(_refused) => None,
    }
}

fn number_of(node: Option<NodeRef>) -> u32 {
    match node {
        Some(node) => node.number,
        None => 0,
    }
}

#[test]
fn keeps_first_attachments(rt: HostRuntime) -> Result<(), Fail> {
    for (text, want) in [
        ("define void @f() {", (0, 0, 0)),
        (
            "define void @f() nounwind !kernel_arg_type !3 !x !4 !kernel_arg_type !5 !reqd_work_group_size !6 {",
            (3, 6, 0),
        ),
        ("define void @f() !work_group_size_hint !7 {", (0, 0, 7)),
    ] {
        let found = tokens(rt.alloc(), text)?;
        assert_eq!(rt; kept(rt.alloc(), found.as_slice()), Some(want), "in {text}");
    }
    Ok(())
}

fn definition_outcome(alloc: Global, tokens: &[Token<'_>]) -> Outcome {
    let mut names = NameTable::new(alloc);
    match read_definition_start(alloc, tokens, &mut names) {
        Ok((start, rest)) => Read(start.head.params.len(), rest.len()),
        Err(error) => refused(error),
    }
}

static DEFINITIONS: [(&str, Outcome); 7] = [
    (
        "define spir_kernel void @k(i8* byval(i8), i8) #0 !x !1 { ret void }",
        Read(2, 3),
    ),
    ("declare void @f() {", Refused(3, 6)),
    ("define void @f()", Refused(3, 0)),
    ("define void @f(i32 i8) {", Refused(3, 3)),
    ("define void @f() #2147483648 {", Refused(4, 2)),
    ("define void @f() !x {", Refused(3, 1)),
    ("define void @f() !x !99999999999 {", Refused(4, 2)),
];

#[test]
fn reads_definitions(rt: HostRuntime) -> Result<(), Fail> {
    for (text, want) in DEFINITIONS.iter() {
        let found = tokens(rt.alloc(), text)?;
        assert_eq!(rt;
            definition_outcome(rt.alloc(), found.as_slice()),
            *want,
            "in {text}"
        );
    }
    Ok(())
}
