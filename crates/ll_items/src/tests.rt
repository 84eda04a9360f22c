use crate::{
    SmallItem, read_named_nodes, read_node, read_small_item, read_struct_type, read_target,
    read_variable, skip_attribute_group, skip_source_filename,
};
use ll_parser::{NameTable, ReadError, Refusal};
use ll_tokens::{Token, tokens};
use std::alloc::Global;
use std::test::Fail;

/// What reading comes to: how many tokens are left, or the rule that is broken and how many are left then.
#[derive(Clone, Copy, Debug, PartialEq, Eq)]
enum Outcome {
    Left(usize),
    Refused(u16, usize),
    NoMemory,
}

use Outcome::{Left, Refused};

fn refused(error: ReadError) -> Outcome {
    match error {
        ReadError::Refused(refusal) => Refused(refusal.rule, refusal.left),
        ReadError::NoMemory => Outcome::NoMemory,
    }
}

fn skipped(answer: Result<&[Token<'_>], Refusal>) -> Outcome {
    match answer {
        Ok(rest) => Left(rest.len()),
        Err(refusal) => Refused(refusal.rule, refusal.left),
    }
}

fn target_outcome(alloc: Global, tokens: &[Token<'_>]) -> Outcome {
    match read_target(alloc, tokens) {
        Ok((_target, rest)) => Left(rest.len()),
        Err(error) => refused(error),
    }
}

fn struct_outcome(alloc: Global, tokens: &[Token<'_>]) -> Outcome {
    let mut names = NameTable::new(alloc);
    match read_struct_type(alloc, tokens, &mut names) {
        Ok((_definition, rest)) => Left(rest.len()),
        Err(error) => refused(error),
    }
}

fn variable_outcome(alloc: Global, tokens: &[Token<'_>]) -> Outcome {
    let mut names = NameTable::new(alloc);
    match read_variable(alloc, tokens, &mut names) {
        Ok((_variable, rest)) => Left(rest.len()),
        Err(error) => refused(error),
    }
}

fn node_outcome(alloc: Global, tokens: &[Token<'_>]) -> Outcome {
    let mut names = NameTable::new(alloc);
    match read_node(alloc, tokens, &mut names) {
        Ok((_node, rest)) => Left(rest.len()),
        Err(error) => refused(error),
    }
}

fn named_outcome(alloc: Global, tokens: &[Token<'_>]) -> Outcome {
    match read_named_nodes(alloc, tokens) {
        Ok((_named, rest)) => Left(rest.len()),
        Err(error) => refused(error),
    }
}

static TARGETS: [(&str, Outcome); 6] = [
    ("target triple = \"spir64\" target", Left(1)),
    ("target datalayout = \"e\"", Left(0)),
    ("triple = \"e\"", Refused(3, 3)),
    ("target layout = \"e\"", Refused(3, 3)),
    ("target triple \"e\"", Refused(3, 1)),
    ("target triple = e", Refused(3, 1)),
];

static STRUCTS: [(&str, Outcome); 6] = [
    ("%T = type { i32, i8* } %U", Left(1)),
    ("%T = type i32* * x", Left(1)),
    ("%2147483648 = type i32", Refused(4, 4)),
    ("%T type i32", Refused(3, 2)),
    ("%T = i32", Refused(3, 1)),
    ("%T = type 1", Refused(3, 1)),
];

static VARIABLES: [(&str, Outcome); 9] = [
    ("@g = global i32 7 @h", Left(1)),
    (
        "@g = internal dso_local unnamed_addr addrspace(2) constant i32 7, align 4, !dbg !3 x",
        Left(1),
    ),
    (
        "@g = private local_unnamed_addr constant i8 1, !a !1, !b !2",
        Left(0),
    ),
    ("@g = external global i32", Refused(3, 3)),
    ("@g = addrspace(x) global i32 1", Refused(3, 5)),
    ("@g = constant i8 256", Refused(4, 1)),
    ("@g = constant i8 1, align x", Refused(3, 1)),
    ("@g = constant i8 1, 2", Refused(3, 1)),
    ("@g = constant i8 1, !a 2", Refused(3, 1)),
];

static NODES: [(&str, Outcome); 7] = [
    ("!0 = distinct !{!1, !\"a\", null, i32 1} x", Left(1)),
    ("!0 = !{}", Left(0)),
    ("!0 = {}", Refused(3, 2)),
    ("!0 = !{i32}", Refused(3, 1)),
    ("!0 = !{!1 !2}", Refused(3, 2)),
    ("!0 = !{!2147483648}", Refused(4, 2)),
    ("!2147483648 = !{}", Refused(4, 5)),
];

static NAMED: [(&str, Outcome); 5] = [
    ("!opencl.ocl.version = !{!0, !1} x", Left(1)),
    ("!llvm.ident = !{}", Left(0)),
    ("!0 = !{}", Refused(3, 5)),
    ("!a = !{!0,}", Refused(3, 1)),
    ("!a = !{null}", Refused(3, 2)),
];

#[test]
fn reads_targets(rt: HostRuntime) -> Result<(), Fail> {
    for (text, want) in TARGETS.iter() {
        let found = tokens(rt.alloc(), text)?;
        assert_eq!(rt;
            target_outcome(rt.alloc(), found.as_slice()),
            *want,
            "in {text}"
        );
    }
    Ok(())
}

#[test]
fn reads_struct_types(rt: HostRuntime) -> Result<(), Fail> {
    for (text, want) in STRUCTS.iter() {
        let found = tokens(rt.alloc(), text)?;
        assert_eq!(rt;
            struct_outcome(rt.alloc(), found.as_slice()),
            *want,
            "in {text}"
        );
    }
    Ok(())
}

#[test]
fn reads_variables(rt: HostRuntime) -> Result<(), Fail> {
    for (text, want) in VARIABLES.iter() {
        let found = tokens(rt.alloc(), text)?;
        assert_eq!(rt;
            variable_outcome(rt.alloc(), found.as_slice()),
            *want,
            "in {text}"
        );
    }
    Ok(())
}

#[test]
fn reads_nodes(rt: HostRuntime) -> Result<(), Fail> {
    for (text, want) in NODES.iter() {
        let found = tokens(rt.alloc(), text)?;
        assert_eq!(rt;
            node_outcome(rt.alloc(), found.as_slice()),
            *want,
            "in {text}"
        );
    }
    Ok(())
}

#[test]
fn reads_named_nodes(rt: HostRuntime) -> Result<(), Fail> {
    for (text, want) in NAMED.iter() {
        let found = tokens(rt.alloc(), text)?;
        assert_eq!(rt;
            named_outcome(rt.alloc(), found.as_slice()),
            *want,
            "in {text}"
        );
    }
    Ok(())
}

#[test]
fn skips_what_is_dropped(rt: HostRuntime) -> Result<(), Fail> {
    for (text, want) in [
        ("source_filename = \"a.cl\" @x", Left(1)),
        ("source_filename = 1", Refused(3, 1)),
    ] {
        let found = tokens(rt.alloc(), text)?;
        assert_eq!(rt;
            skipped(skip_source_filename(found.as_slice())),
            want,
            "in {text}"
        );
    }
    for (text, want) in [
        ("attributes #0 = { nounwind \"a\"=\"b\" } !0", Left(1)),
        ("attributes #0 = { { }", Refused(3, 2)),
        ("attributes #0 = { a", Refused(3, 0)),
        ("attributes #2147483648 = { }", Refused(4, 4)),
    ] {
        let found = tokens(rt.alloc(), text)?;
        assert_eq!(rt;
            skipped(skip_attribute_group(found.as_slice())),
            want,
            "in {text}"
        );
    }
    Ok(())
}

/// Which item it is.
fn word_of(item: &SmallItem) -> &'static str {
    match item {
        SmallItem::Target(_target) => "target",
        SmallItem::Struct(_definition) => "struct",
        SmallItem::Variable(_variable) => "variable",
        SmallItem::Node(_node) => "node",
        SmallItem::Versions(_nodes) => "versions",
        SmallItem::Dropped => "dropped",
    }
}

/// Which item is read, or why none is.
fn item_word(alloc: Global, tokens: &[Token<'_>]) -> &'static str {
    let mut names = NameTable::new(alloc);
    match read_small_item(alloc, tokens, &mut names) {
        Ok(Some((item, _rest))) => word_of(&item),
        Ok(None) => "none",
        Err(_error) => "refused",
    }
}

#[test]
fn tells_items_by_their_first_tokens(rt: HostRuntime) -> Result<(), Fail> {
    for (text, want) in [
        ("target triple = \"spir64\"", "target"),
        ("%T = type i32", "struct"),
        ("@g = global i32 7", "variable"),
        ("!0 = !{}", "node"),
        ("!opencl.ocl.version = !{!0}", "versions"),
        ("!llvm.ident = !{!0}", "dropped"),
        ("source_filename = \"a\"", "dropped"),
        ("attributes #0 = { nounwind }", "dropped"),
        ("attributes 0", "refused"),
        ("define void @f()", "none"),
        ("", "none"),
    ] {
        let found = tokens(rt.alloc(), text)?;
        assert_eq!(rt; item_word(rt.alloc(), found.as_slice()), want, "in {text}");
    }
    Ok(())
}
