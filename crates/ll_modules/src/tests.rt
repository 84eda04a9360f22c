use crate::parse_tokens;
use ll_parser::ReadError;
use ll_tokens::{Token, tokens};
use ll_tree::LlModule;
use std::alloc::Global;
use std::test::Fail;

/// What reading comes to: how many targets, struct types, variables, declarations, definitions, blocks and parameters of the last
/// one, nodes of versions and nodes there are; or the rule that is broken and how many tokens are left.
#[derive(Clone, Copy, Debug, PartialEq, Eq)]
enum Outcome {
    Read([usize; 9]),
    Refused(u16, usize),
    NoMemory,
}

use Outcome::{Read, Refused};

/// How many blocks and parameters the last body has.
fn last_body(module: &LlModule) -> (usize, usize) {
    match module.bodies.as_slice().last() {
        Some(body) => (body.blocks.len(), body.params.len()),
        None => (0, 0),
    }
}

fn counts(module: &LlModule) -> [usize; 9] {
    let (blocks, params) = last_body(module);
    [
        module.targets.len(),
        module.structs.len(),
        module.variables.len(),
        module.declares.len(),
        module.functions.len(),
        blocks,
        params,
        module.ocl_version.len(),
        module.nodes.len(),
    ]
}

fn outcome_of(alloc: Global, tokens: &[Token<'_>]) -> Outcome {
    match parse_tokens(alloc, tokens) {
        Ok(module) => Read(counts(&module)),
        Err(ReadError::Refused(refusal)) => Refused(refusal.rule, refusal.left),
        Err(ReadError::NoMemory) => Outcome::NoMemory,
    }
}

const READ: [(&str, Outcome); 5] = [
    ("", Read([0, 0, 0, 0, 0, 0, 0, 0, 0])),
    (
        "source_filename = \"a\" target triple = \"spir64\" attributes #0 = { nounwind }",
        Read([1, 0, 0, 0, 0, 0, 0, 0, 0]),
    ),
    (
        "%s = type { i32, i8* } @v = global i8 1, align 4 @w = global i8 2 declare void @f(i32) #0",
        Read([0, 1, 2, 1, 0, 0, 0, 0, 0]),
    ),
    (
        "define void @f(i32 %a, i8) { b: br label %c c: ret void } define i32 @g(i8 %x) { ret i32 1 }",
        Read([0, 0, 0, 0, 2, 1, 1, 0, 0]),
    ),
    (
        "!opencl.ocl.version = !{!0, !1} !0 = !{i32 1} !1 = !{} !other = !{!0}",
        Read([0, 0, 0, 0, 0, 0, 0, 2, 2]),
    ),
];

const REFUSED: [(&str, Outcome); 8] = [
    ("foo", Refused(3, 1)),
    ("target triple = \"a\" ,", Refused(3, 1)),
    ("declare void @f() declare", Refused(3, 0)),
    ("define void @f() ret void }", Refused(3, 3)),
    ("define void @f() { }", Refused(3, 1)),
    ("define void @f() { ret void", Refused(3, 0)),
    ("define void @f() { ret i8 256 }", Refused(4, 2)),
    ("define void @99999999999() { ret void }", Refused(4, 7)),
];

#[test]
fn reads_modules(rt: HostRuntime) -> Result<(), Fail> {
    for (text, want) in READ {
        let found = tokens(rt.alloc(), text)?;
        assert_eq!(rt; outcome_of(rt.alloc(), found.as_slice()), want, "in {text}");
    }
    Ok(())
}

#[test]
fn refuses_modules(rt: HostRuntime) -> Result<(), Fail> {
    for (text, want) in REFUSED {
        let found = tokens(rt.alloc(), text)?;
        assert_eq!(rt; outcome_of(rt.alloc(), found.as_slice()), want, "in {text}");
    }
    Ok(())
}
