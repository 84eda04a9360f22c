use crate::{parse, text_fault};
use ports::{LlError, LlFault};
use std::alloc::Global;
use std::test::Fail;

/// The rule that a text breaks and its byte, if it breaks one.
fn told(alloc: Global, text: &str) -> Option<(u16, u64)> {
    match parse(alloc, text) {
        Err(LlError::Fault(LlFault { rule, byte })) => Some((rule, byte)),
        _ => None,
    }
}

/// Texts, and the rule and the byte that are told of each.
static TEXTS: [(&str, Option<(u16, u64)>); 12] = [
    ("", None),
    ("; a comment", None),
    ("define spir_kernel void @k(i32 %x) { ret void }", None),
    ("target triple = \"spir64-unknown-unknown\"", None),
    // a name without its text is no token
    ("%T = type i32 %", Some((2, 14))),
    // what stands before it is looked at first
    ("%T = type ] %", Some((3, 10))),
    // and what doesn't end is not
    ("%T = %", Some((2, 5))),
    ("define", Some((3, 6))),
    ("define spir_kernel void @k() { ret }", Some((3, 35))),
    (
        "define spir_kernel void @k(i8 %x) { %s = add i8 %x, 256 ret void }",
        Some((4, 52)),
    ),
    (
        "define void @f() { %x = store i8 1, i8* %p ret void }",
        Some((3, 24)),
    ),
    ("@x = global i32 4294967296", Some((4, 16))),
];

#[test]
fn texts_are_parsed_or_refused(rt: HostRuntime) -> Result<(), Fail> {
    let alloc = rt.alloc();
    for (text, outcome) in TEXTS.iter() {
        assert_eq!(rt; told(alloc, text), *outcome, "{text}");
    }
    Ok(())
}

#[test]
fn inputs_are_checked(rt: HostRuntime) -> Result<(), Fail> {
    let alloc = rt.alloc();
    assert_eq!(rt; text_fault(alloc, b"%T = type i32")?, None);
    let no_utf8 = text_fault(alloc, &[b';', 0xff])?;
    assert_eq!(rt; no_utf8, Some(LlFault { rule: 1, byte: 1 }));
    Ok(())
}
