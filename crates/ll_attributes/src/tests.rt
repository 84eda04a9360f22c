use crate::{
    is_kernel, read_attachments, read_attributes, read_linkage, read_text, skip_attachments,
    skip_convention, skip_function_attributes, skip_unnamed,
};
use ll_parser::{NameTable, ReadError, Refusal};
use ll_tokens::{Token, tokens};
use ll_tree::{AttributeKind, Linkage};
use std::alloc::Global;
use std::test::Fail;

/// What reading comes to: how many values were read and how many tokens are left, or the rule that is broken and how many
/// tokens are left.
#[derive(Clone, Copy, Debug, PartialEq, Eq)]
enum Outcome {
    Read(usize, usize),
    Refused(u16, usize),
    NoMemory,
}

use Outcome::{Read, Refused};

fn refused(error: ReadError) -> Outcome {
    match error {
        ReadError::Refused(refusal) => Refused(refusal.rule, refusal.left),
        ReadError::NoMemory => Outcome::NoMemory,
    }
}

/// What skipping comes to.
fn skipped(answer: Result<&[Token<'_>], Refusal>) -> Outcome {
    match answer {
        Ok(rest) => Read(0, rest.len()),
        Err(refusal) => Refused(refusal.rule, refusal.left),
    }
}

/// The word of an attribute, and its number, or 1 where it has a type and 0 where it has neither.
fn shape(kind: &AttributeKind) -> (&'static str, u64) {
    match kind {
        AttributeKind::ZeroExt => ("zeroext", 0),
        AttributeKind::SignExt => ("signext", 0),
        AttributeKind::NoAlias => ("noalias", 0),
        AttributeKind::NoCapture => ("nocapture", 0),
        AttributeKind::ReadOnly => ("readonly", 0),
        AttributeKind::ReadNone => ("readnone", 0),
        AttributeKind::WriteOnly => ("writeonly", 0),
        AttributeKind::NoUndef => ("noundef", 0),
        AttributeKind::NonNull => ("nonnull", 0),
        AttributeKind::InReg => ("inreg", 0),
        AttributeKind::Returned => ("returned", 0),
        AttributeKind::NoFree => ("nofree", 0),
        AttributeKind::ImmArg => ("immarg", 0),
        AttributeKind::ByVal(ty) => ("byval", u64::from(ty.is_some())),
        AttributeKind::SRet(ty) => ("sret", u64::from(ty.is_some())),
        AttributeKind::Align(bytes) => ("align", *bytes),
        AttributeKind::Dereferenceable(bytes) => ("dereferenceable", *bytes),
        AttributeKind::DereferenceableOrNull(bytes) => ("dereferenceable_or_null", *bytes),
    }
}

/// The last attribute that is read.
fn last_attribute(alloc: Global, tokens: &[Token<'_>]) -> Option<(&'static str, u64, u64)> {
    let mut names = NameTable::new(alloc);
    match read_attributes(alloc, tokens, &mut names) {
        Ok((attributes, _rest)) => {
            let last = attributes.as_slice().last()?;
            let (word, number) = shape(&last.kind);
            Some((word, number, last.byte))
        }
        Err(_refused) => None,
    }
}

fn attributes_outcome(alloc: Global, tokens: &[Token<'_>]) -> Outcome {
    let mut names = NameTable::new(alloc);
    match read_attributes(alloc, tokens, &mut names) {
        Ok((attributes, rest)) => Read(attributes.len(), rest.len()),
        Err(error) => refused(error),
    }
}

static ATTRIBUTES: [(&str, (&str, u64, u64)); 20] = [
    ("zeroext", ("zeroext", 0, 0)),
    ("noalias signext", ("signext", 0, 8)),
    ("noalias i8", ("noalias", 0, 0)),
    ("nocapture", ("nocapture", 0, 0)),
    ("readonly", ("readonly", 0, 0)),
    ("readnone", ("readnone", 0, 0)),
    ("writeonly", ("writeonly", 0, 0)),
    ("noundef", ("noundef", 0, 0)),
    ("nonnull", ("nonnull", 0, 0)),
    ("inreg", ("inreg", 0, 0)),
    ("returned", ("returned", 0, 0)),
    ("nofree", ("nofree", 0, 0)),
    ("immarg", ("immarg", 0, 0)),
    ("byval", ("byval", 0, 0)),
    ("byval({ i8, %t })", ("byval", 1, 0)),
    ("sret %x", ("sret", 0, 0)),
    ("sret(i32*) %x", ("sret", 1, 0)),
    ("align 16", ("align", 16, 0)),
    ("dereferenceable(8)", ("dereferenceable", 8, 0)),
    (
        "nonnull dereferenceable_or_null(9)",
        ("dereferenceable_or_null", 9, 8),
    ),
];

static LISTS: [(&str, Outcome); 18] = [
    ("", Read(0, 0)),
    ("i32 align 4", Read(0, 3)),
    (", align 4", Read(0, 3)),
    ("noalias nocapture readonly %p", Read(3, 1)),
    ("byval (i8) align 4 %p", Read(2, 1)),
    ("byval align 4", Read(2, 0)),
    ("nounwind", Read(0, 1)),
    ("align", Refused(3, 0)),
    ("align %x", Refused(3, 1)),
    ("align -1", Refused(4, 1)),
    ("noundef align 9223372036854775808 %x", Refused(4, 2)),
    ("byval(align) %x", Refused(3, 3)),
    ("sret(%99999999999)", Refused(4, 2)),
    ("byval(i32 %x", Refused(3, 1)),
    ("dereferenceable 8", Refused(3, 1)),
    ("dereferenceable(i8)", Refused(3, 2)),
    ("dereferenceable_or_null(8 %x", Refused(3, 1)),
    ("dereferenceable(99999999999999999999)", Refused(4, 2)),
];

static FUNCTION_LISTS: [(&str, Outcome); 13] = [
    ("", Read(0, 0)),
    ("{", Read(0, 1)),
    (
        "nounwind convergent norecurse noinline alwaysinline optnone readnone readonly argmemonly willreturn",
        Read(0, 0),
    ),
    (
        "mustprogress nofree nosync uwtable speculatable {",
        Read(0, 1),
    ),
    ("#0 #2147483647 {", Read(0, 1)),
    ("\"a\" \"b\"=\"c\" nounwind {", Read(0, 1)),
    ("\"a\", align", Read(0, 2)),
    ("noalias", Read(0, 1)),
    ("nounwind #2147483648 {", Refused(4, 2)),
    ("\"a\"= nounwind", Refused(3, 1)),
    ("\"a\"=", Refused(3, 0)),
    ("\"a\"=c\"b\"", Refused(3, 1)),
    ("=\"a\"", Read(0, 2)),
];

static ATTACHMENTS: [(&str, Outcome); 9] = [
    ("", Read(0, 0)),
    ("{ !a !1", Read(0, 3)),
    ("!a !1 !b.c !2147483647 {", Read(2, 1)),
    ("!a !1, !b !2", Read(1, 3)),
    ("!a !1 !b", Refused(3, 0)),
    ("!a !b !1", Refused(3, 2)),
    ("!a !\"b\"", Refused(3, 1)),
    ("!a !2147483648 {", Refused(4, 2)),
    ("!a ! 1", Refused(3, 2)),
];

static BEHIND_COMMAS: [(&str, Outcome); 8] = [
    ("", Read(0, 0)),
    ("!a !1", Read(0, 2)),
    (", !a !1, !b !2 ret", Read(0, 1)),
    (", align 4", Refused(3, 2)),
    (", !a !1,", Refused(3, 0)),
    (", !a !1, !2", Refused(3, 1)),
    (", !a i8", Refused(3, 1)),
    (", !a !99999999999 x", Refused(4, 2)),
];

#[test]
fn reads_each_attribute(rt: HostRuntime) -> Result<(), Fail> {
    for (text, want) in ATTRIBUTES.iter() {
        let found = tokens(rt.alloc(), text)?;
        assert_eq!(rt;
            last_attribute(rt.alloc(), found.as_slice()),
            Some(*want),
            "in {text}"
        );
    }
    Ok(())
}

#[test]
fn reads_attributes(rt: HostRuntime) -> Result<(), Fail> {
    for (text, want) in LISTS.iter() {
        let found = tokens(rt.alloc(), text)?;
        assert_eq!(rt;
            attributes_outcome(rt.alloc(), found.as_slice()),
            *want,
            "in {text}"
        );
    }
    Ok(())
}

#[test]
fn skips_attributes_of_functions(rt: HostRuntime) -> Result<(), Fail> {
    for (text, want) in FUNCTION_LISTS.iter() {
        let found = tokens(rt.alloc(), text)?;
        assert_eq!(rt;
            skipped(skip_function_attributes(found.as_slice())),
            *want,
            "in {text}"
        );
    }
    Ok(())
}

fn attachments_outcome(alloc: Global, tokens: &[Token<'_>]) -> Outcome {
    match read_attachments(alloc, tokens) {
        Ok((attachments, rest)) => Read(attachments.len(), rest.len()),
        Err(error) => refused(error),
    }
}

#[test]
fn reads_attachments(rt: HostRuntime) -> Result<(), Fail> {
    for (text, want) in ATTACHMENTS.iter() {
        let found = tokens(rt.alloc(), text)?;
        assert_eq!(rt;
            attachments_outcome(rt.alloc(), found.as_slice()),
            *want,
            "in {text}"
        );
    }
    for (text, want) in BEHIND_COMMAS.iter() {
        let found = tokens(rt.alloc(), text)?;
        assert_eq!(rt;
            skipped(skip_attachments(found.as_slice())),
            *want,
            "in {text}"
        );
    }
    Ok(())
}

/// The linkage, whether it is a kernel, and how many tokens are left.
fn head_of(tokens: &[Token<'_>]) -> (Linkage, bool, usize) {
    let (linkage, behind) = read_linkage(tokens);
    let (kernel, rest) = is_kernel(behind);
    (linkage, kernel, rest.len())
}

static HEADS: [(&str, (Linkage, bool, usize)); 6] = [
    ("spir_kernel void", (Linkage::External, true, 1)),
    ("internal spir_func void", (Linkage::Internal, false, 1)),
    ("private void", (Linkage::Private, false, 1)),
    ("spir_func spir_kernel", (Linkage::External, false, 1)),
    ("internal private", (Linkage::Internal, false, 1)),
    ("", (Linkage::External, false, 0)),
];

/// How many tokens are left behind a word that need not be there.
fn left_behind(tokens: &[Token<'_>]) -> (usize, usize) {
    (skip_unnamed(tokens).len(), skip_convention(tokens).len())
}

#[test]
fn reads_heads(rt: HostRuntime) -> Result<(), Fail> {
    for (text, want) in HEADS.iter() {
        let found = tokens(rt.alloc(), text)?;
        assert_eq!(rt; head_of(found.as_slice()), *want, "in {text}");
    }
    for (text, want) in [
        ("unnamed_addr x", (1, 2)),
        ("local_unnamed_addr x", (1, 2)),
        ("spir_kernel x", (2, 1)),
        ("spir_func x", (2, 1)),
        ("x", (1, 1)),
    ] {
        let found = tokens(rt.alloc(), text)?;
        assert_eq!(rt; left_behind(found.as_slice()), want, "in {text}");
    }
    Ok(())
}

fn text_outcome(alloc: Global, tokens: &[Token<'_>]) -> Outcome {
    match read_text(alloc, tokens) {
        Ok((bytes, rest)) => Read(bytes.len(), rest.len()),
        Err(error) => refused(error),
    }
}

#[test]
fn reads_texts(rt: HostRuntime) -> Result<(), Fail> {
    for (text, want) in [
        ("\"a\\41\" x", Read(2, 1)),
        ("\"\"", Read(0, 0)),
        ("c\"a\"", Refused(3, 1)),
        ("", Refused(3, 0)),
    ] {
        let found = tokens(rt.alloc(), text)?;
        assert_eq!(rt;
            text_outcome(rt.alloc(), found.as_slice()),
            want,
            "in {text}"
        );
    }
    Ok(())
}
