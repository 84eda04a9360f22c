use super::unbroken;
use std::test::Fail;

/// Texts up to where no token begins, and from there on.
static STUCK: [(&str, &str); 36] = [
    ("", "&"),
    ("", "%"),
    ("", "%="),
    ("", "@ x"),
    ("", "#"),
    ("", "'"),
    ("", "-"),
    ("", ".x"),
    ("", "$ = type i8"),
    ("", "\x0b"),
    ("", "\x00"),
    ("", "\u{e9}"),
    ("", "\"abc"),
    ("", "\"abc: ; \n"),
    // what stands before it may go on there
    ("%T = type ", "%\"abc"),
    ("%T = type i8", ".5"),
    ("%T = type i8 ", "-x"),
    ("%T = type i8 ; a comment with \" and &\n", "&"),
    ("%T = type [2", "."),
    ("%T = type i8", "\u{a0}"),
    ("source_filename = ", "\"abc"),
    ("target triple = ", "\"a\\22"),
    ("@x = global i8* ", "@\"abc"),
    ("!0 = !", "\"abc"),
    ("!0 = !{", "%"),
    ("attributes #0 = { ", "& }"),
    ("attributes #0 = { ", "\"a"),
    ("declare void @f(", "...)"),
    ("declare void @f() ", "#"),
    ("define void @f() ", "\"abc { ret void }"),
    ("define void @f() { ", "%\" = add i8 1, 2"),
    ("define void @f() { ret void ", "/"),
    ("define void @f() { ", "\"a b"),
    ("define void @f() { %x ", "+ 1"),
    // a letter of two bytes and one of four count as the bytes that they have
    ("; \u{e9}\u{e9}\n", "\u{e9}"),
    ("source_filename = \"\u{1d11e}\" ", "%"),
];

#[test]
fn what_begins_no_token_is_refused(rt: HostRuntime) -> Result<(), Fail> {
    let wrong = unbroken(rt.alloc(), 2, &STUCK)?;
    assert!(rt; wrong.is_none(), "{wrong:?}");
    Ok(())
}
