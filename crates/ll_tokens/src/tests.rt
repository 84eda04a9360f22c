use crate::TokenKind::{
    Attr, Bang, CStr, Global as GlobalName, Int, Label, Local, MdName, MdStr, Mdn, Punct, Str, Word,
};
use crate::laws::{
    blank_then_text, gap_is_blanks_and_comments, one_fault, one_kind, one_token_list,
    punctuation_before_anything, token_before_break, token_then_text, tokens_or_fault,
};
use crate::{TokenKind, tokenize, tokens, utf8};
use ports::{LlError, LlFault};
use std::alloc::{AllocError, Global};
use std::test::Fail;

/// A text and its tokens: the kind, the text and the first byte of each.
type Case = (&'static str, &'static [(TokenKind, &'static str, u64)]);

/// Each kind beside its nearest neighbours, from the table of tokens.
const CASES: [Case; 24] = [
    ("", &[]),
    (" \t\r\n; a ; b\r\n;", &[]),
    ("a:b", &[(Label, "a:", 0), (Word, "b", 2)]),
    (
        "-a: -5: 5",
        &[(Label, "-a:", 0), (Label, "-5:", 4), (Int, "5", 8)],
    ),
    ("\"a b\":\"\"", &[(Label, "\"a b\":", 0), (Str, "\"\"", 6)]),
    ("a$.b_-1:", &[(Label, "a$.b_-1:", 0)]),
    (
        "%5a %a5",
        &[(Local, "%5", 0), (Word, "a", 2), (Local, "%a5", 4)],
    ),
    (
        "%-1%$%.%_",
        &[
            (Local, "%-1", 0),
            (Local, "%$", 3),
            (Local, "%.", 5),
            (Local, "%_", 7),
        ],
    ),
    (
        "%\"x y\"%\"7\"",
        &[(Local, "%\"x y\"", 0), (Local, "%\"7\"", 6)],
    ),
    (
        "@0 @k.1(@\"\")",
        &[
            (GlobalName, "@0", 0),
            (GlobalName, "@k.1", 3),
            (Punct, "(", 7),
            (GlobalName, "@\"\"", 8),
            (Punct, ")", 11),
        ],
    ),
    (
        "!0!{!-0",
        &[
            (Mdn, "!0", 0),
            (Bang, "!", 2),
            (Punct, "{", 3),
            (MdName, "!-0", 4),
        ],
    ),
    (
        "!a.b !\"uint*\"",
        &[(MdName, "!a.b", 0), (MdStr, "!\"uint*\"", 5)],
    ),
    ("! \"a\"", &[(Bang, "!", 0), (Str, "\"a\"", 2)]),
    ("#3#4a", &[(Attr, "#3", 0), (Attr, "#4", 2), (Word, "a", 4)]),
    (
        "c\"a\\00\" c \"a\" cc\"\"",
        &[
            (CStr, "c\"a\\00\"", 0),
            (Word, "c", 8),
            (Str, "\"a\"", 10),
            (Word, "cc", 14),
            (Str, "\"\"", 16),
        ],
    ),
    ("\"a\\\"b", &[(Str, "\"a\\\"", 0), (Word, "b", 4)]),
    (
        "\"a\nb;\"\"\\\\\"",
        &[(Str, "\"a\nb;\"", 0), (Str, "\"\\\\\"", 6)],
    ),
    ("1-1--1:", &[(Label, "1-1--1:", 0)]),
    ("1-1-1", &[(Int, "1", 0), (Int, "-1", 1), (Int, "-1", 3)]),
    ("1a-2", &[(Int, "1", 0), (Word, "a", 1), (Int, "-2", 2)]),
    (
        "i32* x2_",
        &[(Word, "i32", 0), (Punct, "*", 3), (Word, "x2_", 5)],
    ),
    (
        "(){}[]<>,=*",
        &[
            (Punct, "(", 0),
            (Punct, ")", 1),
            (Punct, "{", 2),
            (Punct, "}", 3),
            (Punct, "[", 4),
            (Punct, "]", 5),
            (Punct, "<", 6),
            (Punct, ">", 7),
            (Punct, ",", 8),
            (Punct, "=", 9),
            (Punct, "*", 10),
        ],
    ),
    ("a;é\r\"\nb", &[(Word, "a", 0), (Word, "b", 7)]),
    (
        "define spir_kernel void @k() { ret void }",
        &[
            (Word, "define", 0),
            (Word, "spir_kernel", 7),
            (Word, "void", 19),
            (GlobalName, "@k", 24),
            (Punct, "(", 26),
            (Punct, ")", 27),
            (Punct, "{", 29),
            (Word, "ret", 31),
            (Word, "void", 35),
            (Punct, "}", 40),
        ],
    ),
];

#[test]
fn lists_each_kind(rt: HostRuntime) -> Result<(), Fail> {
    for (text, want) in CASES {
        let found = tokens(rt.alloc(), text)?;
        assert_eq!(rt; found.len(), want.len(), "in {text}");
        for (at, (kind, piece, byte)) in want.iter().enumerate() {
            let token = found[at];
            assert_eq!(rt; token.kind, *kind, "of {piece} in {text}");
            assert!(rt; token.text == *piece, "{piece} in {text}");
            assert_eq!(rt; token.byte, *byte, "of {piece} in {text}");
        }
    }
    Ok(())
}

#[test]
fn refuses_the_first_byte_that_begins_no_token(rt: HostRuntime) -> Result<(), Fail> {
    let cases = [
        ("define spir_kernel void @", 24),
        ("%", 0),
        ("a & b", 2),
        ("$", 0),
        ("a\n.b", 2),
        ("a-b", 1),
        ("#", 0),
        ("-", 0),
        (":", 0),
        ("1 \"ab", 2),
        ("%\"ab", 0),
        ("c\"ab", 1),
        ("!\"ab", 1),
        ("\"a\\\"\"", 4),
        ("a é", 2),
        ("a\u{0}", 1),
    ];
    for (text, byte) in cases {
        let fault = LlFault { rule: 2, byte };
        assert!(rt;
            tokens(rt.alloc(), text).is_err_and(|e| e == LlError::Fault(fault)),
            "in {text}"
        );
        let front = tokenize(rt.alloc(), text)?;
        assert_eq!(rt; front.fault, Some(fault), "in {text}");
    }
    let front = tokenize(rt.alloc(), "a !\"b")?;
    assert_eq!(rt; front.tokens.len(), 2);
    Ok(())
}

#[test]
fn finds_the_first_bad_sequence(rt: HostRuntime) {
    let cases: [(&[u8], Option<u64>); 6] = [
        (b"", None),
        (b"; \xC3\xA9\n", None),
        (b"; a\xFFb\n", Some(3)),
        (b"\xE2\x82", Some(0)),
        (b"ab\xE2\x82\x28\xFF", Some(2)),
        (b"a\xED\xA0\x80", Some(1)),
    ];
    for (bytes, place) in cases {
        match utf8(bytes) {
            Ok(text) => {
                assert!(rt; place.is_none());
                assert!(rt; text.as_bytes() == bytes);
            }
            Err(fault) => assert_eq!(rt; Some(fault.byte), place),
        }
    }
}

fn repeated(alloc: Global, piece: &str, times: usize) -> Result<String, AllocError> {
    let mut text = String::new(alloc);
    for _ in 0..times {
        text.push_str(piece)?;
    }
    Ok(text)
}

/// One pass over each text: a scan for a label, or for a quote, that began anew at each token would
/// not end.
#[test]
fn takes_time_in_proportion_to_the_text(rt: HostRuntime) -> Result<(), Fail> {
    let cases = [
        ("-1", 500_000, 500_000),
        ("-1a", 300_000, 600_000),
        ("\"\"", 500_000, 500_000),
        ("!c", 500_000, 500_000),
        ("; 16 bytes a time", 1_048_576, 0),
    ];
    for (piece, times, count) in cases {
        let text = repeated(rt.alloc(), piece, times)?;
        let found = tokenize(rt.alloc(), text.as_str())?;
        assert_eq!(rt; found.tokens.len(), count, "of {piece}");
        assert!(rt; found.fault.is_none(), "in {piece}");
    }
    let text = repeated(rt.alloc(), "a-", 500_000)?;
    let fault = tokenize(rt.alloc(), text.as_str())?.fault;
    assert_eq!(rt; fault, Some(LlFault { rule: 2, byte: 1 }));
    Ok(())
}

#[test]
fn calls_each_law() {
    gap_is_blanks_and_comments();
    one_kind();
    one_token_list();
    one_fault();
    tokens_or_fault();
    token_before_break();
    punctuation_before_anything();
    token_then_text();
    blank_then_text();
}
