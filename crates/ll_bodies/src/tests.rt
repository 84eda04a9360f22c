use crate::{begins_terminator, begins_unnamed, read_block_label, read_given_name};
use ll_parser::{NameTable, ReadError};
use ll_tokens::{Token, tokens};
use std::alloc::Global;
use std::test::Fail;

/// What reading comes to: how many tokens are left and the number of the name, or the rule that is broken and how many are left
/// then.
#[derive(Clone, Copy, Debug, PartialEq, Eq)]
enum Outcome {
    Named(usize, u32),
    Nothing,
    Refused(u16, usize),
    NoMemory,
}

use Outcome::{Named, Nothing, Refused};

fn refused(error: ReadError) -> Outcome {
    match error {
        ReadError::Refused(refusal) => Refused(refusal.rule, refusal.left),
        ReadError::NoMemory => Outcome::NoMemory,
    }
}

fn given_outcome(alloc: Global, tokens: &[Token<'_>]) -> Outcome {
    let mut names = NameTable::new(alloc);
    match read_given_name(alloc, tokens, &mut names) {
        Ok(Some((name, rest))) => Named(rest.len(), name.number),
        Ok(None) => Nothing,
        Err(error) => refused(error),
    }
}

/// What reading a label comes to where 7 is the next number, and the next number behind it.
fn label_outcome(alloc: Global, tokens: &[Token<'_>]) -> (Outcome, u32) {
    let mut names = NameTable::new(alloc);
    let mut next = 7;
    let outcome = match read_block_label(alloc, tokens, &mut names, &mut next) {
        Ok((name, rest)) => Named(rest.len(), name.number),
        Err(error) => refused(error),
    };
    (outcome, next)
}

static GIVEN: [(&str, Outcome); 5] = [
    ("%x = add", Named(1, 0)),
    ("%7 =", Named(0, 0)),
    ("add i32", Nothing),
    ("%x add", Refused(3, 1)),
    ("%2147483648 = add", Refused(4, 3)),
];

static LABELS: [(&str, (Outcome, u32)); 5] = [
    ("entry: ret void", (Named(2, 0), 7)),
    ("9: ret void", (Named(2, 0), 8)),
    ("ret void", (Named(2, 0), 8)),
    ("", (Named(0, 0), 8)),
    ("2147483648: ret void", (Refused(4, 3), 7)),
];

#[test]
fn names_and_labels_are_read_or_refused(rt: HostRuntime) -> Result<(), Fail> {
    let alloc = rt.alloc();
    for (text, outcome) in GIVEN.iter() {
        let found = tokens(alloc, text)?;
        assert_eq!(rt; given_outcome(alloc, found.as_slice()), *outcome, "{text}");
    }
    for (text, outcome) in LABELS.iter() {
        let found = tokens(alloc, text)?;
        assert_eq!(rt; label_outcome(alloc, found.as_slice()), *outcome, "{text}");
    }
    Ok(())
}

/// Tokens, whether they begin with the word of a terminator, and with that of an instruction that has no name.
static WORDS: [(&str, bool, bool); 5] = [
    ("ret void", true, true),
    ("store i32 1", false, true),
    ("call void", false, false),
    ("%x = ret", false, false),
    ("", false, false),
];

#[test]
fn words_are_told_apart(rt: HostRuntime) -> Result<(), Fail> {
    let alloc = rt.alloc();
    for (text, ends, unnamed) in WORDS.iter() {
        let found = tokens(alloc, text)?;
        assert_eq!(rt; begins_terminator(found.as_slice()), *ends, "{text}");
        assert_eq!(rt; begins_unnamed(found.as_slice()), *unnamed, "{text}");
    }
    Ok(())
}
