mod depths;
mod first_breaks;
mod functions;
mod items;
mod large;
mod numbers;
mod operations;
mod types;
mod unexpected;
mod unfinished;
mod values;

use ll_texts::parse;
use ports::{LlError, LlFault};
use std::alloc::Global;
use std::test::Fail;

/// What a text comes to: a module, or the rule that it breaks and the byte where.
#[derive(Clone, Copy, Debug, PartialEq, Eq)]
enum Outcome {
    Module,
    Refused(u16, u64),
    NoMemory,
}

fn outcome_of(alloc: Global, text: &str) -> Outcome {
    match parse(alloc, text) {
        Ok(_module) => Outcome::Module,
        Err(LlError::Fault(LlFault { rule, byte })) => Outcome::Refused(rule, byte),
        Err(LlError::NoMemory) => Outcome::NoMemory,
    }
}

/// What makes a module's text of a part of one: what stands before the part and behind it, and whether a module may end inside
/// the part.
#[derive(Clone, Copy)]
struct Frame {
    before: &'static str,
    behind: &'static str,
    may_end: bool,
}

/// The first text of a row in its frame that doesn't come to what it should, if there is one. The tokens of a row stand between
/// blanks. The whole row is read. Before each of its tokens a word that no production has breaks rule 3, and so does the end of
/// the text, but for where a module may end.
fn wrong_text(alloc: Global, frame: Frame, row: &str) -> Result<Option<String>, Fail> {
    let mut text = frame.before.to_string(alloc)?;
    for token in row.split_whitespace() {
        let refused = Outcome::Refused(3, text.len() as u64);
        let odd = format!(in alloc; "{text}odd {token}")?;
        if outcome_of(alloc, &odd) != refused {
            return Ok(Some(odd));
        }
        if !frame.may_end && outcome_of(alloc, &text) != refused {
            return Ok(Some(text));
        }
        text.push_str(token)?;
        text.push_str(" ")?;
    }
    text.push_str(frame.behind)?;
    if outcome_of(alloc, &text) == Outcome::Module {
        Ok(None)
    } else {
        Ok(Some(text))
    }
}

/// The first text of a table that doesn't break the rule at the place, if there is one. A text stands in two parts, of which the
/// second begins at the place.
fn unbroken(alloc: Global, rule: u16, texts: &[(&str, &str)]) -> Result<Option<String>, Fail> {
    for (before, from) in texts {
        let text = format!(in alloc; "{before}{from}")?;
        if outcome_of(alloc, &text) != Outcome::Refused(rule, before.len() as u64) {
            return Ok(Some(text));
        }
    }
    Ok(None)
}
