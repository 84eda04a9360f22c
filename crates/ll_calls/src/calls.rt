ghost use Rattle.std.specs.Prelude.{◌≡◌, MatchOption, MatchResult};
ghost use Rattle.ll_tokens.specs.Tokens.{lexemes_of};
ghost use Rattle.ll_tree.specs.declared.op.Op.TheVariants as op;
ghost use Rattle.ll_parser.specs.NameReading.{ReadsWith};
ghost use Rattle.ll_parser.specs.Reading.{EndsNowhere};
ghost use Rattle.ll_operands.specs.Parts.{Refuses};
ghost use Rattle.ll_calls.specs.declared.openings.CallOpening.TheVariants as opening;
ghost use Rattle.ll_calls.specs.CallOpenings.{call_word};
ghost use Rattle.ll_calls.specs.CallParts.{called, called_part};
ghost use Rattle.ll_calls.specs.Calls.{behind, behind_opening, call_operation, call_part};

use crate::arguments::read_arguments;
use crate::callees::{Callee, read_callee};
use crate::openings::{CallOpening, take_opening};
use ll_attributes::skip_function_attributes;
use ll_parser::{NameTable, ReadError, take_mark, take_word};
use ll_tokens::Token;
use ll_tree::{Op, Parts, TypedValue};
use std::alloc::Global;

/// What stands behind the word `call`, so far as it is kept.
#[derive(Drop)]
pub struct Called {
    pub callee: Callee,
    pub arguments: Parts<TypedValue>,
}

/// The call with which the tokens begin, with all that belongs to it, and the tokens behind it (LLVM 14, `call`). Its `tail` or
/// `notail`, its calling convention and attributes are not kept. Names are numbered by the table. None exactly where the tokens
/// begin with no word with which calls begin; the table then stays as it is. It fails for want of memory, and at the first token
/// that can't stand where it does: by rule 4 where that is a number out of its range, a name of digits whose number is 2^31 or
/// more or a group of attributes with such a number, else by rule 3.
pub fn read_call<'t, 'a>(
    alloc: Global,
    tokens: &'t [Token<'a>],
    names: &mut NameTable,
) -> Result<Option<(Op, &'t [Token<'a>])>, ReadError>
    ensures { MatchResult result
        (λ found. MatchOption found ((names.new ≡ names.old) × EndsNowhere call_word (lexemes_of tokens.now))
        (λ r. ReadsWith call_operation names.old names.new r.0 (lexemes_of tokens.now) (lexemes_of r.1.now)))
        (Refuses call_part (lexemes_of tokens.now)) }
{
    match take_opening(tokens) {
        Some((opening, behind)) => {
            let (called, rest) = read_behind(alloc, opening, behind, names)?;
            Ok(Some((call_of(called), rest)))
        }
        None => Ok(None),
    }
}

fn call_of(called: Called) -> Op
    ensures { result ≡ op.Call called.callee.ty called.callee.name called.arguments }
{
    let Called { callee, arguments } = called;
    let Callee { ty, name } = callee;
    Op::Call {
        ty,
        callee: name,
        arguments,
    }
}

/// The call behind whose first word the tokens begin, and the tokens behind it.
fn read_behind<'t, 'a>(
    alloc: Global,
    opening: CallOpening,
    tokens: &'t [Token<'a>],
    names: &mut NameTable,
) -> Result<(Called, &'t [Token<'a>]), ReadError>
    ensures { MatchResult result
        (λ r. ReadsWith (behind opening) names.old names.new r.0 (lexemes_of tokens.now) (lexemes_of r.1.now))
        (Refuses (behind_opening opening) (lexemes_of tokens.now)) }
{
    match opening {
        CallOpening::Tail => read_behind_tail(alloc, tokens, names),
        CallOpening::NoTail => read_behind_tail(alloc, tokens, names),
        CallOpening::Call => read_called(alloc, tokens, names),
    }
}

/// The call with whose word `call` the tokens begin, behind `tail` or `notail`, and the tokens behind it.
fn read_behind_tail<'t, 'a>(
    alloc: Global,
    tokens: &'t [Token<'a>],
    names: &mut NameTable,
) -> Result<(Called, &'t [Token<'a>]), ReadError>
    ensures { MatchResult result
        (λ r. ReadsWith (behind opening.Tail) names.old names.new r.0 (lexemes_of tokens.now) (lexemes_of r.1.now))
        (Refuses (behind_opening opening.Tail) (lexemes_of tokens.now)) }
{
    let inside = take_word(tokens, "call")?;
    let (called, rest) = read_called(alloc, inside, names)?;
    Ok((called, rest))
}

/// A call behind the word `call`: what is called, and its arguments between brackets. Attributes of the function are skipped.
fn read_called<'t, 'a>(
    alloc: Global,
    tokens: &'t [Token<'a>],
    names: &mut NameTable,
) -> Result<(Called, &'t [Token<'a>]), ReadError>
    ensures { MatchResult result
        (λ r. ReadsWith called names.old names.new r.0 (lexemes_of tokens.now) (lexemes_of r.1.now))
        (Refuses called_part (lexemes_of tokens.now)) }
{
    let (callee, behind) = read_callee(alloc, tokens, names)?;
    let inside = take_mark(behind, b'(')?;
    let (arguments, end) = read_arguments(alloc, inside, names)?;
    let rest = skip_function_attributes(end)?;
    Ok((Called { callee, arguments }, rest))
}
