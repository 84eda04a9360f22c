ghost use Rattle.std.specs.Prelude.{◌≡◌, ◌++◌, ◌∷◌, [], MatchOption, MatchResult, OnOk};
ghost use Rattle.ll_tokens.specs.Tokens.{lexemes_of};
ghost use Rattle.ll_parser.specs.GrammarInsts.{argument};
ghost use Rattle.ll_parser.specs.NameReading.{ReadsWith};
ghost use Rattle.ll_parser.specs.Productions.{mark};
ghost use Rattle.ll_parser.specs.Reading.{EndsNowhere};
ghost use Rattle.ll_operands.specs.Parts.{Refuses, optional, repeated};
ghost use Rattle.ll_calls.specs.CallParts.{
  argument_part,
  arguments,
  arguments_part,
  more_arguments,
  next_argument,
  next_argument_part,
  some_arguments,
  some_part,
};

use ll_attributes::read_attributes;
use ll_parser::{NameTable, ReadError, last, take_mark};
use ll_tokens::Token;
use ll_tree::{Parts, TypedValue};
use ll_types::{read_type, read_value};
use std::alloc::{AllocError, Global};

/// The arguments with which the tokens begin, up to the `)` behind them, and the tokens behind that.
pub fn read_arguments<'t, 'a>(
    alloc: Global,
    tokens: &'t [Token<'a>],
    names: &mut NameTable,
) -> Result<(Parts<TypedValue>, &'t [Token<'a>]), ReadError>
    ensures { MatchResult result
        (λ r. ReadsWith arguments names.old names.new r.0 (lexemes_of tokens.now) (lexemes_of r.1.now))
        (Refuses arguments_part (lexemes_of tokens.now)) }
{
    match take_mark(tokens, b')') {
        Ok(rest) => Ok((Parts::new(alloc), rest)),
        Err(_not_yet) => {
            let (arguments, end) = read_some_arguments(alloc, tokens, names)?;
            let rest = take_mark(end, b')')?;
            Ok((arguments, rest))
        }
    }
}

/// The arguments with commas between them with which the tokens begin, one at least and as many as there are, and the tokens
/// behind them.
fn read_some_arguments<'t, 'a>(
    alloc: Global,
    tokens: &'t [Token<'a>],
    names: &mut NameTable,
) -> Result<(Parts<TypedValue>, &'t [Token<'a>]), ReadError>
    ensures { MatchResult result
        (λ r. ReadsWith some_arguments names.old names.new r.0 (lexemes_of tokens.now) (lexemes_of r.1.now))
        (Refuses some_part (lexemes_of tokens.now)) }
{
    let (first, behind) = read_argument(alloc, tokens, names)?;
    let mut arguments = Parts::new(alloc);
    push_argument(&mut arguments, first)?;
    let (arguments, rest) = read_more_arguments(alloc, arguments, behind, names)?;
    Ok((arguments, rest))
}

/// The arguments with those behind commas with which the tokens begin behind them, as many as there are, and the tokens behind
/// those.
fn read_more_arguments<'t, 'a>(
    alloc: Global,
    mut arguments: Parts<TypedValue>,
    tokens: &'t [Token<'a>],
    names: &mut NameTable,
) -> Result<(Parts<TypedValue>, &'t [Token<'a>]), ReadError>
    ensures { MatchResult result
        (λ r. ReadsWith (more_arguments arguments) names.old names.new r.0 (lexemes_of tokens.now) (lexemes_of r.1.now))
        (Refuses (repeated (mark 44) next_argument_part) (lexemes_of tokens.now)) }
{
    let mut left = tokens.len();
    while let Some((argument, behind)) = read_next_argument(alloc, last(tokens, left), names)? {
        push_argument(&mut arguments, argument)?;
        left = behind.len();
    }
    Ok((arguments, last(tokens, left)))
}

/// Adds an argument behind the others.
fn push_argument(arguments: &mut Parts<TypedValue>, argument: TypedValue) -> Result<(), AllocError>
    ensures { OnOk result (arguments.new ≡ arguments.old ++ argument ∷ []) }
{
    match arguments.push(argument) {
        Ok(()) => Ok(()),
        Err(_no_memory) => Err(AllocError),
    }
}

/// The argument behind a comma with which the tokens begin, and the tokens behind it. None exactly where no comma begins them.
fn read_next_argument<'t, 'a>(
    alloc: Global,
    tokens: &'t [Token<'a>],
    names: &mut NameTable,
) -> Result<Option<(TypedValue, &'t [Token<'a>])>, ReadError>
    ensures { MatchResult result
        (λ found. MatchOption found ((names.new ≡ names.old) × EndsNowhere (mark 44) (lexemes_of tokens.now))
        (λ r. ReadsWith next_argument names.old names.new r.0 (lexemes_of tokens.now) (lexemes_of r.1.now)))
        (Refuses (optional (mark 44) next_argument_part) (lexemes_of tokens.now)) }
{
    match take_mark(tokens, b',') {
        Ok(behind) => {
            let (argument, rest) = read_argument(alloc, behind, names)?;
            Ok(Some((argument, rest)))
        }
        Err(_no_comma) => Ok(None),
    }
}

/// The argument with which the tokens begin, a type, attributes and a value, and the tokens behind it.
fn read_argument<'t, 'a>(
    alloc: Global,
    tokens: &'t [Token<'a>],
    names: &mut NameTable,
) -> Result<(TypedValue, &'t [Token<'a>]), ReadError>
    ensures { MatchResult result
        (λ r. ReadsWith argument names.old names.new r.0 (lexemes_of tokens.now) (lexemes_of r.1.now))
        (Refuses argument_part (lexemes_of tokens.now)) }
{
    let (ty, inside) = read_type(alloc, tokens, names)?;
    let (_dropped, behind) = read_attributes(alloc, inside, names)?;
    let (value, rest) = read_value(alloc, behind, &ty, names)?;
    Ok((TypedValue { ty, value }, rest))
}
