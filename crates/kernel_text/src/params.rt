ghost use Rattle.std.specs.Prelude.{◌≡◌, MatchOption, MatchResult};
ghost use Rattle.ll_tokens.specs.Tokens.{lexemes_of};
ghost use Rattle.ll_parser.specs.NameReading.{ReadsWith};
ghost use Rattle.kernel_text.specs.Grammar.{param};
ghost use Rattle.kernel_text.specs.Parts.{NextFails, NoComma, all_of, next_param, params, params_end, some_params, typed_name};
ghost use Rattle.kernel_text.specs.Reading.{Fails};

use crate::error::KernelTextError;
use crate::name_sorts::NameSort;
use crate::names::written_name;
use crate::phrases::{Phrase, take};
use kernel_tree::{KernelParam, ValueType};
use ll_parser::{NameTable, last};
use ll_tokens::Token;
use sqlite_items::Items;
use std::alloc::Global;

/// The rest of a parameter behind its `i32`, with which the tokens begin, and the tokens behind it.
fn typed_name<'t, 'a>(
    alloc: Global,
    tokens: &'t [Token<'a>],
    names: &mut NameTable,
) -> Result<(KernelParam, &'t [Token<'a>]), KernelTextError>
    ensures { MatchResult result
        (λ r. ReadsWith typed_name names.old names.new r.0 (lexemes_of tokens.now) (lexemes_of r.1.now))
        (Fails typed_name (lexemes_of tokens.now)) }
{
    match take(tokens, Phrase::PointerSuffix) {
        Ok(behind) => {
            let (name, rest) = written_name(alloc, behind, NameSort::Value, names)?;
            let value_type = ValueType::Pointer;
            Ok((KernelParam { value_type, name }, rest))
        }
        Err(_no_pointer) => {
            let (name, rest) = written_name(alloc, tokens, NameSort::Value, names)?;
            let value_type = ValueType::Int;
            Ok((KernelParam { value_type, name }, rest))
        }
    }
}

/// The parameter with which the tokens begin, and the tokens behind it.
fn param<'t, 'a>(
    alloc: Global,
    tokens: &'t [Token<'a>],
    names: &mut NameTable,
) -> Result<(KernelParam, &'t [Token<'a>]), KernelTextError>
    ensures { MatchResult result
        (λ r. ReadsWith param names.old names.new r.0 (lexemes_of tokens.now) (lexemes_of r.1.now))
        (Fails param (lexemes_of tokens.now)) }
{
    let behind = take(tokens, Phrase::IntType)?;
    typed_name(alloc, behind, names)
}

/// The parameter behind the comma with which the tokens begin, and the tokens behind it. None exactly where no comma
/// begins them.
fn next_param<'t, 'a>(
    alloc: Global,
    tokens: &'t [Token<'a>],
    names: &mut NameTable,
) -> Result<Option<(KernelParam, &'t [Token<'a>])>, KernelTextError>
    ensures { MatchResult result
        (λ found. MatchOption found ((names.new ≡ names.old) × NoComma (lexemes_of tokens.now))
        (λ r. ReadsWith next_param names.old names.new r.0 (lexemes_of tokens.now) (lexemes_of r.1.now)))
        (NextFails next_param NoComma (lexemes_of tokens.now)) }
{
    match take(tokens, Phrase::Comma) {
        Ok(behind) => Ok(Some(param(alloc, behind, names)?)),
        Err(_no_comma) => Ok(None),
    }
}

/// The parameters behind commas with which the tokens begin, and the tokens behind them.
fn more_params<'t, 'a>(
    alloc: Global,
    tokens: &'t [Token<'a>],
    names: &mut NameTable,
) -> Result<(Items<KernelParam>, &'t [Token<'a>]), KernelTextError>
    ensures { MatchResult result
        (λ r. ReadsWith (all_of next_param NoComma) names.old names.new r.0 (lexemes_of tokens.now) (lexemes_of r.1.now))
        (Fails (all_of next_param NoComma) (lexemes_of tokens.now)) }
{
    let mut params = Items::new(alloc);
    let mut left = tokens.len();
    while let Some((param, behind)) = next_param(alloc, last(tokens, left), names)? {
        params.push(param)?;
        left = behind.len();
    }
    Ok((params, last(tokens, left)))
}

/// The parameters behind the first, with which the tokens begin, the `) {` behind them, and the tokens behind that.
fn params_end<'t, 'a>(
    alloc: Global,
    tokens: &'t [Token<'a>],
    names: &mut NameTable,
) -> Result<(Items<KernelParam>, &'t [Token<'a>]), KernelTextError>
    ensures { MatchResult result
        (λ r. ReadsWith params_end names.old names.new r.0 (lexemes_of tokens.now) (lexemes_of r.1.now))
        (Fails params_end (lexemes_of tokens.now)) }
{
    let (params, behind) = more_params(alloc, tokens, names)?;
    let rest = take(behind, Phrase::BodyStart)?;
    Ok((params, rest))
}

/// One parameter or more, the `) {` behind them, and the tokens behind that.
fn some_params<'t, 'a>(
    alloc: Global,
    tokens: &'t [Token<'a>],
    names: &mut NameTable,
) -> Result<(Items<KernelParam>, &'t [Token<'a>]), KernelTextError>
    ensures { MatchResult result
        (λ r. ReadsWith some_params names.old names.new r.0 (lexemes_of tokens.now) (lexemes_of r.1.now))
        (Fails some_params (lexemes_of tokens.now)) }
{
    let (first, behind) = param(alloc, tokens, names)?;
    let (more, rest) = params_end(alloc, behind, names)?;
    let mut params = Items::new(alloc);
    params.push(first)?;
    params.append(more)?;
    Ok((params, rest))
}

/// The parameters with which the tokens begin, the `) {` behind them, and the tokens behind that.
pub fn params<'t, 'a>(
    alloc: Global,
    tokens: &'t [Token<'a>],
    names: &mut NameTable,
) -> Result<(Items<KernelParam>, &'t [Token<'a>]), KernelTextError>
    ensures { MatchResult result
        (λ r. ReadsWith params names.old names.new r.0 (lexemes_of tokens.now) (lexemes_of r.1.now))
        (Fails params (lexemes_of tokens.now)) }
{
    match take(tokens, Phrase::BodyStart) {
        Ok(rest) => Ok((Items::new(alloc), rest)),
        Err(_some) => some_params(alloc, tokens, names),
    }
}
