ghost use Rattle.std.specs.Prelude.{◌≡◌, MatchOption, MatchResult};
ghost use Rattle.ll_tokens.specs.Tokens.{lexemes_of};
ghost use Rattle.ll_parser.specs.NameReading.{ReadsWith};
ghost use Rattle.ll_parser.specs.Productions.{mark};
ghost use Rattle.ll_parser.specs.Reading.{EndsNowhere};
ghost use Rattle.ll_operands.specs.Parts.{Refuses};
ghost use Rattle.ll_types.specs.ValueRefusals.{Unless};
ghost use Rattle.ll_heads.specs.HeadParts.{param_part, params_part, some_part};
ghost use Rattle.ll_heads.specs.Params.{NextFails, all_params, first_place, next_param, numbered_param, params_here};

use crate::numbering::read_name;
use ll_attributes::read_attributes;
use ll_parser::{NameTable, ReadError, last, split_first, take_mark};
use ll_tokens::Token;
use ll_tree::Param;
use ll_types::read_type;
use sqlite_items::Items;
use std::alloc::Global;

/// The place of the first token, and 0 where there is none.
pub fn first_place(tokens: &[Token<'_>]) -> u64
    ensures { result ≡ first_place (lexemes_of tokens.now) }
{
    match split_first(tokens) {
        Some((first, _behind)) => first.byte,
        None => 0,
    }
}

/// The parameters up to the `)` with which the tokens begin, and the tokens behind that (LLVM 14, Functions). Where there is a
/// numbering, parameters that are given no name have the next numbers. Names are numbered by the table. It fails for want of
/// memory, and at the first token that can't stand where it does: by rule 4 where that is a number out of its range or a name of
/// such digits, else by rule 3.
pub fn read_params<'t, 'a>(
    alloc: Global,
    tokens: &'t [Token<'a>],
    names: &mut NameTable,
    numbering: &mut Option<u32>,
) -> Result<(Items<Param>, &'t [Token<'a>]), ReadError>
    ensures { MatchResult result
        (λ r. ReadsWith (params_here numbering.old numbering.new) names.old names.new r.0 (lexemes_of tokens.now) (lexemes_of r.1.now))
        (Refuses params_part (lexemes_of tokens.now)) }
{
    match take_mark(tokens, b')') {
        Ok(rest) => Ok((Items::new(alloc), rest)),
        Err(_not_yet) => {
            let (params, end) = read_some_params(alloc, tokens, names, numbering)?;
            let rest = take_mark(end, b')')?;
            Ok((params, rest))
        }
    }
}

/// One parameter or more with commas between them, as many as there are.
fn read_some_params<'t, 'a>(
    alloc: Global,
    tokens: &'t [Token<'a>],
    names: &mut NameTable,
    numbering: &mut Option<u32>,
) -> Result<(Items<Param>, &'t [Token<'a>]), ReadError>
    ensures { MatchResult result
        (λ r. ReadsWith (all_params numbering.old numbering.new) names.old names.new r.0 (lexemes_of tokens.now) (lexemes_of r.1.now))
        (Refuses some_part (lexemes_of tokens.now)) }
{
    let mut params = Items::new(alloc);
    let (first, behind) = read_param(alloc, tokens, names, numbering)?;
    params.push(first)?;
    let mut left = behind.len();
    while let Some((param, rest)) = read_next(alloc, last(tokens, left), names, numbering)? {
        params.push(param)?;
        left = rest.len();
    }
    Ok((params, last(tokens, left)))
}

/// A parameter behind the comma with which the tokens begin. None exactly where no comma begins them.
fn read_next<'t, 'a>(
    alloc: Global,
    tokens: &'t [Token<'a>],
    names: &mut NameTable,
    numbering: &mut Option<u32>,
) -> Result<Option<(Param, &'t [Token<'a>])>, ReadError>
    ensures { MatchResult result
        (λ found. MatchOption found ((names.new ≡ names.old) × (numbering.new ≡ numbering.old) × EndsNowhere (mark 44) (lexemes_of tokens.now))
        (λ r. ReadsWith (next_param numbering.old numbering.new) names.old names.new r.0 (lexemes_of tokens.now) (lexemes_of r.1.now)))
        (Unless (NextFails (lexemes_of tokens.now))) }
{
    match take_mark(tokens, b',') {
        Ok(behind) => Ok(Some(read_param(alloc, behind, names, numbering)?)),
        Err(_no_comma) => Ok(None),
    }
}

/// A parameter: its type, its attributes and its name.
fn read_param<'t, 'a>(
    alloc: Global,
    tokens: &'t [Token<'a>],
    names: &mut NameTable,
    numbering: &mut Option<u32>,
) -> Result<(Param, &'t [Token<'a>]), ReadError>
    ensures { MatchResult result
        (λ r. ReadsWith (numbered_param numbering.old numbering.new) names.old names.new r.0 (lexemes_of tokens.now) (lexemes_of r.1.now))
        (Refuses param_part (lexemes_of tokens.now)) }
{
    let byte = first_place(tokens);
    let (ty, inside) = read_type(alloc, tokens, names)?;
    let (attributes, behind) = read_attributes(alloc, inside, names)?;
    let (name, rest) = read_name(alloc, behind, byte, names, numbering)?;
    Ok((
        Param {
            ty,
            attributes,
            name,
        },
        rest,
    ))
}
