ghost use Rattle.std.specs.Prelude.{◌≡◌, ℕ, ◌+◌, if◌then◌else◌, IfOk, MatchResult, Some, slice_get};
ghost use Rattle.ll_tokens.specs.Tokens.{lexemes_of};
ghost use Rattle.ll_parser.specs.GrammarFunctions.{next_behind};
ghost use Rattle.ll_parser.specs.NameReading.{ReadsWith};
ghost use Rattle.ll_operands.specs.Parts.{Refuses};
ghost use Rattle.ll_heads.specs.HeadParts.{name_part};
ghost use Rattle.ll_heads.specs.Params.{NamesLeftOut, numbered_name, numbering_behind};

use ll_parser::{NameTable, ReadError, is_of_kind, local, split_first};
use ll_tokens::{Token, TokenKind};
use ll_tree::{Name, NameKind, NameText, Spelling};
use std::alloc::{AllocError, Global};

/// The name of a parameter whose first token has this place, and the tokens behind it, where the tokens are those behind its
/// attributes. Where the parameter is given no name, it has the next number of the numbering if there is one (LLVM 14,
/// Identifiers), and no name if there is none. It fails as `read_params` does.
pub fn read_name<'t, 'a>(
    alloc: Global,
    tokens: &'t [Token<'a>],
    byte: u64,
    names: &mut NameTable,
    numbering: &mut Option<u32>,
) -> Result<(Option<Name>, &'t [Token<'a>]), ReadError>
    ensures { MatchResult result
        (λ r. ReadsWith (numbered_name numbering.old numbering.new byte) names.old names.new r.0 (lexemes_of tokens.now) (lexemes_of r.1.now))
        (Refuses name_part (lexemes_of tokens.now)) }
{
    match split_first(tokens) {
        Some((first, _behind)) if is_of_kind(&first, TokenKind::Local) => {
            let (name, rest) = local(alloc, tokens, names)?;
            *numbering = numbering_behind(names, name, *numbering)?;
            Ok((Some(name), rest))
        }
        _ => Ok((name_left_out(byte, names, numbering)?, tokens)),
    }
}

/// The numbering behind a parameter of this name. It fails where there are 2^32 parameters of such names, which is told as want
/// of memory.
fn numbering_behind(
    names: &NameTable,
    name: Name,
    numbering: Option<u32>,
) -> Result<Option<u32>, AllocError>
    ensures { IfOk result (λ end. end ≡ numbering_behind names.now (Some name) numbering) }
{
    match numbering {
        Some(next) if is_number(names, name.number) => Ok(Some(one_more(next)?)),
        other => Ok(other),
    }
}

/// Whether the name that has this number in the table is spelled by digits.
pub fn is_number(names: &NameTable, number: u32) -> bool
    ensures { (next : ℕ) → next_behind names.now (slice_get names.now number) next ≡ (if result then next + 1 else next) }
{
    match names.name(number) {
        Some(name) => match name.spelling {
            Spelling::Number(_) => true,
            Spelling::Text(_) => false,
        },
        None => false,
    }
}

/// The next number. It fails where there is none of 32 bits, which is told as want of memory.
pub fn one_more(number: u32) -> Result<u32, AllocError>
    ensures { IfOk result (λ next. next ≡ number + 1) }
{
    number.checked_add(1).ok_or(AllocError)
}

/// What a parameter at this place is called that is given no name.
fn name_left_out(
    byte: u64,
    names: &mut NameTable,
    numbering: &mut Option<u32>,
) -> Result<Option<Name>, AllocError>
    ensures { IfOk result (λ name. NamesLeftOut numbering.old numbering.new byte names.old names.new name) }
{
    match *numbering {
        Some(next) => {
            let number = names.number_of(NameText {
                kind: NameKind::Local,
                spelling: Spelling::Number(next),
            })?;
            *numbering = Some(one_more(next)?);
            Ok(Some(Name { number, byte }))
        }
        None => Ok(None),
    }
}
