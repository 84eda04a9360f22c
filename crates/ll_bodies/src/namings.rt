ghost use Rattle.std.specs.Prelude.{◌≡◌, IfOk, MatchOption, MatchResult, slice_get};
ghost use Rattle.ll_tokens.specs.declared.kinds.TokenKind.TheVariants.{Local as LocalToken};
ghost use Rattle.ll_tokens.specs.Tokens.{lexemes_of};
ghost use Rattle.ll_parser.specs.GrammarFunctions.{next_behind};
ghost use Rattle.ll_parser.specs.NameReading.{ReadsWith, any_of};
ghost use Rattle.ll_parser.specs.Reading.{EndsNowhere};
ghost use Rattle.ll_operands.specs.Parts.{Refuses, optional};
ghost use Rattle.ll_bodies.specs.Namings.{NamesUnnamed, given_name, given_part};

use crate::kinds::has_value;
use ll_heads::{is_number, one_more};
use ll_parser::{NameTable, ReadError, is_of_kind, local, split_first, take_mark};
use ll_tokens::{Token, TokenKind};
use ll_tree::{Name, NameKind, NameText, Op, Spelling};
use std::alloc::{AllocError, Global};

/// The name with a `=` behind it with which the tokens begin, numbered by the table, and the tokens behind the `=` (LLVM 14,
/// Identifiers). None exactly where the tokens begin with no name of a value; the table then stays as it is. It fails for want of
/// memory, and at the first token that can't stand where it does: by rule 4 where that is a name of digits whose number is 2^31
/// or more, else by rule 3.
pub fn read_given_name<'t, 'a>(
    alloc: Global,
    tokens: &'t [Token<'a>],
    names: &mut NameTable,
) -> Result<Option<(Name, &'t [Token<'a>])>, ReadError>
    ensures { MatchResult result
        (λ found. MatchOption found ((names.new ≡ names.old) × EndsNowhere (any_of LocalToken) (lexemes_of tokens.now))
        (λ r. ReadsWith given_name names.old names.new r.0 (lexemes_of tokens.now) (lexemes_of r.1.now)))
        (Refuses (optional (any_of LocalToken) given_part) (lexemes_of tokens.now)) }
{
    match split_first(tokens) {
        Some((first, _behind)) if is_of_kind(&first, TokenKind::Local) => {
            let (name, behind) = local(alloc, tokens, names)?;
            let rest = take_mark(behind, b'=')?;
            Ok(Some((name, rest)))
        }
        _ => Ok(None),
    }
}

/// The number that is next behind a name, given the one before it: one more where the name is spelled by digits (LLVM 14,
/// Identifiers). It fails where that is no number of 32 bits, which is told as want of memory.
pub fn number_behind(names: &NameTable, number: u32, next: u32) -> Result<u32, AllocError>
    ensures { IfOk result (λ end. end ≡ next_behind names.now (slice_get names.now number) next) }
{
    if is_number(names, number) {
        return one_more(next);
    }
    Ok(next)
}

/// What an instruction at this place is called that is given no name: it has the next number where it has a value, which is put
/// into the table, and then the number behind that is the next one; where it has none it has no name. It fails for want of
/// memory, which is told too where there is no further number of 32 bits.
pub fn name_left_out(
    op: &Op,
    byte: u64,
    names: &mut NameTable,
    next: &mut u32,
) -> Result<Option<Name>, AllocError>
    ensures { IfOk result (λ name. NamesUnnamed next.old next.new byte op.now names.old names.new name) }
{
    if has_value(op) {
        let number = names.number_of(NameText {
            kind: NameKind::Local,
            spelling: Spelling::Number(*next),
        })?;
        *next = one_more(*next)?;
        return Ok(Some(Name { number, byte }));
    }
    Ok(None)
}
