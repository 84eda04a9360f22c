ghost use Rattle.std.specs.Prelude.{◌≡◌, drop, length, IfOk, OnErr, MatchOption, MatchResult};
ghost use Rattle.ll_tokens.specs.declared.kinds.TokenKind.TheVariants.{Local as LocalToken, Global as GlobalToken};
ghost use Rattle.ll_tokens.specs.Tokens.{lexemes_of};
ghost use Rattle.ll_tree.specs.declared.name.NameKind.TheVariants.{Local as LocalName, Global as GlobalName, Struct as StructName};
ghost use Rattle.ll_parser.specs.GrammarTypes.{type_name};
ghost use Rattle.ll_parser.specs.GrammarValues.{local, global};
ghost use Rattle.ll_parser.specs.NameReading.{ReadsWith, SpellsWith, NameFails, signed_name};
ghost use Rattle.ll_parser.specs.Spellings.{IsInReach, spelling_of};

use crate::cursor::{is_of_kind, split_first, unexpected};
use crate::name_table::NameTable;
use crate::refusal::{OUT_OF_RANGE, ReadError, Refusal};
use crate::spellings::spelling;
use ll_tokens::{Token, TokenKind};
use ll_tree::{Name, NameKind, NameText};
use std::alloc::{AllocError, Global};

/// The number of the name that a text spells behind its sign (LLVM 14, Identifiers), which is put into the table where that
/// lacks it. None exactly where the text is digits whose number is 2^31 or more; the table then stays as it is, as it does
/// for want of memory, which is the only failure.
pub fn spelled_number(
    alloc: Global,
    text: &[u8],
    kind: NameKind,
    names: &mut NameTable,
) -> Result<Option<u32>, AllocError>
    ensures spelled { IfOk result (λ found. MatchOption found
        ((IsInReach (spelling_of text.now) → ⊥) × (names.new ≡ names.old))
        (λ number. SpellsWith names.old names.new kind text.now number)) }
    ensures kept { OnErr result (names.new ≡ names.old) }
{
    match spelling(alloc, text)? {
        Some(spelling) => Ok(Some(names.number_of(NameText { kind, spelling })?)),
        None => Ok(None),
    }
}

/// A text without its first byte.
fn behind_sign(text: &[u8]) -> &[u8]
    ensures { result.now ≡ drop 1 text.now }
{
    match text {
        [_, behind @ ..] => behind,
        [] => &[],
    }
}

/// The name behind the sign of a token of this kind, with which the tokens begin, and the tokens behind it.
fn signed_name<'t, 'a>(
    alloc: Global,
    tokens: &'t [Token<'a>],
    kind: TokenKind,
    name_kind: NameKind,
    names: &mut NameTable,
) -> Result<(Name, &'t [Token<'a>]), ReadError>
    ensures read { MatchResult result
        (λ r. ReadsWith (signed_name kind name_kind) names.old names.new r.0 (lexemes_of tokens.now) (lexemes_of r.1.now))
        (λ error. NameFails kind name_kind (lexemes_of tokens.now) error) }
    ensures kept { OnErr result (names.new ≡ names.old) }
{
    match split_first(tokens) {
        Some((first, rest)) if is_of_kind(&first, kind) => {
            let text = behind_sign(first.text.as_bytes());
            match spelled_number(alloc, text, name_kind, names)? {
                Some(number) => Ok((
                    Name {
                        number,
                        byte: first.byte,
                    },
                    rest,
                )),
                None => Err(ReadError::Refused(out_of_range(tokens))),
            }
        }
        _ => Err(ReadError::Refused(unexpected(tokens))),
    }
}

/// The refusal of the first of these tokens, whose number is too great.
fn out_of_range(tokens: &[Token<'_>]) -> Refusal
    ensures { result ≡ record { rule = 4; left = length tokens.now } }
{
    Refusal {
        rule: OUT_OF_RANGE,
        left: tokens.len(),
    }
}

/// The name of a value or a block with which the tokens begin, numbered by the table, and the tokens behind it (LLVM 14,
/// Identifiers). It fails for want of memory, and at the first token: by rule 3 where that is no such name, by rule 4 where it
/// is digits whose number is 2^31 or more. The table then stays as it is.
pub fn local<'t, 'a>(
    alloc: Global,
    tokens: &'t [Token<'a>],
    names: &mut NameTable,
) -> Result<(Name, &'t [Token<'a>]), ReadError>
    ensures read { MatchResult result
        (λ r. ReadsWith local names.old names.new r.0 (lexemes_of tokens.now) (lexemes_of r.1.now))
        (λ error. NameFails LocalToken LocalName (lexemes_of tokens.now) error) }
    ensures kept { OnErr result (names.new ≡ names.old) }
{
    signed_name(alloc, tokens, TokenKind::Local, NameKind::Local, names)
}

/// The name of a function or a variable of the module, as `local` reads that of a value.
pub fn global<'t, 'a>(
    alloc: Global,
    tokens: &'t [Token<'a>],
    names: &mut NameTable,
) -> Result<(Name, &'t [Token<'a>]), ReadError>
    ensures read { MatchResult result
        (λ r. ReadsWith global names.old names.new r.0 (lexemes_of tokens.now) (lexemes_of r.1.now))
        (λ error. NameFails GlobalToken GlobalName (lexemes_of tokens.now) error) }
    ensures kept { OnErr result (names.new ≡ names.old) }
{
    signed_name(alloc, tokens, TokenKind::Global, NameKind::Global, names)
}

/// The name of a struct type, as `local` reads that of a value.
pub fn type_name<'t, 'a>(
    alloc: Global,
    tokens: &'t [Token<'a>],
    names: &mut NameTable,
) -> Result<(Name, &'t [Token<'a>]), ReadError>
    ensures read { MatchResult result
        (λ r. ReadsWith type_name names.old names.new r.0 (lexemes_of tokens.now) (lexemes_of r.1.now))
        (λ error. NameFails LocalToken StructName (lexemes_of tokens.now) error) }
    ensures kept { OnErr result (names.new ≡ names.old) }
{
    signed_name(alloc, tokens, TokenKind::Local, NameKind::Struct, names)
}
