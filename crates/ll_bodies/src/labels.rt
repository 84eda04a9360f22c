ghost use Rattle.std.specs.Prelude.{◌≡◌, ◌∷◌, ◌-◌, MatchOption, MatchResult, length, take};
ghost use Rattle.ll_tokens.specs.declared.kinds.TokenKind.TheVariants.{Label};
ghost use Rattle.ll_tokens.specs.Tokens.{lexeme_of, lexemes_of};
ghost use Rattle.ll_parser.specs.NameReading.{ReadsWith, any_of};
ghost use Rattle.ll_parser.specs.Reading.{EndsNowhere};
ghost use Rattle.ll_operands.specs.Parts.{Refuses};
ghost use Rattle.ll_bodies.specs.Labels.{block_label_part, label_here, numbered_label};

use crate::namings::number_behind;
use ll_heads::first_place;
use ll_parser::{
    NameTable, OUT_OF_RANGE, ReadError, Refusal, is_of_kind, spelled_number, split_first,
};
use ll_tokens::{Token, TokenKind};
use ll_tree::{Name, NameKind, NameText, Spelling};
use std::alloc::Global;

/// The name of the block that begins with the tokens, at the place of their first one, and the tokens behind its label, if it has
/// one (LLVM 14, Functions; Identifiers). Where it has none, its name is the next number. Names are numbered by the table, and
/// the next number is then that behind the block's name. It fails for want of memory, which is told too where there is no
/// further number of 32 bits, and by rule 4 at a label of digits whose number is 2^31 or more.
pub fn read_block_label<'t, 'a>(
    alloc: Global,
    tokens: &'t [Token<'a>],
    names: &mut NameTable,
    next: &mut u32,
) -> Result<(Name, &'t [Token<'a>]), ReadError>
    ensures { MatchResult result
        (λ r. ReadsWith (numbered_label next.old next.new) names.old names.new r.0 (lexemes_of tokens.now) (lexemes_of r.1.now))
        (Refuses block_label_part (lexemes_of tokens.now)) }
{
    let (name, rest) = read_label(alloc, tokens, names, *next)?;
    *next = number_behind(names, name.number, *next)?;
    Ok((name, rest))
}

/// The same, and the next number stays.
fn read_label<'t, 'a>(
    alloc: Global,
    tokens: &'t [Token<'a>],
    names: &mut NameTable,
    next: u32,
) -> Result<(Name, &'t [Token<'a>]), ReadError>
    ensures { MatchResult result
        (λ r. ReadsWith (label_here next) names.old names.new r.0 (lexemes_of tokens.now) (lexemes_of r.1.now))
        (Refuses block_label_part (lexemes_of tokens.now)) }
{
    let byte = first_place(tokens);
    match take_label(tokens) {
        Some((first, rest)) => {
            let text = before_colon(first.text.as_bytes());
            match spelled_number(alloc, text, NameKind::Local, names)? {
                Some(number) => Ok((Name { number, byte }, rest)),
                None => Err(ReadError::Refused(out_of_range(tokens))),
            }
        }
        None => {
            let number = names.number_of(NameText {
                kind: NameKind::Local,
                spelling: Spelling::Number(next),
            })?;
            Ok((Name { number, byte }, tokens))
        }
    }
}

/// The label with which the tokens begin, and the tokens behind it. None exactly where they begin with none.
fn take_label<'t, 'a>(tokens: &'t [Token<'a>]) -> Option<(Token<'a>, &'t [Token<'a>])>
    ensures { MatchOption result (EndsNowhere (any_of Label) (lexemes_of tokens.now))
        (λ r. (lexemes_of tokens.now ≡ lexeme_of r.0 ∷ lexemes_of r.1.now) × ((lexeme_of r.0).kind ≡ Label)) }
{
    match split_first(tokens) {
        Some((first, rest)) if is_of_kind(&first, TokenKind::Label) => Some((first, rest)),
        _ => None,
    }
}

/// A label's text without its last byte.
fn before_colon(text: &[u8]) -> &[u8]
    ensures { result.now ≡ take (length text.now - 1) text.now }
{
    match text {
        [before @ .., _] => before,
        [] => &[],
    }
}

/// The refusal of the first of these tokens, whose number is too great.
fn out_of_range(tokens: &[Token<'_>]) -> Refusal
    ensures { result ≡ record { rule = 4; left = length tokens.now } }
{
    Refusal {
        rule: OUT_OF_RANGE,
        left: tokens.len(),
    }
}
