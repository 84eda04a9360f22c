ghost use Rattle.std.specs.Prelude.{◌≡◌, ◌↔◌, IsTrue, MatchResult};
ghost use Rattle.ll_tokens.specs.declared.kinds.TokenKind.TheVariants.{Word};
ghost use Rattle.ll_tokens.specs.Tokens.{lexeme_of, lexemes_of};
ghost use Rattle.ll_parser.specs.GrammarAttributes.{placed_word};
ghost use Rattle.ll_parser.specs.GrammarItems.{target, target_word};
ghost use Rattle.ll_parser.specs.Productions.{word};
ghost use Rattle.ll_parser.specs.Spaces.{IsUnexpected};
ghost use Rattle.ll_items.specs.ItemParts.{target_item};
ghost use Rattle.ll_operands.specs.Parts.{Refuses, one_word};

use ll_attributes::read_text;
use ll_parser::{ReadError, Refusal, split_first, take_mark, take_word, unexpected};
use ll_tokens::{Token, TokenKind};
use ll_tree::{Target, TargetKind};
use std::alloc::Global;

/// The target line with which the tokens begin, and the tokens behind it (LLVM 14, Data Layout; Target Triple). It fails for want
/// of memory, and by rule 3 at the first token that can't stand where it does.
pub fn read_target<'t, 'a>(
    alloc: Global,
    tokens: &'t [Token<'a>],
) -> Result<(Target, &'t [Token<'a>]), ReadError>
    ensures { MatchResult result
        (λ r. target r.0 (lexemes_of tokens.now) (lexemes_of r.1.now))
        (Refuses target_item (lexemes_of tokens.now)) }
{
    let (byte, behind) = take_placed_word(tokens, "target")?;
    let (kind, after) = target_kind(behind)?;
    let inside = take_mark(after, b'=')?;
    let (text, rest) = read_text(alloc, inside)?;
    Ok((Target { kind, text, byte }, rest))
}

/// Which of the two target lines has the word with which the tokens begin, and the tokens behind it. It fails by rule 3 at the
/// first token.
fn target_kind<'t, 'a>(tokens: &'t [Token<'a>]) -> Result<(TargetKind, &'t [Token<'a>]), Refusal>
    ensures { MatchResult result
        (λ r. word (target_word r.0) (lexemes_of tokens.now) (lexemes_of r.1.now))
        ((one_word target_word).stops (lexemes_of tokens.now)) }
{
    if let Ok(rest) = take_word(tokens, "datalayout") {
        return Ok((TargetKind::DataLayout, rest));
    }
    if let Ok(rest) = take_word(tokens, "triple") {
        return Ok((TargetKind::Triple, rest));
    }
    Err(unexpected(tokens))
}

/// The place of this word of the language, with which the tokens begin, and the tokens behind it. It fails by rule 3 at the first
/// token.
fn take_placed_word<'t, 'a>(
    tokens: &'t [Token<'a>],
    text: &str,
) -> Result<(u64, &'t [Token<'a>]), Refusal>
    ensures { MatchResult result
        (λ r. placed_word text.now r.0 (lexemes_of tokens.now) (lexemes_of r.1.now))
        (IsUnexpected (word text.now) (lexemes_of tokens.now)) }
{
    match split_first(tokens) {
        Some((first, rest)) if is_word(&first, text) => Ok((first.byte, rest)),
        _ => Err(unexpected(tokens)),
    }
}

/// Whether the token is this word.
fn is_word(token: &Token<'_>, text: &str) -> bool
    ensures { IsTrue result ↔ ((lexeme_of token.now).kind ≡ Word) × ((lexeme_of token.now).text ≡ text.now) }
{
    token.kind == TokenKind::Word && token.text == text
}
