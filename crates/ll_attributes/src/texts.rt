ghost use Rattle.std.specs.Prelude.{◌≡◌, ◌-◌, length, drop, take, IfOk, MatchResult};
ghost use Rattle.ll_tokens.specs.declared.kinds.TokenKind.TheVariants.{Str};
ghost use Rattle.ll_tokens.specs.Tokens.{lexemes_of};
ghost use Rattle.ll_parser.specs.GrammarItems.{any_text, text};
ghost use Rattle.ll_parser.specs.NameReading.{any_of};
ghost use Rattle.ll_parser.specs.Spaces.{IsUnexpected};
ghost use Rattle.ll_parser.specs.Spellings.{between_quotes};
ghost use Rattle.ll_types.specs.ValueRefusals.{Unless};

use ll_parser::{ReadError, Refusal, is_of_kind, split_first, unescaped, unexpected};
use ll_tokens::{Token, TokenKind};
use sqlite_items::Items;
use std::alloc::{AllocError, Global};

/// What a text between quotes stands for, with which the tokens begin, and the tokens behind it. It fails for want of
/// memory, and by rule 3 at the first token.
pub fn read_text<'t, 'a>(
    alloc: Global,
    tokens: &'t [Token<'a>],
) -> Result<(Items<u8>, &'t [Token<'a>]), ReadError>
    ensures { MatchResult result
        (λ r. text r.0 (lexemes_of tokens.now) (lexemes_of r.1.now))
        (Unless (IsUnexpected any_text (lexemes_of tokens.now))) }
{
    match split_first(tokens) {
        Some((first, rest)) if is_of_kind(&first, TokenKind::Str) => {
            Ok((quoted(alloc, first.text.as_bytes())?, rest))
        }
        _ => Err(ReadError::Refused(unexpected(tokens))),
    }
}

/// What a text stands for that has a quote at both ends.
fn quoted(alloc: Global, text: &[u8]) -> Result<Items<u8>, AllocError>
    ensures { IfOk result (λ bytes. bytes ≡ between_quotes text.now) }
{
    unescaped(alloc, between_ends(text))
}

/// A text without its first and its last byte.
fn between_ends(text: &[u8]) -> &[u8]
    ensures { result.now ≡ drop 1 (take (length text.now - 1) text.now) }
{
    match text {
        [_, inside @ .., _] => inside,
        _ => &[],
    }
}

/// What is left behind the text between quotes with which the tokens begin. It fails by rule 3 at the first token.
pub fn skip_text<'t, 'a>(tokens: &'t [Token<'a>]) -> Result<&'t [Token<'a>], Refusal>
    ensures { MatchResult result
        (λ rest. any_text (lexemes_of tokens.now) (lexemes_of rest.now))
        (IsUnexpected any_text (lexemes_of tokens.now)) }
{
    match split_first(tokens) {
        Some((first, rest)) if is_of_kind(&first, TokenKind::Str) => Ok(rest),
        _ => Err(unexpected(tokens)),
    }
}
