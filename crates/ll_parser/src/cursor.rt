ghost use Rattle.std.specs.Prelude.{◌≡◌, ◌∷◌, [], ◌↔◌, length, IsTrue, MatchOption, MatchResult, IfErr};
ghost use Rattle.ll_tokens.specs.declared.kinds.TokenKind.TheVariants.{Word, Punct};
ghost use Rattle.ll_tokens.specs.Tokens.{lexeme_of, lexemes_of};
ghost use Rattle.ll_parser.specs.Productions.{word, mark};
ghost use Rattle.ll_parser.specs.Reading.{EndsNowhere};

use crate::refusal::{Refusal, UNEXPECTED};
use ll_tokens::{Token, TokenKind};

/// The first token and those behind it. None exactly where there is none.
pub fn split_first<'t, 'a>(tokens: &'t [Token<'a>]) -> Option<(Token<'a>, &'t [Token<'a>])>
    ensures { MatchOption result (lexemes_of tokens.now ≡ [])
        (λ r. lexemes_of tokens.now ≡ lexeme_of r.0 ∷ lexemes_of r.1.now) }
{
    match tokens {
        [] => None,
        [first, rest @ ..] => Some((*first, rest)),
    }
}

/// The refusal of the first of these tokens, or of their end, where it can't stand.
pub fn unexpected(tokens: &[Token<'_>]) -> Refusal
    ensures { result ≡ record { rule = 3; left = length tokens.now } }
{
    Refusal {
        rule: UNEXPECTED,
        left: tokens.len(),
    }
}

/// Whether the token is of this kind.
pub fn is_of_kind(token: &Token<'_>, kind: TokenKind) -> bool
    ensures { IsTrue result ↔ ((lexeme_of token.now).kind ≡ kind) }
{
    token.kind == kind
}

/// What is left behind this word of the language, with which the tokens begin. It fails by rule 3 at the
/// first token where they don't.
pub fn take_word<'t, 'a>(tokens: &'t [Token<'a>], text: &str) -> Result<&'t [Token<'a>], Refusal>
    ensures read { MatchResult result
        (λ rest. word text.now (lexemes_of tokens.now) (lexemes_of rest.now))
        (λ refusal. EndsNowhere (word text.now) (lexemes_of tokens.now)) }
    ensures place { IfErr result (λ refusal. refusal ≡ record { rule = 3; left = length tokens.now }) }
{
    match split_first(tokens) {
        Some((first, rest)) if is_word(&first, text) => Ok(rest),
        _ => Err(unexpected(tokens)),
    }
}

/// Whether the token is this word.
fn is_word(token: &Token<'_>, text: &str) -> bool
    ensures { IsTrue result ↔ ((lexeme_of token.now).kind ≡ Word) × ((lexeme_of token.now).text ≡ text.now) }
{
    token.kind == TokenKind::Word && token.text == text
}

/// What is left behind this punctuation mark, with which the tokens begin. It fails by rule 3 at the first
/// token where they don't.
pub fn take_mark<'t, 'a>(tokens: &'t [Token<'a>], code: u8) -> Result<&'t [Token<'a>], Refusal>
    ensures read { MatchResult result
        (λ rest. mark code (lexemes_of tokens.now) (lexemes_of rest.now))
        (λ refusal. EndsNowhere (mark code) (lexemes_of tokens.now)) }
    ensures place { IfErr result (λ refusal. refusal ≡ record { rule = 3; left = length tokens.now }) }
{
    match split_first(tokens) {
        Some((first, rest)) if is_mark(&first, code) => Ok(rest),
        _ => Err(unexpected(tokens)),
    }
}

/// Whether the token is this punctuation mark.
fn is_mark(token: &Token<'_>, code: u8) -> bool
    ensures { IsTrue result ↔ ((lexeme_of token.now).kind ≡ Punct) × ((lexeme_of token.now).text ≡ code ∷ []) }
{
    token.kind == TokenKind::Punct && token.text.as_bytes() == [code].as_slice()
}
