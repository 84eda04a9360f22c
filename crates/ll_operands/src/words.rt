ghost use Rattle.std.specs.Prelude.{◌≡◌, false, IsTrue, MatchOption};
ghost use Rattle.ll_tokens.specs.declared.kinds.TokenKind.TheVariants.{MdName};
ghost use Rattle.ll_tokens.specs.Tokens.{lexemes_of};
ghost use Rattle.ll_parser.specs.GrammarValues.{if_word};
ghost use Rattle.ll_parser.specs.NameReading.{any_of};
ghost use Rattle.ll_parser.specs.Productions.{word};
ghost use Rattle.ll_parser.specs.Reading.{EndsNowhere};
ghost use Rattle.ll_operands.specs.Parts.{Begins, operand_comma};

use ll_parser::{is_of_kind, split_first, take_mark, take_word};
use ll_tokens::{Token, TokenKind};

/// Whether the tokens begin with this word of the language, and the tokens behind it.
pub fn take_if_word<'t, 'a>(tokens: &'t [Token<'a>], text: &str) -> (bool, &'t [Token<'a>])
    ensures word { if_word text.now result.0 (lexemes_of tokens.now) (lexemes_of result.1.now) }
    ensures absent { result.0 ≡ false → EndsNowhere (word text.now) (lexemes_of tokens.now) }
{
    match take_word(tokens, text) {
        Ok(behind) => (true, behind),
        Err(_no_word) => (false, tokens),
    }
}

/// The tokens behind the comma with which the tokens begin. None exactly where no comma begins them, or one that an attachment's
/// name follows.
pub fn take_operand_comma<'t, 'a>(tokens: &'t [Token<'a>]) -> Option<&'t [Token<'a>]>
    ensures { MatchOption result (EndsNowhere operand_comma (lexemes_of tokens.now))
        (λ rest. operand_comma (lexemes_of tokens.now) (lexemes_of rest.now)) }
{
    match take_mark(tokens, b',') {
        Ok(behind) => unless_name(behind),
        Err(_no_comma) => None,
    }
}

/// These tokens. None exactly where they begin with the name of an attachment.
fn unless_name<'t, 'a>(tokens: &'t [Token<'a>]) -> Option<&'t [Token<'a>]>
    ensures { MatchOption result (Begins (any_of MdName) (lexemes_of tokens.now))
        (λ rest. (lexemes_of rest.now ≡ lexemes_of tokens.now) × EndsNowhere (any_of MdName) (lexemes_of tokens.now)) }
{
    if begins_with_name(tokens) {
        return None;
    }
    Some(tokens)
}

/// Whether the tokens begin with the name of an attachment.
fn begins_with_name(tokens: &[Token<'_>]) -> bool
    ensures there { IsTrue result → Begins (any_of MdName) (lexemes_of tokens.now) }
    ensures absent { result ≡ false → EndsNowhere (any_of MdName) (lexemes_of tokens.now) }
{
    match split_first(tokens) {
        Some((first, _behind)) => is_of_kind(&first, TokenKind::MdName),
        None => false,
    }
}
