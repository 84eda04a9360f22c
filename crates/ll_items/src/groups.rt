ghost use Rattle.std.specs.Prelude.{◌≡◌, ◌∷◌, ◌↔◌, IsTrue, List, MatchOption, MatchResult};
ghost use Rattle.ll_tokens.specs.Tokens.{Lexeme, lexeme_of, lexemes_of};
ghost use Rattle.ll_parser.specs.GrammarItems.{is_no_brace};
ghost use Rattle.ll_items.specs.ItemParts.{StopsAtBrace, group_item, inside_group, no_brace, source_item};

use ll_attributes::{attribute_group, skip_text};
use ll_parser::{Refusal, last, split_first, take_mark, take_word};
use ll_tokens::Token;

/// What is left behind the name of the source with which the tokens begin (LLVM 14, Source Filename). It fails by rule 3 at the first
/// token that can't stand where it does.
pub fn skip_source_filename<'t, 'a>(tokens: &'t [Token<'a>]) -> Result<&'t [Token<'a>], Refusal>
    ensures { MatchResult result
        (λ rest. source_item.begins (lexemes_of tokens.now) (lexemes_of rest.now))
        (source_item.stops (lexemes_of tokens.now)) }
{
    let behind = take_word(tokens, "source_filename")?;
    let after = take_mark(behind, b'=')?;
    let rest = skip_text(after)?;
    Ok(rest)
}

/// What is left behind the group of attributes with which the tokens begin, whatever stands between its braces but braces (LLVM 14,
/// Attribute Groups). It fails at the first token that can't stand where it does: by rule 4 where that is a group whose number is
/// 2^31 or more, else by rule 3.
pub fn skip_attribute_group<'t, 'a>(tokens: &'t [Token<'a>]) -> Result<&'t [Token<'a>], Refusal>
    ensures { MatchResult result
        (λ rest. group_item.begins (lexemes_of tokens.now) (lexemes_of rest.now))
        (group_item.stops (lexemes_of tokens.now)) }
{
    let behind = take_word(tokens, "attributes")?;
    let after = attribute_group(behind)?;
    let opened = take_mark(after, b'=')?;
    let inside = take_mark(opened, b'{')?;
    let end = skip_inside(inside);
    let rest = take_mark(end, b'}')?;
    Ok(rest)
}

/// The tokens from the first brace on.
fn skip_inside<'t, 'a>(tokens: &'t [Token<'a>]) -> &'t [Token<'a>]
    ensures { inside_group (lexemes_of tokens.now) (lexemes_of result.now) }
{
    let mut left = tokens.len();
    while let Some(behind) = skip_no_brace(last(tokens, left)) {
        left = behind.len();
    }
    last(tokens, left)
}

/// The tokens behind the first one. None exactly where that is a brace, or isn't there.
fn skip_no_brace<'t, 'a>(tokens: &'t [Token<'a>]) -> Option<&'t [Token<'a>]>
    ensures { MatchOption result (StopsAtBrace (lexemes_of tokens.now))
        (λ rest. no_brace (lexemes_of tokens.now) (lexemes_of rest.now)) }
{
    match split_first(tokens) {
        Some((first, rest)) if is_no_brace(&first) => Some(rest),
        _ => None,
    }
}

/// Whether the token is no brace.
fn is_no_brace(token: &Token<'_>) -> bool
    ensures { IsTrue result ↔ is_no_brace (lexeme_of token.now) }
{
    token.text != "{" && token.text != "}"
}
