ghost use Rattle.std.specs.Prelude.{◌≡◌, ◌↔◌, IsTrue, Contains, List, MatchOption, MatchResult};
ghost use Rattle.ll_tokens.specs.declared.kinds.TokenKind.TheVariants.{Str};
ghost use Rattle.ll_tokens.specs.Tokens.{Lexeme, lexemes_of};
ghost use Rattle.ll_parser.specs.GrammarAttributes.{attribute_group, function_words};
ghost use Rattle.ll_parser.specs.NameReading.{any_of};
ghost use Rattle.ll_parser.specs.Reading.{EndsNowhere};
ghost use Rattle.ll_parser.specs.Productions.{mark};
ghost use Rattle.ll_parser.specs.Spaces.{IsUnexpected};
ghost use Rattle.ll_attributes.specs.FunctionAttributes.{FunctionAttributeFails, FunctionAttributesFail, IsNoGroup, NoFunctionAttribute, function_attribute_here, function_attributes_here, value_here};

use crate::numbers::{number_behind_sign, out_of_range};
use crate::texts::skip_text;
use ll_parser::{OUT_OF_RANGE, Refusal, is_of_kind, last, split_first, take_mark, unexpected};
use ll_tokens::{Token, TokenKind};

const FUNCTION_WORDS: [&str; 15] = [
    "nounwind",
    "convergent",
    "norecurse",
    "noinline",
    "alwaysinline",
    "optnone",
    "readnone",
    "readonly",
    "argmemonly",
    "willreturn",
    "mustprogress",
    "nofree",
    "nosync",
    "uwtable",
    "speculatable",
];

/// What is left behind the attributes of a function with which the tokens begin, as many as there are (LLVM 14, Function
/// Attributes): groups by their numbers, texts with a value or without, and words. It fails at the first token that can't
/// stand where it does: by rule 4 where that is a group's number of 2^31 or more, by rule 3 where no text stands behind
/// a text's `=`.
pub fn skip_function_attributes<'t, 'a>(tokens: &'t [Token<'a>]) -> Result<&'t [Token<'a>], Refusal>
    ensures { MatchResult result
        (λ rest. function_attributes_here (lexemes_of tokens.now) (lexemes_of rest.now))
        (λ refusal. EndsNowhere function_attributes_here (lexemes_of tokens.now) × FunctionAttributesFail (lexemes_of tokens.now) refusal) }
{
    let mut left = tokens.len();
    while let Some(behind) = skip_attribute(last(tokens, left))? {
        left = behind.len();
    }
    Ok(last(tokens, left))
}

/// What is left behind the attribute of a function with which the tokens begin. None exactly where none begins.
fn skip_attribute<'t, 'a>(tokens: &'t [Token<'a>]) -> Result<Option<&'t [Token<'a>]>, Refusal>
    ensures { MatchResult result
        (λ found. MatchOption found (NoFunctionAttribute (lexemes_of tokens.now))
        (λ rest. function_attribute_here (lexemes_of tokens.now) (lexemes_of rest.now)))
        (FunctionAttributeFails (lexemes_of tokens.now)) }
{
    match split_first(tokens) {
        Some((first, behind)) => match first.kind {
            TokenKind::Attr => Ok(Some(attribute_group(tokens)?)),
            TokenKind::Str => Ok(Some(skip_value(behind)?)),
            TokenKind::Word if is_function_word(first.text) => Ok(Some(behind)),
            _ => Ok(None),
        },
        None => Ok(None),
    }
}

/// What is left behind a group of attributes, `#` and digits, with which the tokens begin (LLVM 14, Attribute Groups). It
/// fails at the first token: by rule 4 where its number is 2^31 or more, by rule 3 where it is no group.
pub fn attribute_group<'t, 'a>(tokens: &'t [Token<'a>]) -> Result<&'t [Token<'a>], Refusal>
    ensures { MatchResult result
        (λ rest. attribute_group (lexemes_of tokens.now) (lexemes_of rest.now))
        (IsNoGroup (lexemes_of tokens.now)) }
{
    match split_first(tokens) {
        Some((first, rest)) if is_of_kind(&first, TokenKind::Attr) => {
            match number_behind_sign(first.text.as_bytes()) {
                Some(_number) => Ok(rest),
                None => Err(out_of_range(tokens)),
            }
        }
        _ => Err(unexpected(tokens)),
    }
}

/// What is left behind `=` and a text, where a `=` begins the tokens.
fn skip_value<'t, 'a>(tokens: &'t [Token<'a>]) -> Result<&'t [Token<'a>], Refusal>
    ensures { MatchResult result
        (λ rest. value_here (lexemes_of tokens.now) (lexemes_of rest.now))
        (λ refusal. (end : List Lexeme) × mark 61 (lexemes_of tokens.now) end × IsUnexpected (any_of Str) end refusal) }
{
    match take_mark(tokens, b'=') {
        Ok(behind) => skip_text(behind),
        Err(_no_value) => Ok(tokens),
    }
}

/// Whether the word is an attribute of a function.
fn is_function_word(word: &str) -> bool
    ensures { IsTrue result ↔ Contains function_words word.now }
{
    FUNCTION_WORDS.contains(&word)
}
