ghost use Rattle.std.specs.Prelude.{◌≡◌, IsTrue, false, List};
ghost use Rattle.ll_tokens.specs.declared.kinds.TokenKind.TheVariants.{Local as LocalToken};
ghost use Rattle.ll_tokens.specs.Tokens.{Lexeme, lexemes_of};
ghost use Rattle.ll_parser.specs.NameReading.{any_of};
ghost use Rattle.ll_parser.specs.Reading.{EndsNowhere};
ghost use Rattle.ll_types.specs.TypeOpenings.{opens};

use ll_parser::{is_of_kind, split_first, take_mark};
use ll_tokens::{Token, TokenKind};

/// What the first tokens of a type say of it.
#[derive(Clone, Copy, Debug, PartialEq, Eq)]
pub enum TypeOpening {
    /// `[`
    Array,
    /// `<` before another token than `{`
    Vector,
    /// `{`
    Struct,
    /// `<{`
    Packed,
    /// A name behind a `%`.
    Named,
    /// None of these: one word, or no type.
    Plain,
}

/// What the first tokens say of the type that they are to begin, and the tokens behind its opening brackets.
pub fn type_opening<'t, 'a>(tokens: &'t [Token<'a>]) -> (TypeOpening, &'t [Token<'a>])
    ensures { opens result.0 (lexemes_of tokens.now) (lexemes_of result.1.now) }
{
    if let Ok(inside) = take_mark(tokens, b'[') {
        return (TypeOpening::Array, inside);
    }
    if let Ok(inside) = take_mark(tokens, b'{') {
        return (TypeOpening::Struct, inside);
    }
    if let Ok(behind) = take_mark(tokens, b'<') {
        return match take_mark(behind, b'{') {
            Ok(inside) => (TypeOpening::Packed, inside),
            Err(_no_brace) => (TypeOpening::Vector, behind),
        };
    }
    if begins_with_name(tokens) {
        return (TypeOpening::Named, tokens);
    }
    (TypeOpening::Plain, tokens)
}

/// Whether the tokens begin with a name behind a `%`.
fn begins_with_name(tokens: &[Token<'_>]) -> bool
    ensures yes { IsTrue result → (behind : List Lexeme) × any_of LocalToken (lexemes_of tokens.now) behind }
    ensures no { result ≡ false → EndsNowhere (any_of LocalToken) (lexemes_of tokens.now) }
{
    match split_first(tokens) {
        Some((first, _behind)) => is_of_kind(&first, TokenKind::Local),
        None => false,
    }
}
