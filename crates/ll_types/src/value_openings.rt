ghost use Rattle.std.specs.Prelude.{MatchOption};
ghost use Rattle.ll_tokens.specs.Tokens.{lexemes_of};
ghost use Rattle.ll_parser.specs.GrammarValues.{IsOfConstants, cast_word};
ghost use Rattle.ll_parser.specs.Productions.{word};
ghost use Rattle.ll_parser.specs.Reading.{EndsNowhere};
ghost use Rattle.ll_types.specs.ValueOpenings.{cast_opening, opens_value};

use ll_parser::{take_mark, take_word};
use ll_tokens::Token;
use ll_tree::CastKind;

/// What the first tokens of a value say of it.
#[derive(Clone, Copy, Debug, PartialEq, Eq)]
pub enum ValueOpening {
    /// `[`
    Array,
    /// `{`
    Struct,
    /// `<` before another token than `{`
    Vector,
    /// `<` before `{`: a packed struct, or a vector whose first lane has a struct type.
    Angle,
    /// `getelementptr`
    Path,
    /// The word of a conversion that a constant may have.
    Cast(CastKind),
    /// None of these: a value of one token, or none.
    Single,
}

/// What the first tokens say of the value that they are to begin, and the tokens behind the first one.
pub fn value_opening<'t, 'a>(tokens: &'t [Token<'a>]) -> (ValueOpening, &'t [Token<'a>])
    ensures { opens_value result.0 (lexemes_of tokens.now) (lexemes_of result.1.now) }
{
    if let Ok(inside) = take_mark(tokens, b'[') {
        return (ValueOpening::Array, inside);
    }
    if let Ok(inside) = take_mark(tokens, b'{') {
        return (ValueOpening::Struct, inside);
    }
    if let Ok(behind) = take_mark(tokens, b'<') {
        return match take_mark(behind, b'{') {
            Ok(_inside) => (ValueOpening::Angle, behind),
            Err(_no_brace) => (ValueOpening::Vector, behind),
        };
    }
    if let Ok(behind) = take_word(tokens, "getelementptr") {
        return (ValueOpening::Path, behind);
    }
    match take_cast(tokens) {
        Some((kind, behind)) => (ValueOpening::Cast(kind), behind),
        None => (ValueOpening::Single, tokens),
    }
}

/// The conversion with whose word the tokens begin, and the tokens behind it. None exactly where a constant can't have it.
fn take_cast<'t, 'a>(tokens: &'t [Token<'a>]) -> Option<(CastKind, &'t [Token<'a>])>
    ensures { MatchOption result (EndsNowhere cast_opening (lexemes_of tokens.now))
        (λ r. IsOfConstants r.0 × word (cast_word r.0) (lexemes_of tokens.now) (lexemes_of r.1.now)) }
{
    if let Ok(behind) = take_word(tokens, "bitcast") {
        return Some((CastKind::Bitcast, behind));
    }
    if let Ok(behind) = take_word(tokens, "addrspacecast") {
        return Some((CastKind::AddrSpaceCast, behind));
    }
    if let Ok(behind) = take_word(tokens, "ptrtoint") {
        return Some((CastKind::PtrToInt, behind));
    }
    match take_word(tokens, "inttoptr") {
        Ok(behind) => Some((CastKind::IntToPtr, behind)),
        Err(_no_word) => None,
    }
}
