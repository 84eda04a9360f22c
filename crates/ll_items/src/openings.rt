ghost use Rattle.std.specs.Prelude.{MatchResult};
ghost use Rattle.ll_tokens.specs.declared.kinds.TokenKind.TheVariants.{Bang};
ghost use Rattle.ll_tokens.specs.Tokens.{lexemes_of};
ghost use Rattle.ll_parser.specs.NameReading.{any_of};
ghost use Rattle.ll_parser.specs.Spaces.{IsUnexpected};
ghost use Rattle.ll_items.specs.ItemParts.{open_list, open_part};

use ll_parser::{Refusal, is_of_kind, split_first, take_mark, unexpected};
use ll_tokens::{Token, TokenKind};

/// What is left behind the `!` and the `{` with which the tokens begin. It fails by rule 3 at the first of them that isn't there.
pub fn take_open_list<'t, 'a>(tokens: &'t [Token<'a>]) -> Result<&'t [Token<'a>], Refusal>
    ensures { MatchResult result
        (λ rest. open_list (lexemes_of tokens.now) (lexemes_of rest.now))
        (open_part.stops (lexemes_of tokens.now)) }
{
    let behind = take_bang(tokens)?;
    let rest = take_mark(behind, b'{')?;
    Ok(rest)
}

/// What is left behind the `!` with which the tokens begin. It fails by rule 3 at the first token.
fn take_bang<'t, 'a>(tokens: &'t [Token<'a>]) -> Result<&'t [Token<'a>], Refusal>
    ensures { MatchResult result
        (λ rest. any_of Bang (lexemes_of tokens.now) (lexemes_of rest.now))
        (IsUnexpected (any_of Bang) (lexemes_of tokens.now)) }
{
    match split_first(tokens) {
        Some((first, rest)) if is_of_kind(&first, TokenKind::Bang) => Ok(rest),
        _ => Err(unexpected(tokens)),
    }
}
