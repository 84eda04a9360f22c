ghost use Rattle.std.specs.Prelude.{◌≡◌, MatchResult, IfErr};
ghost use Rattle.ll_tokens.specs.Tokens.{lexemes_of};
ghost use Rattle.ll_parser.specs.Reading.{DerivesNone};
ghost use Rattle.ll_parser.specs.Spaces.{IsNoBracketed, IsNoSpace, bracketed_number, space_here};

use crate::cursor::{take_mark, take_word};
use crate::numbers::number;
use crate::refusal::Refusal;
use ll_tokens::Token;

/// The number between `(` and `)` with which the tokens begin, and the tokens behind it. It fails at the first
/// of these three that isn't where it is to stand, by rule 4 at another number, else by rule 3.
fn bracketed_number<'t, 'a>(tokens: &'t [Token<'a>]) -> Result<(u64, &'t [Token<'a>]), Refusal>
    ensures read { MatchResult result
        (λ r. bracketed_number r.0 (lexemes_of tokens.now) (lexemes_of r.1.now))
        (λ refusal. DerivesNone bracketed_number (lexemes_of tokens.now)) }
    ensures place { IfErr result (IsNoBracketed (lexemes_of tokens.now)) }
{
    let inside = take_mark(tokens, b'(')?;
    let (value, behind) = number(inside)?;
    let rest = take_mark(behind, b')')?;
    Ok((value, rest))
}

/// The address space with which the tokens begin, which is 0 where no `addrspace` does, and the tokens behind
/// it (LLVM 14, Pointer Type). It fails behind `addrspace`, at the first of `(`, a number from 0 to 2^63 - 1
/// and `)` that isn't where it is to stand, by rule 4 at another number, else by rule 3.
pub fn space<'t, 'a>(tokens: &'t [Token<'a>]) -> Result<(u64, &'t [Token<'a>]), Refusal>
    ensures read { MatchResult result
        (λ r. space_here r.0 (lexemes_of tokens.now) (lexemes_of r.1.now))
        (λ refusal. DerivesNone space_here (lexemes_of tokens.now)) }
    ensures place { IfErr result (IsNoSpace (lexemes_of tokens.now)) }
{
    match take_word(tokens, "addrspace") {
        Ok(behind) => bracketed_number(behind),
        Err(_no_space) => Ok((0, tokens)),
    }
}
