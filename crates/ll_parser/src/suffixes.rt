ghost use Rattle.std.specs.Prelude.{◌≡◌, ◌-◌, ◌≤◌, ◌↔◌, length, drop, IsTrue, MatchOption, MatchResult};
ghost use Rattle.ll_tokens.specs.Tokens.{lexemes_of};
ghost use Rattle.ll_parser.specs.GrammarTypes.{pointer};
ghost use Rattle.ll_parser.specs.Productions.{mark};
ghost use Rattle.ll_parser.specs.Reading.{EndsNowhere};
ghost use Rattle.ll_parser.specs.Spaces.{NoSpace};
ghost use Rattle.ll_parser.specs.Pointers.{NoPointer, PointerFails, PointersFail, pointers_here};

use crate::cursor::{take_mark, take_word};
use crate::refusal::{ReadError, Refusal};
use crate::spaces::space;
use ll_tokens::Token;
use sqlite_items::Items;
use std::alloc::Global;

/// The address spaces of the `*` with which the tokens begin, as many as there are, and the tokens behind them
/// (LLVM 14, Pointer Type). It fails for want of memory, and in an address space or behind one where no `*`
/// stands, by rule 4 at a number out of its range, else by rule 3.
pub fn pointers<'t, 'a>(
    alloc: Global,
    tokens: &'t [Token<'a>],
) -> Result<(Items<u64>, &'t [Token<'a>]), ReadError>
    ensures { MatchResult result
        (λ r. pointers_here r.0 (lexemes_of tokens.now) (lexemes_of r.1.now))
        (λ error. PointersFail (lexemes_of tokens.now) error) }
{
    let mut spaces = Items::new(alloc);
    let mut left = tokens.len();
    while let Some((value, behind)) = pointer(last(tokens, left))? {
        spaces.push(value)?;
        left = behind.len();
    }
    Ok((spaces, last(tokens, left)))
}

/// The last ones of these tokens, this many.
pub fn last<'t, 'a>(tokens: &'t [Token<'a>], count: usize) -> &'t [Token<'a>]
    requires { count ≤ length tokens.now }
    ensures { result.now ≡ drop (length tokens.now - count) tokens.now }
{
    &tokens[tokens.len() - count..]
}

/// The address space of the `*` with which the tokens begin, and the tokens behind it. None exactly where they
/// begin with none, nor with an `addrspace`.
fn pointer<'t, 'a>(tokens: &'t [Token<'a>]) -> Result<Option<(u64, &'t [Token<'a>])>, Refusal>
    ensures { MatchResult result
        (λ found. MatchOption found (NoPointer (lexemes_of tokens.now))
        (λ r. pointer r.0 (lexemes_of tokens.now) (lexemes_of r.1.now)))
        (λ refusal. PointerFails (lexemes_of tokens.now) refusal) }
{
    if begins_no_pointer(tokens) {
        return Ok(None);
    }
    let (value, behind) = space(tokens)?;
    let rest = take_mark(behind, b'*')?;
    Ok(Some((value, rest)))
}

/// Whether the tokens begin with neither `addrspace` nor `*`.
fn begins_no_pointer(tokens: &[Token<'_>]) -> bool
    ensures { IsTrue result ↔ NoPointer (lexemes_of tokens.now) }
{
    lacks_space(tokens) && lacks_star(tokens)
}

/// Whether the tokens don't begin with `addrspace`.
fn lacks_space(tokens: &[Token<'_>]) -> bool
    ensures { IsTrue result ↔ NoSpace (lexemes_of tokens.now) }
{
    match take_word(tokens, "addrspace") {
        Ok(_behind) => false,
        Err(_no_space) => true,
    }
}

/// Whether the tokens don't begin with `*`.
fn lacks_star(tokens: &[Token<'_>]) -> bool
    ensures { IsTrue result ↔ EndsNowhere (mark 42) (lexemes_of tokens.now) }
{
    match take_mark(tokens, b'*') {
        Ok(_behind) => false,
        Err(_no_star) => true,
    }
}
