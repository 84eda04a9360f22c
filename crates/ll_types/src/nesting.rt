ghost use Rattle.std.specs.Prelude.{◌≡◌, ◌≤◌, false, IfOk, drop, length};
ghost use Rattle.ll_tokens.specs.Tokens.{lexemes_of};
ghost use Rattle.ll_types.specs.Nesting.{
  begins_group,
  bracket_at,
  bracket_of,
  depth_of,
  first_byte,
  first_mark,
  group_behind,
  is_too_deep,
  mark_code,
  nesting_refusal,
  open_behind,
  without_last,
};

use ll_parser::Refusal;
use ll_tokens::{Token, TokenKind};
use sqlite_items::Items;
use std::alloc::{AllocError, Global};

/// The rule that a bracket breaks which is nested too deep.
pub const TOO_DEEP: u16 = 5;

/// How deep brackets may be nested.
const DEEPEST: usize = 100;

/// What a token is as a bracket.
#[derive(Clone, Copy, Debug, PartialEq, Eq)]
pub enum Bracket {
    /// An opening one.
    Counted,
    /// A `<` before a `{`.
    Uncounted,
    Closing,
    /// No bracket.
    Plain,
}

/// The refusal of the first bracket that is nested deeper than 100, by rule 5: `(`, `[`, `{`, and a `<` whose next token
/// isn't `{`. Between the braces of an attribute group brackets are tokens as any other. None exactly where no bracket
/// is nested so deep. It fails only for want of memory.
pub fn too_deep(alloc: Global, tokens: &[Token<'_>]) -> Result<Option<Refusal>, AllocError>
    ensures { IfOk result (λ found. found ≡ nesting_refusal (lexemes_of tokens.now)) }
{
    let mut brackets = Items::new(alloc);
    let mut depth: usize = 0;
    let mut in_group = false;
    for i in 0..tokens.len() {
        let here = from(tokens, i);
        let bracket = bracket_at(in_group, here);
        if is_too_deep(bracket, depth) {
            return Ok(Some(Refusal {
                rule: TOO_DEEP,
                left: here.len(),
            }));
        }
        depth = depth_behind(&mut brackets, depth, bracket)?;
        in_group = group_behind(in_group, here);
    }
    Ok(None)
}

/// The tokens from a place on.
fn from<'t, 'a>(tokens: &'t [Token<'a>], place: usize) -> &'t [Token<'a>]
    requires { place ≤ length tokens.now }
    ensures { result.now ≡ drop place tokens.now }
{
    &tokens[place..]
}

/// What the first token is as a bracket, inside an attribute group or not.
fn bracket_at(in_group: bool, tokens: &[Token<'_>]) -> Bracket
    ensures { result ≡ bracket_at in_group (lexemes_of tokens.now) }
{
    match tokens {
        [first, behind @ ..] if !in_group => bracket_of(mark_code(first), first_mark(behind)),
        _ => Bracket::Plain,
    }
}

fn bracket_of(code: u8, next: u8) -> Bracket
    ensures { result ≡ bracket_of code next }
{
    match code {
        b'(' | b'[' | b'{' => Bracket::Counted,
        b'<' if next == b'{' => Bracket::Uncounted,
        b'<' => Bracket::Counted,
        b')' | b']' | b'}' | b'>' => Bracket::Closing,
        _ => Bracket::Plain,
    }
}

/// The byte of a punctuation mark, and 0 for every other token.
fn mark_code(token: &Token<'_>) -> u8
    ensures { result ≡ mark_code token.now.kind token.now.text.now }
{
    match token.kind {
        TokenKind::Punct => first_byte(token.text.as_bytes()),
        _ => 0,
    }
}

fn first_byte(text: &[u8]) -> u8
    ensures { result ≡ first_byte text.now }
{
    match text {
        [byte, ..] => *byte,
        [] => 0,
    }
}

fn first_mark(tokens: &[Token<'_>]) -> u8
    ensures { result ≡ first_mark (lexemes_of tokens.now) }
{
    match tokens {
        [first, ..] => mark_code(first),
        [] => 0,
    }
}

/// Whether an attribute group goes on behind the first token.
fn group_behind(in_group: bool, tokens: &[Token<'_>]) -> bool
    ensures { result ≡ group_behind in_group (lexemes_of tokens.now) }
{
    match tokens {
        [] => in_group,
        [first, ..] if in_group => mark_code(first) != b'}',
        [first, ..] => begins_group(first),
    }
}

fn begins_group(token: &Token<'_>) -> bool
    ensures { result ≡ begins_group token.now.kind token.now.text.now }
{
    match token.kind {
        TokenKind::Word => token.text == "attributes",
        _ => false,
    }
}

/// Whether a bracket that opens at this depth is nested too deep.
fn is_too_deep(bracket: Bracket, depth: usize) -> bool
    ensures { result ≡ is_too_deep bracket depth }
{
    match bracket {
        Bracket::Counted => depth >= DEEPEST,
        _ => false,
    }
}

/// Notes a bracket, and gives the depth behind it.
fn depth_behind(
    brackets: &mut Items<bool>,
    depth: usize,
    bracket: Bracket,
) -> Result<usize, AllocError>
    requires counted { depth ≡ depth_of brackets.old }
    requires no_deeper { depth ≤ 100 }
    requires fits { is_too_deep bracket depth ≡ false }
    ensures brackets { IfOk result (λ behind. brackets.new ≡ open_behind brackets.old bracket) }
    ensures depth { IfOk result (λ behind. behind ≡ depth_of brackets.new) }
    ensures no_deeper { IfOk result (λ behind. behind ≤ 100) }
{
    match bracket {
        Bracket::Counted => {
            brackets.push(true)?;
            Ok(depth + 1)
        }
        Bracket::Uncounted => {
            brackets.push(false)?;
            Ok(depth)
        }
        Bracket::Closing => Ok(depth_behind_last(brackets, depth)),
        Bracket::Plain => Ok(depth),
    }
}

/// Takes the last bracket away, if there is one, and gives the depth without it.
fn depth_behind_last(brackets: &mut Items<bool>, depth: usize) -> usize
    requires { depth ≡ depth_of brackets.old }
    ensures brackets { brackets.new ≡ without_last brackets.old }
    ensures depth { result ≡ depth_of brackets.new }
    ensures no_deeper { result ≤ depth }
{
    match brackets.pop() {
        Some(is_counted) => { if is_counted { depth - 1 } else { depth } }
        None => depth,
    }
}
