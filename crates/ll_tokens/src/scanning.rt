ghost use Rattle.std.specs.Prelude.{◌≡◌, ◌+◌, ◌<◌, ◌≤◌, ◌↔◌, [], length, All, IfOk, IfErr, IfSome, IsNone};
ghost use Rattle.std.specs.List.{prefix_len};
ghost use Rattle.ll_tokens.specs.Forms.{in_class};
ghost use Rattle.ll_tokens.specs.Tokens.{
  lexemes_of,
  IsTokenized,
  IsTokens,
  IsTokenError,
  IsSliceOf,
  PlacesRise,
};

use crate::bytes::{ByteClass, run_len};
use crate::gaps::behind_gap;
use crate::kinds::Token;
use crate::longest::longest;
use ports::{LlError, LlFault, OutOfMemory};
use std::alloc::Global;

/// The rule that a place breaks where no token begins.
const NO_TOKEN: u16 = 2;

/// The tokens of a text, or of its front.
#[derive(Debug, Drop)]
pub struct Tokenized<'a> {
    /// The tokens, up to the end of the text or to the fault.
    pub tokens: Vec<Token<'a>>,

    /// The first place where no token begins, if there is one.
    pub fault: Option<LlFault>,
}

/// The tokens of a text (LLVM 14 Language Reference, "Identifiers" and "String constants"), each the
/// longest that begins at its place, with blanks and comments between them; up to the first place where
/// no token begins. It fails only for want of memory.
pub fn tokenize<'a>(alloc: Global, text: &'a str) -> Result<Tokenized<'a>, OutOfMemory>
    ensures { IfOk result (λ t. IsTokenized text.now (lexemes_of t.tokens.items) t.fault) }
{
    let mut tokens = Vec::new(alloc);
    let mut rest = behind_gap(text);
    let mut label_run = run_len(ByteClass::Name, rest.as_bytes());
    while let Some(front) = longest(rest.as_bytes(), label_run) {
        let (token, after) = rest.split_at(front.len);
        tokens.push(Token {
            kind: front.kind,
            text: token,
            byte: place_of(rest, text),
        })?;
        rest = behind_gap(after);
        label_run = label_run_behind(label_run, front.len, rest.as_bytes());
    }
    let fault = fault_before(rest, text);
    Ok(Tokenized { tokens, fault })
}

/// The byte of the text where `rest` begins, with which it ends.
fn place_of(rest: &str, text: &str) -> u64
    requires { length rest.now ≤ length text.now }
    ensures { result + length rest.now ≡ length text.now }
{
    (text.len() - rest.len()) as u64
}

/// The rule that is broken where `rest` begins and no token does, if it isn't the end of the text.
fn fault_before(rest: &str, text: &str) -> Option<LlFault>
    requires { length rest.now ≤ length text.now }
    ensures none { IsNone result ↔ (rest.now ≡ []) }
    ensures fault { IfSome result (λ f. (f.rule ≡ 2) × (f.byte + length rest.now ≡ length text.now)) }
{
    if rest.is_empty() {
        return None;
    }
    let byte = place_of(rest, text);
    Some(LlFault {
        rule: NO_TOKEN,
        byte,
    })
}

/// How many bytes that a label may have stand at the front of `rest`, behind a token of `len` bytes
/// that had `run` of them at its front. Bytes of one run are counted once, however many tokens it has.
fn label_run_behind(run: usize, len: usize, rest: &[u8]) -> usize
    requires { len < run → run ≡ len + prefix_len (in_class ByteClass.Name) rest.now }
    ensures { result ≡ prefix_len (in_class ByteClass.Name) rest.now }
{
    if len < run {
        run - len
    } else {
        run_len(ByteClass::Name, rest)
    }
}

/// The tokens of a text (LLVM 14 Language Reference, "Identifiers" and "String constants"), in order,
/// each with the byte where it begins. It fails for want of memory, and by rule 2 at the first place
/// where no token begins, as at a character that no token begins with or at a quoted text that doesn't
/// end.
pub fn tokens<'a>(alloc: Global, text: &'a str) -> Result<Vec<Token<'a>>, LlError>
    ensures exact { IfOk result (λ v. IsTokens text.now (lexemes_of v.items)) }
    ensures slices { IfOk result (λ v. All (IsSliceOf text.now) (lexemes_of v.items)) }
    ensures rising { IfOk result (λ v. PlacesRise (lexemes_of v.items)) }
    ensures fault { IfErr result (IsTokenError text.now) }
{
    let Tokenized { tokens, fault } = tokenize(alloc, text)?;
    match fault {
        None => Ok(tokens),
        Some(fault) => Err(LlError::Fault(fault)),
    }
}
