ghost use Rattle.std.specs.Prelude.{◌≡◌, ◌+◌, ◌<◌, ◌≤◌, length, IfSome};
ghost use Rattle.std.specs.List.{prefix_len};
ghost use Rattle.std.specs.Option.{option_copied};
ghost use Rattle.ll_tokens.specs.Forms.{in_class, Form, One, Run, End, Byte, Until, Either};
ghost use Rattle.ll_tokens.specs.Reach.{reach, longer, with_next, reach_behind, body_form};
ghost use Rattle.ll_tokens.specs.Tokens.{quoted, form_of};

use crate::bytes::{ByteClass, run_len};
use crate::kinds::TokenKind;

/// What follows the sign at a token's front.
#[derive(Clone, Copy)]
pub enum Body {
    Empty,
    Digits,

    /// A name without quotes.
    Name,
    Quoted,

    /// Digits, a name or a quoted text.
    Named,
}

/// How many bytes the longest front of the kind has, where `label_run` bytes that a label may have
/// stand at the front.
pub fn token_len(kind: TokenKind, bytes: &[u8], label_run: usize) -> Option<usize>
    requires { label_run ≡ prefix_len (in_class ByteClass.Name) bytes.now }
    ensures { result ≡ reach (form_of kind) bytes.now }
{
    match kind {
        TokenKind::Label => longer(plain_label_len(bytes, label_run), quoted_label_len(bytes)),
        TokenKind::Local => len_behind(b'%', Body::Named, bytes),
        TokenKind::Global => len_behind(b'@', Body::Named, bytes),
        TokenKind::Mdn => len_behind(b'!', Body::Digits, bytes),
        TokenKind::MdName => len_behind(b'!', Body::Name, bytes),
        TokenKind::MdStr => len_behind(b'!', Body::Quoted, bytes),
        TokenKind::Bang => len_behind(b'!', Body::Empty, bytes),
        TokenKind::Attr => len_behind(b'#', Body::Digits, bytes),
        TokenKind::Str => string_len(bytes),
        TokenKind::CStr => len_behind(b'c', Body::Quoted, bytes),
        TokenKind::Int => longer(
            body_len(Body::Digits, bytes),
            len_behind(b'-', Body::Digits, bytes),
        ),
        TokenKind::Word => first_and_run_len(ByteClass::WordStart, ByteClass::Word, bytes),
        TokenKind::Punct => one_len(ByteClass::Punctuation, bytes),
    }
}

fn longer(a: Option<usize>, b: Option<usize>) -> Option<usize>
    ensures { result ≡ longer a b }
{
    match (a, b) {
        (Some(m), Some(n)) => Some(m.max(n)),
        (None, _) => b,
        (_, None) => a,
    }
}

/// The bytes behind the first one, where that is of the class.
fn behind_one(first: ByteClass, bytes: &[u8]) -> Option<&[u8]>
    ensures reach { (f : Form) → reach (One first f) bytes.now ≡ reach_behind f (option_copied result) }
    ensures shorter { IfSome result (λ rest. length rest.now + 1 ≡ length bytes.now) }
{
    let (byte, rest) = bytes.split_first()?;
    first.contains(*byte).then_some(rest)
}

/// The bytes behind the first one, where that is `first`.
fn behind_byte(first: u8, bytes: &[u8]) -> Option<&[u8]>
    ensures reach { (f : Form) → reach (Byte first f) bytes.now ≡ reach_behind f (option_copied result) }
    ensures shorter { IfSome result (λ rest. length rest.now + 1 ≡ length bytes.now) }
{
    let (byte, rest) = bytes.split_first()?;
    (*byte == first).then_some(rest)
}

/// One byte more than `len`, where the byte behind `len` bytes is `next`.
fn with_next(next: u8, bytes: &[u8], len: usize) -> Option<usize>
    requires { 0 < next }
    ensures { result ≡ with_next next bytes.now len }
{
    if len < bytes.len() && bytes[len] == next {
        Some(len + 1)
    } else {
        None
    }
}

/// The length of one byte of the class.
fn one_len(class: ByteClass, bytes: &[u8]) -> Option<usize>
    ensures { result ≡ reach (One class End) bytes.now }
{
    behind_one(class, bytes)?;
    Some(1)
}

/// The length of one byte of the class `first`, then bytes of the class `then`.
fn first_and_run_len(first: ByteClass, then: ByteClass, bytes: &[u8]) -> Option<usize>
    ensures { result ≡ reach (One first (Run then)) bytes.now }
{
    let rest = behind_one(first, bytes)?;
    Some(1 + run_len(then, rest))
}

/// The length of a quoted text. No backslash hides a quote.
fn string_len(bytes: &[u8]) -> Option<usize>
    ensures { result ≡ reach (quoted End) bytes.now }
{
    let rest = behind_byte(b'"', bytes)?;
    let end = with_next(b'"', rest, run_len(ByteClass::Unquoted, rest))?;
    Some(1 + end)
}

/// The length of a quoted text and `:`.
fn quoted_label_len(bytes: &[u8]) -> Option<usize>
    ensures { result ≡ reach (quoted (Byte 58 End)) bytes.now }
{
    let end = string_len(bytes)?;
    with_next(b':', bytes, end)
}

/// The length of a label without quotes, where `run` bytes that it may have stand at the front. They
/// are not counted here, since many tokens may stand in one run.
fn plain_label_len(bytes: &[u8], run: usize) -> Option<usize>
    requires { run ≡ prefix_len (in_class ByteClass.Name) bytes.now }
    ensures { result ≡ reach (One ByteClass.Name (Until ByteClass.Name 58 End)) bytes.now }
{
    if run == 0 {
        return None;
    }
    with_next(b':', bytes, run)
}

fn body_len(body: Body, bytes: &[u8]) -> Option<usize>
    ensures { result ≡ reach (body_form body) bytes.now }
{
    match body {
        Body::Empty => Some(0),
        Body::Digits => first_and_run_len(ByteClass::Digit, ByteClass::Digit, bytes),
        Body::Name => first_and_run_len(ByteClass::NameStart, ByteClass::Name, bytes),
        Body::Quoted => string_len(bytes),
        Body::Named => longer(
            first_and_run_len(ByteClass::Digit, ByteClass::Digit, bytes),
            longer(
                first_and_run_len(ByteClass::NameStart, ByteClass::Name, bytes),
                string_len(bytes),
            ),
        ),
    }
}

/// The length of a sign and what follows it.
fn len_behind(sign: u8, body: Body, bytes: &[u8]) -> Option<usize>
    ensures { result ≡ reach (Byte sign (body_form body)) bytes.now }
{
    let rest = behind_byte(sign, bytes)?;
    let len = body_len(body, rest)?;
    Some(1 + len)
}
