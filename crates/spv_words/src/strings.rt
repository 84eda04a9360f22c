ghost use Rattle.std.specs.Prelude.{◌≡◌, ◌≢◌, ◌↔◌, ℕ, ◌+◌, ◌-◌, ◌*◌, ◌/◌, ◌%◌, ◌≤◌, ◌<◌, List, ◌++◌, length, take, drop, slice_index, vec_len, string_bytes, All, IfOk, IfSome, IfNone, IsTrue, Err};
ghost use Rattle.std.specs.Int.{to_le_bytes, w32};
ghost use Rattle.spv_words.specs.Words.{IsWords};
ghost use Rattle.spv_words.specs.Strings.{BeginsString, terminated};

use crate::words::{Order, put_words};
use ports::OutOfMemory;
use std::alloc::{AllocError, Global};
use std::error::Error;
use std::fmt;

/// Why words begin no string.
#[derive(Clone, Copy, Debug, PartialEq, Eq, Hash)]
pub enum StringError {
    NoMemory,
    /// There is no zero byte, or another byte follows it in its word, or what stands before it is no UTF-8.
    Bad,
}

impl fmt::Display for StringError {
    fn fmt<W: fmt::Write>(&self, f: &mut fmt::Formatter<W>) -> fmt::Result {
        f.write_str(match self {
            StringError::NoMemory => "out of memory",
            StringError::Bad => "the words begin no string",
        })
    }
}

impl Error for StringError {}

impl From<OutOfMemory> for StringError {
    ghost use Rattle.spv_words.specs.declared.strings.StringError.TheVariants.{NoMemory};

    ghost from_gives = { λ _ error. error ≡ NoMemory };

    fn from(_refused: OutOfMemory) -> StringError {
        StringError::NoMemory
    }
}

impl From<AllocError> for StringError {
    ghost use Rattle.spv_words.specs.declared.strings.StringError.TheVariants.{NoMemory};

    ghost from_gives = { λ _ error. error ≡ NoMemory };

    fn from(_refused: AllocError) -> StringError {
        StringError::NoMemory
    }
}

/// The words of a text as a literal string: its bytes in UTF-8, the first one lowest in its word, then a zero byte, and zero
/// bytes up to the end of the word (SPIR-V 1.2, 2.2.1). Read back, it ends at the first zero byte, so a text that has one
/// does not come back whole.
pub fn string_words(alloc: Global, text: &str) -> Result<Vec<u32>, OutOfMemory>
    ensures { IfOk result (λ words. IsWords (terminated text.now) Order.Little words.items) }
{
    let bytes = terminated_bytes(alloc, text.as_bytes())?;
    little_words(alloc, &bytes)
}

/// The bytes of a text with the zero bytes that end it and fill its last word.
fn terminated_bytes(alloc: Global, text: &[u8]) -> Result<Vec<u8>, OutOfMemory>
    ensures bytes { IfOk result (λ bytes. bytes.items ≡ terminated text.now) }
    ensures whole { IfOk result (λ bytes. vec_len bytes % 4 ≡ 0) }
{
    let padding = 4 - text.len() % 4;
    let mut bytes = Vec::from_slice(alloc, text)?;
    bytes.extend_from_slice(&[0; 4][..padding])?;
    Ok(bytes)
}

/// The words of bytes that are whole words, in little order.
fn little_words(alloc: Global, bytes: &[u8]) -> Result<Vec<u32>, OutOfMemory>
    requires { length bytes.now % 4 ≡ 0 }
    ensures { IfOk result (λ words. IsWords bytes.now Order.Little words.items) }
{
    let mut words = Vec::new(alloc);
    for i in 0..bytes.len() / 4 {
        words.push(little_word(bytes, 4 * i))?;
    }
    Ok(words)
}

/// The word of the four bytes that begin at `at`.
fn little_word(bytes: &[u8], at: usize) -> u32
    requires { at + 4 ≤ length bytes.now }
    ensures { to_le_bytes w32 result ≡ take 4 (drop at bytes.now) }
{
    u32::from_le_bytes([bytes[at], bytes[at + 1], bytes[at + 2], bytes[at + 3]])
}

/// The text of the literal string that words begin with, and how many words it takes (SPIR-V 1.2, 2.2.1).
///
/// `Bad` comes exactly where the words begin no string: where there is no zero byte, where another byte stands behind it in its
/// word, or where what stands before it is no UTF-8.
pub fn words_string(alloc: Global, words: &[u32]) -> Result<(String, usize), StringError>
    ensures read { IfOk result (λ read. BeginsString words.now (string_bytes read.0) read.1) }
    ensures bad { result ≡ Err StringError.Bad → (text : List ℕ) (used : ℕ) → ¬ BeginsString words.now text used }
{
    let bytes = put_words(alloc, Order::Little, words)?;
    let Some(len) = first_zero(&bytes) else {
        return Err(StringError::Bad);
    };
    let used = len / 4 + 1;
    if !are_zero(&bytes[len..4 * used]) {
        return Err(StringError::Bad);
    }
    let Ok(text) = str::from_utf8(&bytes[..len]) else {
        return Err(StringError::Bad);
    };
    Ok((String::from_str(alloc, text)?, used))
}

/// Where the first zero byte stands.
fn first_zero(bytes: &[u8]) -> Option<usize>
    ensures none { IfNone result (All (λ byte. byte ≢ 0) bytes.now) }
    ensures within { IfSome result (λ at. at < length bytes.now) }
    ensures zero { IfSome result (λ at. slice_index bytes.now at ≡ 0) }
    ensures before { IfSome result (λ at. All (λ byte. byte ≢ 0) (take at bytes.now)) }
{
    bytes.iter().position(|byte| *byte == 0)
}

/// Whether all bytes are zero.
fn are_zero(bytes: &[u8]) -> bool
    ensures { IsTrue result ↔ All (λ byte. byte ≡ 0) bytes.now }
{
    bytes.iter().all(|byte| *byte == 0)
}
