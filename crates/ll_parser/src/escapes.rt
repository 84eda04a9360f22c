ghost use Rattle.std.specs.Prelude.{◌≡◌, ◌+◌, ◌*◌, ◌<◌, ◌≤◌, ◌∷◌, length, drop, IfOk};
ghost use Rattle.std.specs.Char.{digit_value};
ghost use Rattle.ll_parser.specs.Spellings.{unescaped};

use sqlite_items::Items;
use std::alloc::{AllocError, Global};

/// What a text between quotes stands for: `\\` a backslash, and a backslash with two hexadecimal digits the byte
/// that they spell (LLVM 14, Identifiers). It fails only for want of memory.
#[tactic(auto, unfolding(crate::specs::Spellings::unescaped))]
pub fn unescaped(alloc: Global, text: &[u8]) -> Result<Items<u8>, AllocError>
    ensures { IfOk result (λ bytes. bytes ≡ unescaped text.now) }
{
    let mut bytes = Items::new(alloc);
    let mut at: usize = 0;
    while at < text.len() {
        let (byte, len) = first_byte(&text[at..]);
        bytes.push(byte)?;
        at += len;
    }
    Ok(bytes)
}

/// The first byte that a text stands for, and how many bytes of the text spell it.
#[tactic(auto, unfolding(crate::specs::Spellings::unescaped))]
fn first_byte(text: &[u8]) -> (u8, usize)
    requires { 0 < length text.now }
    ensures byte { unescaped text.now ≡ result.0 ∷ unescaped (drop result.1 text.now) }
    ensures some { 0 < result.1 }
    ensures within { result.1 ≤ length text.now }
{
    match text {
        [b'\\', b'\\', ..] => (b'\\', 2),
        [b'\\', high, low, ..] if high.is_ascii_hexdigit() && low.is_ascii_hexdigit() => {
            (byte_of(*high, *low), 3)
        }
        [first, ..] => (*first, 1),
        [] => (0, 0),
    }
}

/// The byte that two hexadecimal digits spell.
fn byte_of(high: u8, low: u8) -> u8
    requires high { digit_value high < 16 }
    requires low { digit_value low < 16 }
    ensures { result ≡ 16 * digit_value high + digit_value low }
{
    16 * nibble(high) + nibble(low)
}

/// The number that a hexadecimal digit spells.
fn nibble(digit: u8) -> u8
    requires { digit_value digit < 16 }
    ensures { result ≡ digit_value digit }
{
    match char::from(digit).to_digit(16) {
        Some(value) => value as u8,
        None => 0,
    }
}
