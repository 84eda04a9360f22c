ghost use Rattle.std.specs.Prelude.{◌≡◌, ◌<◌, ◌+◌, ◌^◌, IfOk, get_or};
ghost use Rattle.spv_module.specs.Texts.{word_at, text_words};

use ports::OutOfMemory;
use std::alloc::Global;

/// The words of a text as a literal string (SPIR-V 1.2, 2.2.1).
///
/// `OutOfMemory` comes for want of memory alone.
pub(crate) fn text_words(alloc: Global, text: &[u8]) -> Result<Vec<u32>, OutOfMemory>
    ensures { IfOk result (λ words. words.items ≡ text_words text.now) }
{
    let mut words = Vec::new(alloc);
    for k in 0..text.len() / 4 + 1 {
        words.push(word_at(text, 4 * k))?;
    }
    Ok(words)
}

/// The word whose lowest byte stands at a place of the text.
fn word_at(text: &[u8], at: usize) -> u32
    requires { at + 3 < 2 ^ 64 }
    ensures { result ≡ word_at text.now at }
{
    byte_at(text, at)
        + 256 * byte_at(text, at + 1)
        + 65536 * byte_at(text, at + 2)
        + 16777216 * byte_at(text, at + 3)
}

/// The byte at a place of the text, or 0 behind its end.
fn byte_at(text: &[u8], at: usize) -> u32
    ensures byte { result ≡ get_or text.now at 0 }
    ensures range { result < 256 }
{
    match text.get(at) {
        Some(byte) => u32::from(*byte),
        None => 0,
    }
}
