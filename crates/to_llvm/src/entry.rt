ghost use Rattle.std.specs.Prelude.{◌≡◌, IfOk, drop};
ghost use Rattle.to_llvm.specs.Guesses.{before_zero, entry_text};

use crate::operands::first_operands;
use ports::OutOfMemory;
use spv_codec::RawInst;
use spv_layout::Opcode;
use spv_words::{Order, put_words};
use std::alloc::Global;

/// The name of the first entry point: the bytes of its literal string before the first zero byte (SPIR-V 1.2, 2.2.1).
pub(crate) fn entry_text(alloc: Global, insts: &[RawInst]) -> Result<Vec<u8>, OutOfMemory>
    ensures { IfOk result (λ text. text.items ≡ entry_text insts.now) }
{
    let words = behind_two(first_operands(insts, Opcode::EntryPoint));
    let bytes = put_words(alloc, Order::Little, words)?;
    before_zero(alloc, &bytes)
}

fn behind_two(words: &[u32]) -> &[u32]
    ensures { result.now ≡ drop 2 words.now }
{
    match words {
        [_, _, behind @ ..] => behind,
        _ => &[],
    }
}

/// The bytes before the first zero byte.
fn before_zero(alloc: Global, bytes: &[u8]) -> Result<Vec<u8>, OutOfMemory>
    ensures { IfOk result (λ text. text.items ≡ before_zero bytes.now) }
{
    let mut text = Vec::new(alloc);
    for byte in bytes {
        if *byte == 0 {
            return Ok(text);
        }
        text.push(*byte)?;
    }
    Ok(text)
}
