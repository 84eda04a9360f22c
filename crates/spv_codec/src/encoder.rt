ghost use Rattle.std.specs.Prelude.{◌≡◌, ◌<◌, ◌++◌, length, All, IfOk, OnOk};
ghost use Rattle.spv_words.specs.Words.{words_bytes};
ghost use Rattle.spv_codec.specs.Framing.{module_words};
ghost use Rattle.spv_codec.specs.Instructions.{spelling};

use crate::module::{RawInst, RawModule};
use ports::OutOfMemory;
use spv_words::{MAGIC, Order, put_words};
use std::alloc::Global;

/// The bytes of a module in a byte order, which need not be the one that it came in (SPIR-V 1.2, 2.3). Each instruction has at most
/// 65,535 words.
///
/// Where the module keeps the rules of framing, decoding the bytes gives it back, with this order.
pub fn encode(alloc: Global, raw: &RawModule, order: Order) -> Result<Vec<u8>, OutOfMemory>
    requires { All (λ inst. length inst.operands < 65535) raw.now.insts }
    ensures { IfOk result (λ bytes. bytes.items ≡ words_bytes order (module_words raw.now)) }
{
    let words = words_of(alloc, raw)?;
    put_words(alloc, order, &words)
}

/// The words of a module.
fn words_of(alloc: Global, raw: &RawModule) -> Result<Vec<u32>, OutOfMemory>
    requires { All (λ inst. length inst.operands < 65535) raw.now.insts }
    ensures { IfOk result (λ words. words.items ≡ module_words raw.now) }
{
    let header = [MAGIC, raw.version, raw.generator, raw.bound, 0];
    let mut words = Vec::from_slice(alloc, &header)?;
    for inst in raw.insts.as_slice() {
        push_instruction(&mut words, inst)?;
    }
    Ok(words)
}

/// Appends the words of an instruction.
fn push_instruction(words: &mut Vec<u32>, inst: &RawInst) -> Result<(), OutOfMemory>
    requires { length inst.now.operands < 65535 }
    ensures { OnOk result (words.new.items ≡ words.old.items ++ spelling inst.now) }
{
    let op = inst.op;
    let count = inst.operands.len() as u32 + 1;
    words.push(65536 * count + u32::from(op))?;
    words.extend_from_slice(inst.operands.as_slice())?;
    Ok(())
}
