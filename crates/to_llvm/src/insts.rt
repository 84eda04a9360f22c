ghost use Rattle.std.specs.Prelude.{◌≡◌, IfOk};
ghost use Rattle.to_llvm.specs.Guesses.{inst_in, insts_in, load_of, store_of, sum_of};

use crate::ids::KnownIds;
use crate::operands::{is_op, operand};
use kernel_tree::KernelInst;
use ports::OutOfMemory;
use spv_codec::RawInst;
use spv_layout::Opcode;
use std::alloc::Global;

/// The instructions of a kernel that instructions stand for.
pub(crate) fn insts(
    alloc: Global,
    insts: &[RawInst],
    ids: KnownIds,
) -> Result<Vec<KernelInst>, OutOfMemory>
    ensures { IfOk result (λ made. made.items ≡ insts_in ids insts.now) }
{
    let mut made = Vec::new(alloc);
    for inst in insts {
        if let Some(inst) = inst_of(inst, ids) {
            made.push(inst)?;
        }
    }
    Ok(made)
}

/// The instruction of a kernel that an instruction stands for. None exactly where it is no OpIAdd, OpLoad or OpStore.
fn inst_of(inst: &RawInst, ids: KnownIds) -> Option<KernelInst>
    ensures { result ≡ inst_in ids inst.now }
{
    let words = inst.operands.as_slice();
    if is_op(inst, Opcode::IAdd) {
        Some(sum(words, ids))
    } else if is_op(inst, Opcode::Load) {
        Some(load(words, ids))
    } else if is_op(inst, Opcode::Store) {
        Some(store(words, ids))
    } else {
        None
    }
}

fn sum(words: &[u32], ids: KnownIds) -> KernelInst
    ensures { result ≡ sum_of ids words.now }
{
    KernelInst::Add {
        sum: ids.name(operand(words, 1)),
        left: ids.name(operand(words, 2)),
        right: ids.name(operand(words, 3)),
    }
}

fn load(words: &[u32], ids: KnownIds) -> KernelInst
    ensures { result ≡ load_of ids words.now }
{
    KernelInst::Load {
        loaded: ids.name(operand(words, 1)),
        pointer: ids.name(operand(words, 2)),
        is_aligned: true,
    }
}

fn store(words: &[u32], ids: KnownIds) -> KernelInst
    ensures { result ≡ store_of ids words.now }
{
    KernelInst::Store {
        value: ids.name(operand(words, 1)),
        pointer: ids.name(operand(words, 0)),
        is_aligned: true,
    }
}
