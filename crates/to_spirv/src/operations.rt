ghost use Rattle.std.specs.Prelude.{◌≡◌, IfOk};
ghost use Rattle.to_spirv.specs.Partner.{spv_inst, inst_partner, end_of_block};
ghost use Rattle.to_spirv.specs.Ranges.{HasInstIds};

use crate::ids::Ids;
use kernel_tree::KernelInst;
use ports::OutOfMemory;
use spv_layout::Opcode;
use spv_module::{Operands, SpvInst};
use sqlite_items::Items;
use std::alloc::Global;

/// The words behind an access: the mask Aligned, and the alignment in bytes (SPIR-V 1.2, 3.26 "Memory Access").
const ALIGNED_WORDS: [u32; 2] = [2, 4];

/// The instruction that an instruction of a kernel becomes.
pub(crate) fn inst_partner(
    alloc: Global,
    inst: KernelInst,
    ids: Ids,
) -> Result<SpvInst, OutOfMemory>
    requires { HasInstIds ids inst }
    ensures { IfOk result (λ it. it ≡ inst_partner ids inst) }
{
    match inst {
        KernelInst::Add { sum, left, right } => {
            let operands = [ids.named(left), ids.named(right)];
            spv_inst(alloc, Opcode::IAdd, ids.int, ids.named(sum), &operands, &[])
        }
        KernelInst::Load {
            loaded,
            pointer,
            is_aligned: _,
        } => {
            let operands = [ids.named(pointer)];
            let result_id = ids.named(loaded);
            spv_inst(
                alloc,
                Opcode::Load,
                ids.int,
                result_id,
                &operands,
                &ALIGNED_WORDS,
            )
        }
        KernelInst::Store {
            value,
            pointer,
            is_aligned: _,
        } => {
            let operands = [ids.named(pointer), ids.named(value)];
            spv_inst(alloc, Opcode::Store, 0, 0, &operands, &ALIGNED_WORDS)
        }
    }
}

/// The instruction that ends the block.
pub(crate) fn end_of_block(alloc: Global) -> Result<SpvInst, OutOfMemory>
    ensures { IfOk result (λ it. it ≡ end_of_block) }
{
    spv_inst(alloc, Opcode::Return, 0, 0, &[], &[])
}

/// An instruction with these ids and these literal words behind its result.
fn spv_inst(
    alloc: Global,
    opcode: Opcode,
    ty: u32,
    id: u32,
    ids: &[u32],
    words: &[u32],
) -> Result<SpvInst, OutOfMemory>
    ensures { IfOk result (λ it. it ≡ spv_inst opcode ty id ids.now words.now) }
{
    Ok(SpvInst {
        op: opcode.number(),
        ty,
        result: id,
        operands: Operands {
            ids: Items::from_slice(alloc, ids)?,
            words: Items::from_slice(alloc, words)?,
        },
        place: 0,
    })
}
