ghost use Rattle.std.specs.Prelude.{◌≡◌, IfOk};
ghost use Rattle.to_llvm.specs.Guesses.{param_in, param_of, params_in};

use crate::ids::KnownIds;
use crate::operands::{is_op, operand};
use kernel_tree::KernelParam;
use ports::OutOfMemory;
use spv_codec::RawInst;
use spv_layout::Opcode;
use std::alloc::Global;

/// The parameters that instructions have.
pub(crate) fn params(
    alloc: Global,
    insts: &[RawInst],
    ids: KnownIds,
) -> Result<Vec<KernelParam>, OutOfMemory>
    ensures { IfOk result (λ params. params.items ≡ params_in ids insts.now) }
{
    let mut params = Vec::new(alloc);
    for inst in insts {
        if let Some(param) = param(inst, ids) {
            params.push(param)?;
        }
    }
    Ok(params)
}

/// The parameter that an instruction is. None exactly where it has another opcode.
fn param(inst: &RawInst, ids: KnownIds) -> Option<KernelParam>
    ensures { result ≡ param_in ids inst.now }
{
    if !is_op(inst, Opcode::FunctionParameter) {
        return None;
    }
    Some(param_of(inst.operands.as_slice(), ids))
}

fn param_of(words: &[u32], ids: KnownIds) -> KernelParam
    ensures { result ≡ param_of ids words.now }
{
    KernelParam {
        value_type: ids.value_type(operand(words, 0)),
        name: ids.name(operand(words, 1)),
    }
}
