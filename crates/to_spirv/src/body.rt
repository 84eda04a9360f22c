ghost use Rattle.std.specs.Prelude.{◌≡◌, ◌++◌, ◌∷◌, [], IfOk, All, map};
ghost use Rattle.to_spirv.specs.Partner.{inst_partner, end_of_block, param_partner, param_id, function_partner, body_partner};
ghost use Rattle.to_spirv.specs.Ranges.{HasIds, HasInstIds, HasParamId};

use crate::ids::Ids;
use crate::lists::one;
use crate::operations::{end_of_block, inst_partner};
use inst_walk::{Block, Body};
use kernel_tree::{Kernel, KernelInst, KernelParam};
use ports::OutOfMemory;
use spv_module::{Function, Param, SpvInst};
use sqlite_items::Items;
use std::alloc::Global;

/// The function of a kernel but for its body.
pub(crate) fn function_partner(
    alloc: Global,
    kernel: &Kernel,
    ids: Ids,
) -> Result<Function, OutOfMemory>
    requires { HasIds ids kernel.now }
    ensures { IfOk result (λ it. it ≡ function_partner ids kernel.now) }
{
    Ok(Function {
        id: ids.function,
        result: ids.void,
        ty: ids.function_type,
        params: Items::from_vec(param_partners(alloc, kernel.params.as_slice(), ids)?),
        labels: Items::from_slice(alloc, &[0])?,
        place: 0,
    })
}

/// The body of a kernel's function.
pub(crate) fn body_partner(
    alloc: Global,
    kernel: &Kernel,
    ids: Ids,
) -> Result<Body<SpvInst>, OutOfMemory>
    requires { HasIds ids kernel.now }
    ensures { IfOk result (λ it. it ≡ body_partner ids kernel.now) }
{
    let block = Block {
        name: ids.named(kernel.block),
        insts: Items::from_vec(inst_partners(alloc, kernel.insts.as_slice(), ids)?),
    };
    Ok(Body {
        params: Items::from_vec(param_ids(alloc, kernel.params.as_slice(), ids)?),
        blocks: one(alloc, block)?,
    })
}

fn param_partners(
    alloc: Global,
    params: &[KernelParam],
    ids: Ids,
) -> Result<Vec<Param>, OutOfMemory>
    requires { All (HasParamId ids) params.now }
    ensures { IfOk result (λ all. all.items ≡ map (param_partner ids) params.now) }
{
    let mut all = Vec::new(alloc);
    for param in params {
        all.push(param_partner(*param, ids))?;
    }
    Ok(all)
}

fn param_partner(param: KernelParam, ids: Ids) -> Param
    requires { HasParamId ids param }
    ensures { result ≡ param_partner ids param }
{
    Param {
        id: ids.named(param.name),
        ty: ids.value_type(param.value_type),
        place: 0,
    }
}

fn param_ids(alloc: Global, params: &[KernelParam], ids: Ids) -> Result<Vec<u32>, OutOfMemory>
    requires { All (HasParamId ids) params.now }
    ensures { IfOk result (λ all. all.items ≡ map (param_id ids) params.now) }
{
    let mut all = Vec::new(alloc);
    for param in params {
        all.push(ids.named(param.name))?;
    }
    Ok(all)
}

/// The instructions of the block, with the one that ends it.
fn inst_partners(alloc: Global, insts: &[KernelInst], ids: Ids) -> Result<Vec<SpvInst>, OutOfMemory>
    requires { All (HasInstIds ids) insts.now }
    ensures { IfOk result (λ all. all.items ≡ map (inst_partner ids) insts.now ++ end_of_block ∷ []) }
{
    let mut all = Vec::new(alloc);
    for inst in insts {
        all.push(inst_partner(alloc, *inst, ids)?)?;
    }
    all.push(end_of_block(alloc)?)?;
    Ok(all)
}
