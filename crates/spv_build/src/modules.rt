ghost use Rattle.std.specs.Prelude.{◌≡◌, ◌≤◌, ℕ, nat_eq, take, length, slice_get, IfOk};
ghost use Rattle.std.specs.HashMap.{get};
ghost use Rattle.spv_names.specs.Definitions.{entry_of};
ghost use Rattle.spv_build.specs.Items.{items_of, source_of};
ghost use Rattle.spv_build.specs.Modules.{before_functions, model_of, pointer_width, module_by, module_of};

use crate::entries::entries_of;
use crate::functions::read_functions;
use crate::items::items_of;
use crate::kept::kept_of;
use kern_types::PointerWidth;
use ports::OutOfMemory;
use spv_codec::{RawInst, RawModule};
use spv_module::{MemoryModel, SourceVersion, SpvModule};
use spv_names::{Definitions, function_section};
use spv_sections::begins_functions;
use spv_types::types_of;
use sqlite_items::Items;
use std::alloc::Global;

/// The module that the instructions of a binary say. Dropped instructions leave nothing behind.
///
/// `OutOfMemory` comes for want of memory alone.
#[tactic(auto, unfolding(crate::specs::Modules::module_of))]
pub(crate) fn module_of(alloc: Global, raw: &RawModule) -> Result<SpvModule, OutOfMemory>
    ensures { IfOk result (λ m. m ≡ module_of raw.now) }
{
    let insts = raw.insts.as_slice();
    let definitions = Definitions::of(alloc, insts)?;
    let kept = kept_of(alloc, insts, &definitions)?;
    module_by(alloc, raw, &definitions, &kept)
}

/// The module of kept instructions.
fn module_by(
    alloc: Global,
    raw: &RawModule,
    definitions: &Definitions,
    insts: &[RawInst],
) -> Result<SpvModule, OutOfMemory>
    requires { (id : ℕ) → get nat_eq definitions.now.first id ≡ entry_of raw.now.insts id }
    ensures { IfOk result (λ m. m ≡ module_by raw.now insts.now) }
{
    let model = model_of(alloc, insts)?;
    let functions = read_functions(
        alloc,
        raw.insts.as_slice(),
        definitions,
        function_section(insts),
    )?;
    Ok(SpvModule {
        order: raw.order,
        version: raw.version,
        bound: raw.bound,
        capabilities: Items::from_vec(items_of(alloc, insts)?),
        extensions: Items::from_vec(items_of(alloc, insts)?),
        imports: Items::from_vec(items_of(alloc, insts)?),
        memory_model: model,
        entries: Items::from_vec(entries_of(alloc, insts)?),
        strings: Items::from_vec(items_of(alloc, insts)?),
        source: source_of(alloc, insts)?,
        decorations: Items::from_vec(items_of(alloc, insts)?),
        decoration_groups: Items::from_vec(items_of(alloc, insts)?),
        groups: Items::from_vec(items_of(alloc, insts)?),
        types: types_of(alloc, pointer_width(model), insts)?,
        constants: Items::from_vec(items_of(alloc, insts)?),
        variables: Items::from_vec(items_of(alloc, before_functions(insts))?),
        functions: functions.functions,
        bodies: functions.bodies,
    })
}

/// The first memory model.
fn model_of(alloc: Global, insts: &[RawInst]) -> Result<MemoryModel, OutOfMemory>
    ensures { IfOk result (λ model. model ≡ model_of insts.now) }
{
    let models = items_of::<MemoryModel>(alloc, insts)?;
    Ok(
        models.first().copied().unwrap_or(MemoryModel {
            addressing: 0,
            memory: 0,
            place: 0,
        }),
    )
}

/// The source that is kept.
fn source_of(alloc: Global, insts: &[RawInst]) -> Result<Option<SourceVersion>, OutOfMemory>
    ensures { IfOk result (λ source. source ≡ slice_get (items_of source_of insts.now) 0) }
{
    let sources = items_of::<SourceVersion>(alloc, insts)?;
    Ok(sources.first().copied())
}

/// The width of pointers under a memory model: the addressing model Physical32 has the number 1 (SPIR-V 1.2, 3.4).
fn pointer_width(model: MemoryModel) -> PointerWidth
    ensures { result ≡ pointer_width model }
{
    if model.addressing == 1 {
        PointerWidth::P32
    } else {
        PointerWidth::P64
    }
}

/// The instructions before the function section.
fn before_functions(insts: &[RawInst]) -> &[RawInst]
    ensures { result.now ≡ before_functions insts.now }
{
    for (index, inst) in insts.iter().enumerate() {
        if begins_functions(inst) {
            return up_to(insts, index);
        }
    }
    insts
}

/// The instructions up to an index.
fn up_to(insts: &[RawInst], index: usize) -> &[RawInst]
    requires { index ≤ length insts.now }
    ensures { result.now ≡ take index insts.now }
{
    &insts[..index]
}
