ghost use Rattle.std.specs.Prelude.{◌≡◌, ◌++◌, ◌+◌, IfOk, OnOk, map, flat_map};
ghost use Rattle.std.specs.List.{zip};
ghost use Rattle.spv_module.specs.Sections.{block_spelled, body_spelled, function_spelled, preamble, debug_section, annotations, sections, placed, flattened};
ghost use Rattle.spv_module.specs.Spelled.{source_spelled};
ghost use Rattle.std.specs.Option.{option_to_list};

use crate::declared::add_declarations;
use crate::inst::SpvInst;
use crate::items::{Spells, add_all, add_modes, short_inst};
use crate::module::{Function, SourceVersion, SpvModule};
use inst_walk::{Block, Body};
use ports::OutOfMemory;
use spv_codec::{RawInst, RawModule};
use spv_layout::Opcode;
use sqlite_items::Items;
use std::alloc::Global;

/// The module as its words spell it, section by section (SPIR-V 1.2, 2.4). The generator is 0, and the place of each instruction is the
/// number of words before it. Types, constants and variables are merged by their ids, so they stand in order where the ids rise in the
/// order of their definitions.
///
/// `OutOfMemory` comes for want of memory alone: also where there are more words than memory can have.
pub fn flatten(alloc: Global, m: &SpvModule) -> Result<RawModule, OutOfMemory>
    ensures { IfOk result (λ raw. raw ≡ flattened m.now) }
{
    let insts = place_all(sections(alloc, m)?)?;
    Ok(RawModule {
        order: m.order,
        version: m.version,
        generator: 0,
        bound: m.bound,
        insts: Items::from_vec(insts),
    })
}

/// Gives each instruction its place.
fn place_all(mut insts: Vec<RawInst>) -> Result<Vec<RawInst>, OutOfMemory>
    ensures { IfOk result (λ all. all.items ≡ placed 5 insts.items) }
{
    let mut place: u64 = 5;
    for i in 0..insts.len() {
        insts[i].place = place;
        place = place_behind(place, insts[i].operands.len())?;
    }
    Ok(insts)
}

/// The place behind an instruction with so many operands.
fn place_behind(place: u64, operands: usize) -> Result<u64, OutOfMemory>
    ensures { IfOk result (λ behind. behind ≡ place + (operands + 1)) }
{
    let Some(last) = place.checked_add(operands as u64) else {
        return Err(OutOfMemory);
    };
    match last.checked_add(1) {
        Some(behind) => Ok(behind),
        None => Err(OutOfMemory),
    }
}

/// The instructions of a module in the order of the sections.
fn sections(alloc: Global, m: &SpvModule) -> Result<Vec<RawInst>, OutOfMemory>
    ensures { IfOk result (λ insts. insts.items ≡ sections m.now) }
{
    let mut insts = Vec::new(alloc);
    add_preamble(alloc, &mut insts, m)?;
    add_debug_section(alloc, &mut insts, m)?;
    add_annotations(alloc, &mut insts, m)?;
    add_declarations(alloc, &mut insts, m)?;
    add_functions(
        alloc,
        &mut insts,
        m.functions.as_slice(),
        m.bodies.as_slice(),
    )?;
    Ok(insts)
}

/// Capabilities, extensions, imports, the memory model, entry points, and their modes.
fn add_preamble(alloc: Global, insts: &mut Vec<RawInst>, m: &SpvModule) -> Result<(), OutOfMemory>
    ensures { OnOk result (insts.new.items ≡ insts.old.items ++ preamble m.now) }
{
    add_all(alloc, insts, m.capabilities.as_slice())?;
    add_all(alloc, insts, m.extensions.as_slice())?;
    add_all(alloc, insts, m.imports.as_slice())?;
    insts.push(m.memory_model.spell(alloc)?)?;
    add_all(alloc, insts, m.entries.as_slice())?;
    add_modes(alloc, insts, m.entries.as_slice())
}

/// Texts and the source.
fn add_debug_section(
    alloc: Global,
    insts: &mut Vec<RawInst>,
    m: &SpvModule,
) -> Result<(), OutOfMemory>
    ensures { OnOk result (insts.new.items ≡ insts.old.items ++ debug_section m.now) }
{
    add_all(alloc, insts, m.strings.as_slice())?;
    add_source(alloc, insts, m.source)
}

fn add_source(
    alloc: Global,
    insts: &mut Vec<RawInst>,
    source: Option<SourceVersion>,
) -> Result<(), OutOfMemory>
    ensures { OnOk result (insts.new.items ≡ insts.old.items ++ map source_spelled (option_to_list source)) }
{
    if let Some(source) = source {
        insts.push(source.spell(alloc)?)?;
    }
    Ok(())
}

/// Decorations, and behind them the groups that collect them.
fn add_annotations(
    alloc: Global,
    insts: &mut Vec<RawInst>,
    m: &SpvModule,
) -> Result<(), OutOfMemory>
    ensures { OnOk result (insts.new.items ≡ insts.old.items ++ annotations m.now) }
{
    add_all(alloc, insts, m.decorations.as_slice())?;
    add_all(alloc, insts, m.decoration_groups.as_slice())?;
    add_all(alloc, insts, m.groups.as_slice())
}

/// Functions with their bodies.
fn add_functions(
    alloc: Global,
    insts: &mut Vec<RawInst>,
    functions: &[Function],
    bodies: &[Body<SpvInst>],
) -> Result<(), OutOfMemory>
    ensures { OnOk result (insts.new.items ≡ insts.old.items ++ flat_map body_spelled (zip functions.now bodies.now)) }
{
    for i in 0..functions.len().min(bodies.len()) {
        add_function(alloc, insts, &functions[i], &bodies[i])?;
    }
    Ok(())
}

fn add_function(
    alloc: Global,
    insts: &mut Vec<RawInst>,
    function: &Function,
    body: &Body<SpvInst>,
) -> Result<(), OutOfMemory>
    ensures { OnOk result (insts.new.items ≡ insts.old.items ++ body_spelled (function.now, body.now)) }
{
    insts.push(function_inst(alloc, function)?)?;
    add_all(alloc, insts, function.params.as_slice())?;
    add_blocks(alloc, insts, body.blocks.as_slice())?;
    insts.push(short_inst(alloc, Opcode::FunctionEnd, &[])?)?;
    Ok(())
}

/// An OpFunction without hints for inlining.
fn function_inst(alloc: Global, function: &Function) -> Result<RawInst, OutOfMemory>
    ensures { IfOk result (λ inst. inst ≡ function_spelled function.now) }
{
    short_inst(
        alloc,
        Opcode::Function,
        &[function.result, function.id, 0, function.ty],
    )
}

fn add_blocks(
    alloc: Global,
    insts: &mut Vec<RawInst>,
    blocks: &[Block<SpvInst>],
) -> Result<(), OutOfMemory>
    ensures { OnOk result (insts.new.items ≡ insts.old.items ++ flat_map block_spelled blocks.now) }
{
    for block in blocks {
        add_block(alloc, insts, block)?;
    }
    Ok(())
}

fn add_block(
    alloc: Global,
    insts: &mut Vec<RawInst>,
    block: &Block<SpvInst>,
) -> Result<(), OutOfMemory>
    ensures { OnOk result (insts.new.items ≡ insts.old.items ++ block_spelled block.now) }
{
    insts.push(short_inst(alloc, Opcode::Label, &[block.name])?)?;
    add_all(alloc, insts, block.insts.as_slice())
}
