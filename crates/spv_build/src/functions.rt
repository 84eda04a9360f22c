ghost use Rattle.std.specs.Prelude.{◌≡◌, ◌++◌, ◌∷◌, [], ℕ, nat_eq, map, IfOk, OnOk};
ghost use Rattle.std.specs.Option.{option_to_list};
ghost use Rattle.std.specs.HashMap.{get};
ghost use Rattle.spv_names.specs.Definitions.{entry_of};
ghost use Rattle.spv_names.specs.Uses.{has_wide};
ghost use Rattle.spv_build.specs.Functions.{operand_at, head_of, param_id, function_of, body_of, block_of, behind_part, behind_inst, no_functions, read_functions};
ghost use Rattle.spv_build.specs.Insts.{inst_of};
ghost use Rattle.spv_build.specs.Items.{param_of};

use crate::insts::inst_of;
use crate::items::FromInst;
use inst_walk::{Block, Body};
use ports::OutOfMemory;
use spv_codec::RawInst;
use spv_module::{Function, Param, SpvInst};
use spv_names::{Definitions, Part, has_wide, part_of};
use sqlite_items::Items;
use std::alloc::Global;
use std::mem;

/// What an OpFunction says: the type of its result, its id, its type, and its place.
#[derive(Clone, Copy, Debug, PartialEq, Eq)]
pub struct Head {
    pub result: u32,
    pub id: u32,
    pub ty: u32,
    pub place: u64,
}

/// The functions behind some instructions of the function section: those that have ended with their bodies, what is known of the one that
/// has begun, and the label and the instructions of the block that has begun.
#[derive(Drop)]
pub struct FunctionsSoFar {
    pub functions: Items<Function>,
    pub bodies: Items<Body<SpvInst>>,
    pub head: Head,
    pub params: Items<Param>,
    pub labels: Items<u64>,
    pub blocks: Items<Block<SpvInst>>,
    pub label: u32,
    pub insts: Items<SpvInst>,
}

/// What the instructions of a function section say, in a module with all of `insts`.
///
/// `OutOfMemory` comes for want of memory alone.
pub(crate) fn read_functions(
    alloc: Global,
    insts: &[RawInst],
    definitions: &Definitions,
    section: &[RawInst],
) -> Result<FunctionsSoFar, OutOfMemory>
    requires { (id : ℕ) → get nat_eq definitions.now.first id ≡ entry_of insts.now id }
    ensures { IfOk result (λ all. all ≡ read_functions (has_wide insts.now) section.now) }
{
    let mut so_far = no_functions(alloc);
    for inst in section {
        let wide = is_wide(insts, definitions, inst);
        read_part(alloc, part_of(inst), wide, &mut so_far, inst)?;
    }
    Ok(so_far)
}

fn no_functions(alloc: Global) -> FunctionsSoFar
    ensures { result ≡ no_functions }
{
    FunctionsSoFar {
        functions: Items::new(alloc),
        bodies: Items::new(alloc),
        head: Head {
            result: 0,
            id: 0,
            ty: 0,
            place: 0,
        },
        params: Items::new(alloc),
        labels: Items::new(alloc),
        blocks: Items::new(alloc),
        label: 0,
        insts: Items::new(alloc),
    }
}

/// Whether the literal numbers of an instruction take two words.
fn is_wide(insts: &[RawInst], definitions: &Definitions, inst: &RawInst) -> bool
    requires { (id : ℕ) → get nat_eq definitions.now.first id ≡ entry_of insts.now id }
    ensures { result ≡ has_wide insts.now inst.now }
{
    has_wide(insts, definitions, insts.len(), inst)
}

/// One instruction more.
fn read_part(
    alloc: Global,
    part: Part,
    wide: bool,
    so_far: &mut FunctionsSoFar,
    inst: &RawInst,
) -> Result<(), OutOfMemory>
    ensures { OnOk result (so_far.new ≡ behind_part part wide so_far.old inst.now) }
{
    match part {
        Part::Start => begin_function(alloc, so_far, inst),
        Part::Parameter => add_param(alloc, so_far, inst)?,
        Part::Label => begin_block(alloc, so_far, inst)?,
        Part::Inner => so_far.insts.push(inst_of(alloc, wide, inst)?)?,
        Part::Terminator => end_block(alloc, so_far, inst_of(alloc, wide, inst)?)?,
        Part::End => end_function(alloc, so_far)?,
        Part::Floating | Part::Stray => {}
    }
    Ok(())
}

/// A word of an instruction, 0 where it has none there.
fn operand_at(inst: &RawInst, index: usize) -> u32
    ensures { result ≡ operand_at inst.now index }
{
    inst.operands.as_slice().get(index).copied().unwrap_or(0)
}

fn head_of(inst: &RawInst) -> Head
    ensures { result ≡ head_of inst.now }
{
    Head {
        result: operand_at(inst, 0),
        id: operand_at(inst, 1),
        ty: operand_at(inst, 3),
        place: inst.place,
    }
}

fn begin_function(alloc: Global, so_far: &mut FunctionsSoFar, inst: &RawInst)
    ensures { so_far.new ≡ record so_far.old { head = head_of inst.now; params = []; labels = []; blocks = [] } }
{
    so_far.head = head_of(inst);
    so_far.params = Items::new(alloc);
    so_far.labels = Items::new(alloc);
    so_far.blocks = Items::new(alloc);
}

fn add_param(alloc: Global, so_far: &mut FunctionsSoFar, inst: &RawInst) -> Result<(), OutOfMemory>
    ensures { OnOk result (so_far.new ≡ record so_far.old { params = so_far.old.params ++ option_to_list (param_of inst.now) }) }
{
    match Param::read(alloc, inst)? {
        Some(param) => {
            so_far.params.push(param)?;
            Ok(())
        }
        None => Ok(()),
    }
}

fn begin_block(
    alloc: Global,
    so_far: &mut FunctionsSoFar,
    inst: &RawInst,
) -> Result<(), OutOfMemory>
    ensures { OnOk result (so_far.new ≡ record so_far.old { labels = so_far.old.labels ++ inst.now.place ∷ []; label = operand_at inst.now 0; insts = [] }) }
{
    so_far.labels.push(inst.place)?;
    so_far.label = operand_at(inst, 0);
    so_far.insts = Items::new(alloc);
    Ok(())
}

fn end_block(alloc: Global, so_far: &mut FunctionsSoFar, last: SpvInst) -> Result<(), OutOfMemory>
    ensures { OnOk result (so_far.new ≡ record so_far.old { blocks = so_far.old.blocks ++ block_of so_far.old last ∷ []; insts = [] }) }
{
    let mut insts = mem::replace(&mut so_far.insts, Items::new(alloc));
    insts.push(last)?;
    so_far.blocks.push(Block {
        name: so_far.label,
        insts,
    })?;
    Ok(())
}

fn end_function(alloc: Global, so_far: &mut FunctionsSoFar) -> Result<(), OutOfMemory>
    ensures { OnOk result (so_far.new ≡ record so_far.old { functions = so_far.old.functions ++ function_of so_far.old ∷ []; bodies = so_far.old.bodies ++ body_of so_far.old ∷ []; params = []; labels = []; blocks = [] }) }
{
    let params = mem::replace(&mut so_far.params, Items::new(alloc));
    let labels = mem::replace(&mut so_far.labels, Items::new(alloc));
    let blocks = mem::replace(&mut so_far.blocks, Items::new(alloc));
    so_far.bodies.push(Body {
        params: param_ids(alloc, params.as_slice())?,
        blocks,
    })?;
    let head = so_far.head;
    so_far.functions.push(Function {
        id: head.id,
        result: head.result,
        ty: head.ty,
        params,
        labels,
        place: head.place,
    })?;
    Ok(())
}

fn param_ids(alloc: Global, params: &[Param]) -> Result<Items<u32>, OutOfMemory>
    ensures { IfOk result (λ ids. ids ≡ map param_id params.now) }
{
    let mut ids = Vec::new(alloc);
    for param in params {
        ids.push(param.id)?;
    }
    Ok(Items::from_vec(ids))
}
