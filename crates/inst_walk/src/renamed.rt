ghost use Rattle.std.specs.Prelude.{◌≡◌, IfOk, map};
ghost use Rattle.inst_walk.specs.Body.{block_renamed, body_renamed};
ghost use Rattle.inst_walk.specs.Renaming.{renamed_name};

use crate::body::{Block, Body};
use crate::inst_set::InstSet;
use crate::renaming::Renaming;
use ports::OutOfMemory;
use sqlite_items::Items;
use std::alloc::Global;
use std::hash::Hash;

/// The body with every name replaced by the one that the map gives it. A name that the map lacks stays.
///
/// `OutOfMemory` comes for want of memory alone.
pub fn renumber<I: InstSet>(
    alloc: Global,
    body: Body<I>,
    map: &Renaming<I::Name>,
) -> Result<Body<I>, OutOfMemory>
    ensures { IfOk result (λ renamed. renamed ≡ body_renamed I.renamed (renamed_name I.Name.eq map.now) body) }
{
    let Body { params, blocks } = body;
    let params = renamed_names(alloc, params.as_slice(), map)?;
    let blocks = renamed_blocks(alloc, blocks, map)?;
    Ok(Body { params, blocks })
}

fn renamed_names<N: Copy + Ord + Hash>(
    alloc: Global,
    names: &[N],
    renaming: &Renaming<N>,
) -> Result<Items<N>, OutOfMemory>
    ensures { IfOk result (λ renamed. renamed ≡ map (renamed_name N.eq renaming.now) names.now) }
{
    let mut renamed = Vec::new(alloc);
    for name in names {
        renamed.push(renaming.renamed(*name))?;
    }
    Ok(Items::from_vec(renamed))
}

fn renamed_blocks<I: InstSet>(
    alloc: Global,
    mut blocks: Items<Block<I>>,
    renaming: &Renaming<I::Name>,
) -> Result<Items<Block<I>>, OutOfMemory>
    ensures { IfOk result (λ renamed. renamed ≡ map (block_renamed I.renamed (renamed_name I.Name.eq renaming.now)) blocks) }
{
    let mut renamed = Vec::new(alloc);
    while let Some(block) = blocks.pop() {
        renamed.push(renamed_block(alloc, block, renaming)?)?;
    }
    renamed.reverse();
    Ok(Items::from_vec(renamed))
}

fn renamed_block<I: InstSet>(
    alloc: Global,
    block: Block<I>,
    renaming: &Renaming<I::Name>,
) -> Result<Block<I>, OutOfMemory>
    ensures { IfOk result (λ renamed. renamed ≡ block_renamed I.renamed (renamed_name I.Name.eq renaming.now) block) }
{
    let Block { name, insts } = block;
    let insts = renamed_insts(alloc, insts, renaming)?;
    Ok(Block {
        name: renaming.renamed(name),
        insts,
    })
}

fn renamed_insts<I: InstSet>(
    alloc: Global,
    mut insts: Items<I>,
    renaming: &Renaming<I::Name>,
) -> Result<Items<I>, OutOfMemory>
    ensures { IfOk result (λ renamed. renamed ≡ map (I.renamed (renamed_name I.Name.eq renaming.now)) insts) }
{
    let mut renamed = Vec::new(alloc);
    while let Some(mut inst) = insts.pop() {
        inst.rename(renaming);
        renamed.push(inst)?;
    }
    renamed.reverse();
    Ok(Items::from_vec(renamed))
}
