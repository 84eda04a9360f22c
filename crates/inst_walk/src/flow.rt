ghost use Rattle.std.specs.Prelude.{◌≡◌, ◌<◌, length, All, IfOk, map};
ghost use Rattle.inst_walk.specs.Body.{block_outline, body_outline, targets_of, block_names, edges_of, block_preorder};
ghost use Rattle.inst_walk.specs.Places.{places_of};

use crate::body::{Block, Body};
use crate::inst_set::InstSet;
use crate::name_places::Places;
use graph_walk::preorder;
use ports::OutOfMemory;
use sqlite_items::Items;
use std::alloc::Global;

/// The places of the blocks that can be reached from the first one, in depth-first preorder, where the
/// targets of a block come in its terminator's order. Linear in the body, up to look-ups of names.
///
/// `OutOfMemory` comes for want of memory alone.
pub fn block_order<I: InstSet>(alloc: Global, body: &Body<I>) -> Result<Vec<usize>, OutOfMemory>
    ensures order { IfOk result (λ order. order.items ≡ block_preorder I.Name.eq (body_outline I.outline body.now)) }
    ensures places { IfOk result (λ order. All (λ place. place < length body.now.blocks) order.items) }
{
    if body.blocks.is_empty() {
        return Ok(Vec::new(alloc));
    }
    let rows = edges(alloc, body)?;
    let order = preorder(alloc, rows.as_slice(), 0)?;
    Ok(order)
}

/// The graph of the blocks.
pub(crate) fn edges<I: InstSet>(
    alloc: Global,
    body: &Body<I>,
) -> Result<Vec<Items<usize>>, OutOfMemory>
    ensures { IfOk result (λ rows. rows.items ≡ edges_of I.Name.eq (body_outline I.outline body.now)) }
{
    let names = block_places(alloc, body)?;
    rows_of(alloc, &names, body.blocks.as_slice())
}

fn rows_of<I: InstSet>(
    alloc: Global,
    names: &Places<I::Name>,
    blocks: &[Block<I>],
) -> Result<Vec<Items<usize>>, OutOfMemory>
    ensures { IfOk result (λ rows. rows.items ≡ map (λ b. places_of I.Name.eq names.now (targets_of (block_outline I.outline b))) blocks.now) }
{
    let mut rows = Vec::new(alloc);
    for block in blocks {
        rows.push(row_of(alloc, names, block)?)?;
    }
    Ok(rows)
}

fn block_places<I: InstSet>(alloc: Global, body: &Body<I>) -> Result<Places<I::Name>, OutOfMemory>
    ensures { IfOk result (λ places. places ≡ block_names (body_outline I.outline body.now)) }
{
    let mut names = Vec::new(alloc);
    let blocks = body.blocks.as_slice();
    for block in blocks {
        names.push(block.name)?;
    }
    Places::new(alloc, names)
}

/// The places of the blocks that the block's terminator may lead to.
fn row_of<I: InstSet>(
    alloc: Global,
    names: &Places<I::Name>,
    block: &Block<I>,
) -> Result<Items<usize>, OutOfMemory>
    ensures { IfOk result (λ row. row ≡ places_of I.Name.eq names.now (targets_of (block_outline I.outline block.now))) }
{
    match block.insts.as_slice().last() {
        None => Ok(Items::new(alloc)),
        Some(terminator) => target_places(alloc, names, terminator),
    }
}

fn target_places<I: InstSet>(
    alloc: Global,
    names: &Places<I::Name>,
    inst: &I,
) -> Result<Items<usize>, OutOfMemory>
    ensures { IfOk result (λ row. row ≡ places_of I.Name.eq names.now (I.outline inst.now).leads_to) }
{
    let mut row = Items::new(alloc);
    for i in 0..inst.targets_len() {
        if let Some(place) = names.place(inst.target_at(i)) {
            row.push(place)?;
        }
    }
    Ok(row)
}
