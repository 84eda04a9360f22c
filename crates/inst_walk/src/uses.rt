ghost use Rattle.std.specs.Prelude.{◌≡◌, ◌+◌, ◌<◌, ◌≤◌, ◌++◌, length, take, All, IfOk, IfSome, option_and_then, map};
ghost use Rattle.std.specs.Option.{option_to_list};
ghost use Rattle.inst_walk.specs.Body.{block_outline, body_outline};
ghost use Rattle.inst_walk.specs.First.{position_at};
ghost use Rattle.inst_walk.specs.Uses.{results_of, is_missed, breaks_use, breaks_rule, limited_test, first_use_break};

use crate::body::{Block, Body};
use crate::definitions::{Definitions, definitions_of};
use crate::inst_set::InstSet;
use ports::OutOfMemory;
use std::alloc::Global;
use std::hash::Hash;

/// The least block and instruction, as they stand in the body, where a name that the body defines is taken and
/// no definition of it stands above: in the order of the reachable blocks, and for a phi's value, where it comes
/// from a reachable block, in any reachable block. `None` exactly where there is none. Names that the body
/// doesn't define aren't looked at. `order` is the answer of `block_order`. Linear in the body, up to look-ups
/// of names.
///
/// `OutOfMemory` comes for want of memory alone.
pub fn first_use_above<I: InstSet>(
    alloc: Global,
    body: &Body<I>,
    order: &[usize],
) -> Result<Option<(usize, usize)>, OutOfMemory>
    requires { All (λ place. place < length body.now.blocks) order.now }
    ensures { IfOk result (λ found. found ≡ first_use_break I.Name.eq (body_outline I.outline body.now) order.now) }
{
    let definitions = &definitions_of(alloc, body, order)?;
    let blocks = body.blocks.as_slice();
    for (place, block) in blocks.iter().enumerate() {
        if let Some(inst) = break_in(definitions, definitions.starts[place], block) {
            return Ok(Some((place, inst)));
        }
    }
    Ok(None)
}

/// The first instruction of the block that breaks the rule: none where the block isn't reachable, and else
/// the first `start` names of those that are reached stand above it.
fn break_in<I: InstSet>(
    definitions: &Definitions<I::Name>,
    start: Option<usize>,
    block: &Block<I>,
) -> Option<usize>
    requires { IfSome start (λ s. s + length (results_of (map I.outline block.now.insts)) ≤ length definitions.now.reached) }
    ensures { result ≡ option_and_then (λ s. position_at (limited_test I.Name.eq definitions.now.labels definitions.now.defined definitions.now.reached s (map I.outline block.now.insts)) 0 (map I.outline block.now.insts)) start }
{
    match start {
        None => None,
        Some(above) => break_in_block(definitions, above, block.insts.as_slice()),
    }
}

fn is_missed<N: Copy + Ord + Hash>(definitions: &Definitions<N>, limit: usize, name: N) -> bool
    ensures { result ≡ is_missed N.eq definitions.now.defined (take limit definitions.now.reached) name }
{
    definitions.defined.has(name) && !definitions.reached.has_above(limit, name)
}

/// Whether the use of the value breaks the rule, where the first `limit` names of those that are reached
/// stand above it.
fn breaks_use<N: Copy + Ord + Hash>(
    definitions: &Definitions<N>,
    limit: usize,
    value: N,
    parent: Option<N>,
) -> bool
    ensures { result ≡ breaks_use N.eq definitions.now.labels definitions.now.defined definitions.now.reached (take limit definitions.now.reached) (value, parent) }
{
    match parent {
        None => is_missed(definitions, limit, value),
        Some(block) => {
            definitions.labels.has(block)
                && definitions.defined.has(value)
                && !definitions.reached.has(value)
        }
    }
}

fn breaks_rule<I: InstSet>(definitions: &Definitions<I::Name>, limit: usize, inst: &I) -> bool
    ensures { result ≡ breaks_rule I.Name.eq definitions.now.labels definitions.now.defined definitions.now.reached (take limit definitions.now.reached) (I.outline inst.now) }
{
    for i in 0..inst.uses_len() {
        if breaks_use(definitions, limit, inst.use_at(i), inst.parent_at(i)) {
            return true;
        }
    }
    false
}

/// The first instruction of a block that breaks the rule, where the first `start` names of those that are
/// reached stand above the block.
fn break_in_block<I: InstSet>(
    definitions: &Definitions<I::Name>,
    start: usize,
    insts: &[I],
) -> Option<usize>
    requires { start + length (results_of (map I.outline insts.now)) ≤ length definitions.now.reached }
    ensures { result ≡ position_at (limited_test I.Name.eq definitions.now.labels definitions.now.defined definitions.now.reached start (map I.outline insts.now)) 0 (map I.outline insts.now) }
{
    let end = definitions.reached.len();
    let mut limit = start;
    for (i, inst) in insts.iter().enumerate() {
        if breaks_rule(definitions, limit, inst) {
            return Some(i);
        }
        limit = limit_below(limit, end, inst);
    }
    None
}

/// How many names stand above what comes after the instruction, where `limit` stand above it.
fn limit_below<I: InstSet>(limit: usize, end: usize, inst: &I) -> usize
    requires { limit + length (option_to_list (I.outline inst.now).defines) ≤ end }
    ensures { result ≡ limit + length (option_to_list (I.outline inst.now).defines) }
{
    match inst.result() {
        None => limit,
        Some(_) => limit + 1,
    }
}
