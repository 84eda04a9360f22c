ghost use Rattle.std.specs.Prelude.{◌≡◌, ℕ, ◌<◌, ◌++◌, length, vec_len, All, IfOk, OnOk, map, Some, None, unwrap_or, slice_index_or, slice_set};
ghost use Rattle.inst_walk.specs.Body.{body_outline};
ghost use Rattle.inst_walk.specs.Uses.{results_of, defined_names, reached_names, reached_labels, start_of};

use crate::body::Body;
use crate::inst_set::InstSet;
use crate::name_places::Places;
use ports::OutOfMemory;
use std::alloc::Global;
use std::hash::Hash;

/// What a body defines.
#[derive(Drop)]
pub(crate) struct Definitions<N: Copy + Ord + Hash> {
    /// The names of the reachable blocks.
    pub(crate) labels: Places<N>,
    /// The parameters and every instruction's result.
    pub(crate) defined: Places<N>,
    /// The parameters, and the results in reachable blocks, in the order of these.
    pub(crate) reached: Places<N>,
    /// For each block how many of the reached names stand above it, where it is reachable.
    pub(crate) starts: Vec<Option<usize>>,
}

/// What the body defines, where the blocks at these places are reachable, in this order.
pub(crate) fn definitions_of<I: InstSet>(
    alloc: Global,
    body: &Body<I>,
    order: &[usize],
) -> Result<Definitions<I::Name>, OutOfMemory>
    requires { All (λ place. place < length body.now.blocks) order.now }
    ensures labels { IfOk result (λ d. d.labels ≡ reached_labels (body_outline I.outline body.now) order.now) }
    ensures defined { IfOk result (λ d. d.defined ≡ defined_names (body_outline I.outline body.now)) }
    ensures reached { IfOk result (λ d. d.reached ≡ reached_names (body_outline I.outline body.now) order.now) }
    ensures starts { IfOk result (λ d. (place : ℕ) → place < length body.now.blocks → slice_index_or d.starts.items place None ≡ start_of (body_outline I.outline body.now) order.now place) }
    ensures len { IfOk result (λ d. vec_len d.starts ≡ length body.now.blocks) }
{
    let labels = Places::new(alloc, block_labels(alloc, body, order)?)?;
    let defined = Places::new(alloc, all_names(alloc, body)?)?;
    let Reached { names, starts } = reachable_names(alloc, body, order)?;
    let reached = Places::new(alloc, names)?;
    Ok(Definitions {
        labels,
        defined,
        reached,
        starts,
    })
}

/// The names of the blocks at these places.
fn block_labels<I: InstSet>(
    alloc: Global,
    body: &Body<I>,
    order: &[usize],
) -> Result<Vec<I::Name>, OutOfMemory>
    requires { All (λ place. place < length body.now.blocks) order.now }
    ensures { IfOk result (λ names. names.items ≡ reached_labels (body_outline I.outline body.now) order.now) }
{
    let blocks = body.blocks.as_slice();
    let mut names = Vec::new(alloc);
    for place in order {
        names.push(blocks[*place].name)?;
    }
    Ok(names)
}

/// The parameters and every instruction's result.
fn all_names<I: InstSet>(alloc: Global, body: &Body<I>) -> Result<Vec<I::Name>, OutOfMemory>
    ensures { IfOk result (λ names. names.items ≡ defined_names (body_outline I.outline body.now)) }
{
    let blocks = body.blocks.as_slice();
    let mut names = Vec::from_slice(alloc, body.params.as_slice())?;
    for block in blocks {
        add_results(&mut names, block.insts.as_slice())?;
    }
    Ok(names)
}

fn add_results<I: InstSet>(names: &mut Vec<I::Name>, insts: &[I]) -> Result<(), OutOfMemory>
    ensures { OnOk result (names.new.items ≡ names.old.items ++ results_of (map I.outline insts.now)) }
{
    for inst in insts {
        if let Some(name) = inst.result() {
            names.push(name)?;
        }
    }
    Ok(())
}

/// The names that reachable blocks define, and where those of each block begin.
#[derive(Drop)]
struct Reached<N> {
    names: Vec<N>,
    starts: Vec<Option<usize>>,
}

fn reachable_names<I: InstSet>(
    alloc: Global,
    body: &Body<I>,
    order: &[usize],
) -> Result<Reached<I::Name>, OutOfMemory>
    requires { All (λ place. place < length body.now.blocks) order.now }
    ensures names { IfOk result (λ r. r.names.items ≡ reached_names (body_outline I.outline body.now) order.now) }
    ensures starts { IfOk result (λ r. (place : ℕ) → place < length body.now.blocks → slice_index_or r.starts.items place None ≡ start_of (body_outline I.outline body.now) order.now place) }
    ensures len { IfOk result (λ r. vec_len r.starts ≡ length body.now.blocks) }
{
    let blocks = body.blocks.as_slice();
    let mut names = Vec::from_slice(alloc, body.params.as_slice())?;
    let mut starts = vec![in alloc; None; blocks.len()]?;
    for place in order {
        note_start(&mut starts, *place, names.len());
        add_results(&mut names, blocks[*place].insts.as_slice())?;
    }
    Ok(Reached { names, starts })
}

/// Notes where the block begins, unless that is noted.
fn note_start(starts: &mut Vec<Option<usize>>, place: usize, start: usize)
    requires { place < vec_len starts.old }
    ensures { starts.new.items ≡ slice_set starts.old.items place (Some (unwrap_or (slice_index_or starts.old.items place None) start)) }
{
    starts[place] = Some(starts[place].unwrap_or(start));
}
