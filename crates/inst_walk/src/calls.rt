ghost use Rattle.std.specs.Prelude.{◌≡◌, ◌<◌, length, ◌++◌, IfOk, OnOk, map, filter_map, option_and_then};
ghost use Rattle.std.specs.List.{position_from};
ghost use Rattle.graph_walk.specs.Levels.{Rises};
ghost use Rattle.graph_walk.specs.Preorder.{IsGraph, reaches};
ghost use Rattle.inst_walk.specs.Body.{block_outline, body_outline};
ghost use Rattle.inst_walk.specs.Calls.{block_callees, callees_of, calls_of, is_cycle_call, has_cycle_call, first_in_block, first_in_body, first_cycle_call};
ghost use Rattle.inst_walk.specs.First.{first_from};
ghost use Rattle.inst_walk.specs.Places.{place_of, places_of};

use crate::body::Body;
use crate::inst_set::InstSet;
use crate::name_places::Places;
use graph_walk::{level_at, levels, reaches};
use ports::OutOfMemory;
use sqlite_items::Items;
use std::alloc::Global;
use std::hash::Hash;

/// Which functions call which: for each one the places of those that it calls. No call leads to a lower
/// level, so one to a higher level is on no cycle.
#[derive(Drop)]
struct CallGraph<N: Copy + Ord + Hash> {
    functions: Places<N>,
    rows: Vec<Items<usize>>,
    levels: Vec<usize>,
    ghost graph: { IsGraph rows.items },
    ghost named: { length functions ≡ length rows.items },
    ghost rises: { Rises rows.items levels.items },
}

/// Function, block and instruction of the first call that lies on a cycle of calls, where its callee is its
/// caller or leads to it: `None` exactly where no call does. The names are those of the functions with
/// these bodies; calls of others are on no cycle. Linear in the bodies, up to look-ups of names.
///
/// `OutOfMemory` comes for want of memory alone.
pub fn call_cycle<I: InstSet>(
    alloc: Global,
    names: &[I::Name],
    bodies: &[Body<I>],
) -> Result<Option<(usize, usize, usize)>, OutOfMemory>
    requires { length names.now ≡ length bodies.now }
    ensures { IfOk result (λ found. found ≡ first_cycle_call I.Name.eq names.now (map (body_outline I.outline) bodies.now)) }
{
    let graph = call_graph(alloc, names, bodies)?;
    match cycle_in_bodies(alloc, &graph, bodies)? {
        None => Ok(None),
        Some((caller, (block, inst))) => Ok(Some((caller, block, inst))),
    }
}

fn call_graph<I: InstSet>(
    alloc: Global,
    names: &[I::Name],
    bodies: &[Body<I>],
) -> Result<CallGraph<I::Name>, OutOfMemory>
    requires { length names.now ≡ length bodies.now }
    ensures rows { IfOk result (λ graph. graph.rows.items ≡ calls_of I.Name.eq names.now (map (body_outline I.outline) bodies.now)) }
    ensures functions { IfOk result (λ graph. graph.functions ≡ names.now) }
{
    let functions = Places::new(alloc, Vec::from_slice(alloc, names)?)?;
    let rows = call_rows(alloc, &functions, bodies)?;
    let levels = levels(alloc, &rows)?;
    Ok(CallGraph {
        functions,
        rows,
        levels,
    })
}

fn call_rows<I: InstSet>(
    alloc: Global,
    functions: &Places<I::Name>,
    bodies: &[Body<I>],
) -> Result<Vec<Items<usize>>, OutOfMemory>
    ensures { IfOk result (λ rows. rows.items ≡ calls_of I.Name.eq functions.now (map (body_outline I.outline) bodies.now)) }
{
    let mut rows = Vec::new(alloc);
    for body in bodies {
        rows.push(callee_places(alloc, functions, body)?)?;
    }
    Ok(rows)
}

fn callee_places<I: InstSet>(
    alloc: Global,
    functions: &Places<I::Name>,
    body: &Body<I>,
) -> Result<Items<usize>, OutOfMemory>
    ensures { IfOk result (λ row. row ≡ places_of I.Name.eq functions.now (callees_of (body_outline I.outline body.now))) }
{
    let mut row = Items::new(alloc);
    let blocks = body.blocks.as_slice();
    for block in blocks {
        add_callees(functions, block.insts.as_slice(), &mut row)?;
    }
    Ok(row)
}

fn add_callees<I: InstSet>(
    functions: &Places<I::Name>,
    insts: &[I],
    row: &mut Items<usize>,
) -> Result<(), OutOfMemory>
    ensures { OnOk result (row.new ≡ row.old ++ places_of I.Name.eq functions.now (filter_map (λ inst. (I.outline inst).calls) insts.now)) }
{
    for inst in insts {
        if let Some(place) = callee_place(functions, inst) {
            row.push(place)?;
        }
    }
    Ok(())
}

fn callee_place<I: InstSet>(functions: &Places<I::Name>, inst: &I) -> Option<usize>
    ensures { result ≡ option_and_then (place_of I.Name.eq functions.now) (I.outline inst.now).calls }
{
    let callee = inst.callee()?;
    functions.place(callee)
}

fn cycle_in_bodies<I: InstSet>(
    alloc: Global,
    graph: &CallGraph<I::Name>,
    bodies: &[Body<I>],
) -> Result<Option<(usize, (usize, usize))>, OutOfMemory>
    ensures { IfOk result (λ found. found ≡ first_from (first_in_body I.Name.eq graph.now.rows.items graph.now.functions) 0 (map (body_outline I.outline) bodies.now)) }
{
    for (caller, body) in bodies.iter().enumerate() {
        if let Some(place) = cycle_in_body(alloc, graph, caller, body)? {
            return Ok(Some((caller, place)));
        }
    }
    Ok(None)
}

fn cycle_in_body<I: InstSet>(
    alloc: Global,
    graph: &CallGraph<I::Name>,
    caller: usize,
    body: &Body<I>,
) -> Result<Option<(usize, usize)>, OutOfMemory>
    ensures { IfOk result (λ found. found ≡ first_in_body I.Name.eq graph.now.rows.items graph.now.functions caller (body_outline I.outline body.now)) }
{
    let blocks = body.blocks.as_slice();
    for (place, block) in blocks.iter().enumerate() {
        if let Some(inst) = cycle_in_block(alloc, graph, caller, block.insts.as_slice())? {
            return Ok(Some((place, inst)));
        }
    }
    Ok(None)
}

fn cycle_in_block<I: InstSet>(
    alloc: Global,
    graph: &CallGraph<I::Name>,
    caller: usize,
    insts: &[I],
) -> Result<Option<usize>, OutOfMemory>
    ensures { IfOk result (λ found. found ≡ position_from (has_cycle_call I.Name.eq graph.now.rows.items graph.now.functions caller) 0 (map I.outline insts.now)) }
{
    for (i, inst) in insts.iter().enumerate() {
        if calls_on_cycle(alloc, graph, caller, inst)? {
            return Ok(Some(i));
        }
    }
    Ok(None)
}

fn calls_on_cycle<I: InstSet>(
    alloc: Global,
    graph: &CallGraph<I::Name>,
    caller: usize,
    inst: &I,
) -> Result<bool, OutOfMemory>
    ensures { IfOk result (λ found. found ≡ has_cycle_call I.Name.eq graph.now.rows.items graph.now.functions caller (I.outline inst.now)) }
{
    match callee_place(&graph.functions, inst) {
        None => Ok(false),
        Some(place) => leads_back(alloc, graph, caller, place),
    }
}

/// Whether the function at the place is the caller or leads to it.
fn leads_back<N: Copy + Ord + Hash>(
    alloc: Global,
    graph: &CallGraph<N>,
    caller: usize,
    place: usize,
) -> Result<bool, OutOfMemory>
    requires { place < length graph.now.rows.items }
    ensures { IfOk result (λ found. found ≡ reaches graph.now.rows.items place caller) }
{
    if level_at(&graph.levels, caller) < level_at(&graph.levels, place) {
        return Ok(false);
    }
    reaches(alloc, &graph.rows, place, caller)
}
