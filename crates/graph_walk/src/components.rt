ghost use Rattle.std.specs.Prelude.{◌≡◌, IfOk, IsTrue, ◌≤◌, All, length, vec_len};
ghost use Rattle.graph_walk.specs.Levels.{Rises, level_of};

use ports::OutOfMemory;
use sqlite_items::Items;
use std::alloc::Global;

/// Levels for the nodes, of which none falls along an edge. They are the numbers of the strongly connected
/// components, so that the edges within a level are those on cycles. Linear in the nodes and targets.
///
/// `OutOfMemory` comes for want of memory alone.
pub fn levels(alloc: Global, rows: &[Items<usize>]) -> Result<Vec<usize>, OutOfMemory>
    ensures len { IfOk result (λ levels. vec_len levels ≡ length rows.now) }
    ensures rises { IfOk result (λ levels. Rises rows.now levels.items) }
{
    let left = leaving_order(alloc, rows)?;
    let sources = turned(alloc, rows)?;
    let levels = component_numbers(alloc, &sources, &left)?;
    if rises(rows, &levels) {
        return Ok(levels);
    }
    one_level(alloc, rows)
}

/// The same level for every node.
fn one_level(alloc: Global, rows: &[Items<usize>]) -> Result<Vec<usize>, OutOfMemory>
    ensures len { IfOk result (λ levels. vec_len levels ≡ length rows.now) }
    ensures rises { IfOk result (λ levels. Rises rows.now levels.items) }
{
    let levels = vec![in alloc; 0; rows.len()]?;
    Ok(levels)
}

/// The node's level, 0 where the list has none.
pub fn level_at(levels: &[usize], node: usize) -> usize
    ensures { result ≡ level_of levels.now node }
{
    levels.get(node).copied().unwrap_or(0)
}

/// Whether no edge leads to a lower level.
fn rises(rows: &[Items<usize>], levels: &[usize]) -> bool
    ensures { IsTrue result → Rises rows.now levels.now }
{
    for (node, row) in rows.iter().enumerate() {
        if !leads_up(levels, level_at(levels, node), row.as_slice()) {
            return false;
        }
    }
    true
}

/// Whether no target lies below the level.
fn leads_up(levels: &[usize], level: usize, targets: &[usize]) -> bool
    ensures { IsTrue result → All (λ target. level ≤ level_of levels.now target) targets.now }
{
    targets
        .iter()
        .all(|target| level <= level_at(levels, *target))
}

/// What a walk has still to do at a node.
#[derive(Drop)]
enum Step {
    Enter(usize),
    Leave(usize),
}

/// The nodes in the order in which a depth-first walk over all of them leaves them.
fn leaving_order(alloc: Global, rows: &[Items<usize>]) -> Result<Vec<usize>, OutOfMemory> {
    let mut seen = vec![in alloc; false; rows.len()]?;
    let mut left = Vec::new(alloc);
    let mut steps = Vec::new(alloc);
    for node in 0..rows.len() {
        steps.push(Step::Enter(node))?;
    }
    for _ in 0..u64::MAX {
        match steps.pop() {
            None => break,
            Some(Step::Leave(node)) => left.push(node)?,
            Some(Step::Enter(node)) => enter(rows, node, &mut seen, &mut steps)?,
        }
    }
    Ok(left)
}

/// Enters a node that wasn't seen: its targets come next, and then it is left.
fn enter(
    rows: &[Items<usize>],
    node: usize,
    seen: &mut [bool],
    steps: &mut Vec<Step>,
) -> Result<(), OutOfMemory> {
    let Some(row) = rows.get(node) else {
        return Ok(());
    };
    if !first_visit(seen, node) {
        return Ok(());
    }
    steps.push(Step::Leave(node))?;
    for target in row.as_slice() {
        steps.push(Step::Enter(*target))?;
    }
    Ok(())
}

/// Whether the node is there and wasn't marked. It is now.
fn first_visit(seen: &mut [bool], node: usize) -> bool {
    if node >= seen.len() || seen[node] {
        return false;
    }
    seen[node] = true;
    true
}

/// The graph with every edge turned round.
fn turned(alloc: Global, rows: &[Items<usize>]) -> Result<Vec<Vec<usize>>, OutOfMemory>
    ensures { IfOk result (λ sources. vec_len sources ≡ length rows.now) }
{
    let mut sources = Vec::new(alloc);
    while sources.len() < rows.len() {
        sources.push(Vec::new(alloc))?;
    }
    for (node, row) in rows.iter().enumerate() {
        for target in row.as_slice() {
            if *target < sources.len() {
                sources[*target].push(node)?;
            }
        }
    }
    Ok(sources)
}

/// A number for each node. The nodes that lead to the one that was left last have the number 0, then come
/// those of the others that lead to the last one among these, and so on.
fn component_numbers(
    alloc: Global,
    sources: &[Vec<usize>],
    left: &[usize],
) -> Result<Vec<usize>, OutOfMemory>
    ensures { IfOk result (λ numbers. vec_len numbers ≡ length sources.now) }
{
    let mut seen = vec![in alloc; false; sources.len()]?;
    let mut numbers = vec![in alloc; 0; sources.len()]?;
    let mut stack = Vec::new(alloc);
    for (number, root) in left.iter().rev().enumerate() {
        stack.push(*root)?;
        number_sources(sources, number, &mut seen, &mut numbers, &mut stack)?;
    }
    Ok(numbers)
}

/// Gives the number to each node that leads to one on the stack through nodes that weren't seen.
fn number_sources(
    sources: &[Vec<usize>],
    number: usize,
    seen: &mut [bool],
    numbers: &mut [usize],
    stack: &mut Vec<usize>,
) -> Result<(), OutOfMemory> {
    for _ in 0..u64::MAX {
        let Some(node) = stack.pop() else {
            break;
        };
        if node < numbers.len() && first_visit(seen, node) {
            numbers[node] = number;
            if let Some(more) = sources.get(node) {
                stack.extend_from_slice(more)?;
            }
        }
    }
    Ok(())
}
