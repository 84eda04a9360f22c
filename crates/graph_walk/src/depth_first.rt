ghost use Rattle.std.specs.Prelude.{◌≡◌, ℕ, ◌<◌, ◌++◌, [], length, reverse, All, IfOk, OnOk};
ghost use Rattle.graph_walk.specs.Preorder.{preorder, reaches, IsGraph};

use ports::OutOfMemory;
use sqlite_items::Items;
use std::alloc::Global;

/// The nodes that can be reached from `first`, in depth-first preorder: a node stands before what its
/// targets lead to, and these come in their order. Linear in the nodes and targets.
///
/// `OutOfMemory` comes for want of memory alone.
pub fn preorder(
    alloc: Global,
    rows: &[Items<usize>],
    first: usize,
) -> Result<Vec<usize>, OutOfMemory>
    requires graph { IsGraph rows.now }
    requires inside { first < length rows.now }
    ensures order { IfOk result (λ order. order.items ≡ preorder rows.now first []) }
    ensures nodes { IfOk result (λ order. All (λ node. node < length rows.now) order.items) }
{
    let mut seen = vec![in alloc; false; rows.len()]?;
    let mut order = Vec::new(alloc);
    let mut stack = Vec::new(alloc);
    stack.push(first)?;
    while let Some(node) = stack.pop() {
        if seen[node] {
            continue;
        }
        seen[node] = true;
        order.push(node)?;
        push_reversed(&mut stack, rows[node].as_slice())?;
    }
    Ok(order)
}

/// Puts the targets onto the stack, the first one on top.
fn push_reversed(stack: &mut Vec<usize>, targets: &[usize]) -> Result<(), OutOfMemory>
    ensures { OnOk result (stack.new.items ≡ stack.old.items ++ reverse targets.now) }
{
    stack.extend(targets.iter().rev().copied())?;
    Ok(())
}

/// Whether `node` is `start` or can be reached from it. Linear in the nodes and targets.
///
/// `OutOfMemory` comes for want of memory alone.
pub fn reaches(
    alloc: Global,
    rows: &[Items<usize>],
    start: usize,
    node: usize,
) -> Result<bool, OutOfMemory>
    requires graph { IsGraph rows.now }
    requires inside { start < length rows.now }
    ensures { IfOk result (λ reached. reached ≡ reaches rows.now start node) }
{
    let order = preorder(alloc, rows, start)?;
    Ok(order.contains(&node))
}
