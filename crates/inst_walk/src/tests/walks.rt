ghost use Rattle.std.specs.Prelude.{◌<◌};

use super::listed::Listed;
use super::toy::Toy;
use super::toy::Toy::{Add, Call, Fork, Jump, Phi, Return, Switch};
use crate::body::{Block, Body};
use crate::calls::call_cycle;
use crate::flow::block_order;
use crate::inst_set::InstSet;
use crate::renamed::renumber;
use crate::renaming::Renaming;
use crate::uses::first_use_above;
use ports::OutOfMemory;
use sqlite_items::Items;
use std::alloc::Global;
use std::process::Abort;
use std::test::Fail;

/// A block's name and instructions.
type Row<'a> = (u32, &'a [Toy]);

fn body(alloc: Global, params: &[u32], rows: &[Row<'_>]) -> Result<Body<Toy>, OutOfMemory> {
    let mut blocks = Vec::new(alloc);
    for (name, insts) in rows {
        blocks.push(block(alloc, *name, insts)?)?;
    }
    Ok(Body {
        params: Items::from_slice(alloc, params)?,
        blocks: Items::from_vec(blocks),
    })
}

fn block(alloc: Global, name: u32, insts: &[Toy]) -> Result<Block<Toy>, OutOfMemory> {
    let insts = Items::from_slice(alloc, insts)?;
    Ok(Block { name, insts })
}

/// Asserts the order of the blocks of a body with the parameters 1 and 2, and what the walk over the uses
/// finds.
fn expect_walk(
    rt: &impl Abort,
    alloc: Global,
    rows: &[Row<'_>],
    order: &[usize],
    found: Option<(usize, usize)>,
) -> Result<(), OutOfMemory> {
    let body = body(alloc, &[1, 2], rows)?;
    let walked = block_order(alloc, &body)?;
    assert_eq!(rt; walked.as_slice(), order);
    assert_eq!(rt; first_use_above(alloc, &body, &walked)?, found);
    Ok(())
}

#[test]
fn orders_of_blocks(rt: HostRuntime) -> Result<(), Fail> {
    let alloc = rt.alloc();
    let join = [Phi(5, 1, 100, 2, 101), Return];
    let entry = [Switch(1, 101, 102, 102, 102)];
    expect_walk(
        &rt,
        alloc,
        &[(100, &entry), (101, &[Jump(102)]), (102, &join)],
        &[0, 1, 2],
        None,
    )?;
    let entry = [Switch(1, 102, 101, 102, 102)];
    expect_walk(
        &rt,
        alloc,
        &[(100, &entry), (101, &[Jump(102)]), (102, &join)],
        &[0, 2, 1],
        None,
    )?;
    let blocks: [Row<'_>; 4] = [
        (10, &[Fork(1, 11, 12)]),
        (11, &[Jump(13)]),
        (12, &[Return]),
        (13, &[Return]),
    ];
    expect_walk(&rt, alloc, &blocks, &[0, 1, 3, 2], None)?;
    Ok(())
}

#[test]
fn plain_uses(rt: HostRuntime) -> Result<(), Fail> {
    let alloc = rt.alloc();
    let defines = [Add(7, 1, 1), Jump(12)];
    let takes = [Add(8, 7, 7), Return];
    expect_walk(
        &rt,
        alloc,
        &[(10, &[Fork(1, 11, 12)]), (11, &defines), (12, &takes)],
        &[0, 1, 2],
        None,
    )?;
    expect_walk(
        &rt,
        alloc,
        &[(10, &[Fork(1, 12, 11)]), (11, &defines), (12, &takes)],
        &[0, 2, 1],
        Some((2, 0)),
    )?;
    let late = [Add(7, 1, 99), Add(8, 1, 9), Add(9, 1, 1), Return];
    expect_walk(&rt, alloc, &[(10, &late)], &[0], Some((0, 1)))?;
    let least = [Add(7, 8, 8), Add(8, 7, 7), Return];
    expect_walk(
        &rt,
        alloc,
        &[
            (10, &[Jump(12)]),
            (11, &least),
            (12, &[Add(9, 7, 7), Jump(11)]),
        ],
        &[0, 2, 1],
        Some((1, 0)),
    )?;
    Ok(())
}

#[test]
fn uses_of_phis(rt: HostRuntime) -> Result<(), Fail> {
    let alloc = rt.alloc();
    let parallel = [Phi(5, 1, 10, 6, 11), Phi(6, 2, 10, 5, 11), Jump(11)];
    expect_walk(
        &rt,
        alloc,
        &[(10, &[Jump(11)]), (11, &parallel)],
        &[0, 1],
        None,
    )?;
    let hidden = [Add(7, 8, 8), Add(8, 7, 7), Jump(12)];
    let join = [Phi(5, 1, 10, 7, 11), Phi(6, 7, 10, 1, 11), Return];
    expect_walk(
        &rt,
        alloc,
        &[(10, &[Jump(12)]), (11, &hidden), (12, &join)],
        &[0, 2],
        Some((2, 1)),
    )?;
    Ok(())
}

/// Bodies of one block, of which each makes one call.
fn callers(alloc: Global, callees: &[u32]) -> Result<Vec<Body<Toy>>, OutOfMemory> {
    let mut bodies = Vec::new(alloc);
    for callee in callees {
        bodies.push(body(alloc, &[], &[(1, &[Add(1, 1, 1), Call(*callee), Return])])?)?;
    }
    Ok(bodies)
}

#[test]
fn calls_on_cycles(rt: HostRuntime) -> Result<(), Fail> {
    let alloc = rt.alloc();
    let names = [50, 51, 52, 53];
    let cases: [([u32; 4], Option<(usize, usize, usize)>); 6] = [
        ([51, 52, 53, 99], None),
        ([51, 50, 99, 99], Some((0, 0, 1))),
        ([51, 52, 52, 99], Some((2, 0, 1))),
        ([52, 51, 99, 99], Some((1, 0, 1))),
        ([51, 52, 53, 51], Some((1, 0, 1))),
        ([53, 52, 51, 99], Some((1, 0, 1))),
    ];
    for (callees, want) in cases {
        let bodies = callers(alloc, &callees)?;
        assert_eq!(rt; bodies.len(), 4);
        assert_eq!(rt; call_cycle(alloc, &names, &bodies)?, want);
    }
    Ok(())
}

#[test]
fn renumbers_every_name(rt: HostRuntime) -> Result<(), Fail> {
    let alloc = rt.alloc();
    let mut map = Renaming::new(alloc);
    for (from, to) in [(1, 21), (5, 25), (100, 10), (101, 11)] {
        map.put(from, to)?;
    }
    assert_eq!(rt; map.get(5), Some(25));
    assert_eq!(rt; map.get(6), None);
    let old = body(
        alloc,
        &[1, 2],
        &[
            (100, &[Phi(5, 1, 100, 2, 101), Jump(101)]),
            (101, &[Return]),
        ],
    )?;
    let new = renumber(alloc, old, &map)?;
    assert_eq!(rt; new.params.as_slice(), [21, 2].as_slice());
    assert_eq!(rt; block_order(alloc, &new)?.as_slice(), [0, 1].as_slice());
    let first = new.blocks.get(0).ok_or("no block")?;
    assert_eq!(rt; first.name, 10);
    let phi = *first.insts.get(0).ok_or("no instruction")?;
    assert_eq!(rt; phi.result(), Some(25));
    assert_eq!(rt; phi.uses_len(), 2);
    assert_eq!(rt; (phi.use_at(0), phi.parent_at(0)), (21, Some(10)));
    assert_eq!(rt; (phi.use_at(1), phi.parent_at(1)), (2, Some(11)));
    Ok(())
}

#[test]
fn renumbers_lists_of_names(rt: HostRuntime) -> Result<(), Fail> {
    let alloc = rt.alloc();
    let mut map = Renaming::new(alloc);
    for (from, to) in [(1, 31), (3, 33), (10, 20)] {
        map.put(from, to)?;
    }
    let mut inst = Listed {
        to: Some(3),
        values: Items::from_slice(alloc, &[1, 2, 1])?,
        labels: Items::from_slice(alloc, &[11, 10])?,
    };
    inst.rename(&map);
    assert_eq!(rt; inst.result(), Some(33));
    assert_eq!(rt; inst.values.as_slice(), [31, 2, 31].as_slice());
    assert_eq!(rt; inst.labels.as_slice(), [11, 20].as_slice());
    Ok(())
}

#[test]
fn walks_after_renumbering(rt: HostRuntime) -> Result<(), Fail> {
    let alloc = rt.alloc();
    let mut map = Renaming::new(alloc);
    for (from, to) in [(10, 12), (12, 11), (11, 10), (1, 7), (7, 1)] {
        map.put(from, to)?;
    }
    let old = body(
        alloc,
        &[1, 2],
        &[
            (10, &[Fork(1, 12, 11)]),
            (11, &[Add(7, 1, 1), Jump(12)]),
            (12, &[Add(8, 7, 7), Return]),
        ],
    )?;
    let new = renumber(alloc, old, &map)?;
    let order = block_order(alloc, &new)?;
    assert_eq!(rt; order.as_slice(), [0, 2, 1].as_slice());
    assert_eq!(rt; first_use_above(alloc, &new, &order)?, Some((2, 0)));
    Ok(())
}

/// A body of as many blocks, each of which leads to the next one.
fn chain(alloc: Global, count: u32) -> Result<Body<Toy>, OutOfMemory> {
    let mut blocks = Vec::new(alloc);
    for name in 0..count {
        blocks.push(block(alloc, name, &[Jump(name.wrapping_add(1))])?)?;
    }
    Ok(Body {
        params: Items::new(alloc),
        blocks: Items::from_vec(blocks),
    })
}

/// A body of as many blocks, each of which may lead to two others.
fn forks(alloc: Global, count: u32) -> Result<Body<Toy>, OutOfMemory>
    requires { 0 < count }
{
    let mut blocks = Vec::new(alloc);
    for name in 0..count {
        let left = name.wrapping_add(1) % count;
        let right = name.wrapping_mul(2) % count;
        blocks.push(block(alloc, name, &[Fork(1, left, right)])?)?;
    }
    Ok(Body {
        params: Items::new(alloc),
        blocks: Items::from_vec(blocks),
    })
}

#[test]
fn large_bodies(rt: HostRuntime) -> Result<(), Fail> {
    let alloc = rt.alloc();
    for body in [chain(alloc, 100_000)?, forks(alloc, 10_000)?] {
        let order = block_order(alloc, &body)?;
        assert_eq!(rt; order.len(), body.blocks.len());
        assert_eq!(rt; first_use_above(alloc, &body, &order)?, None);
    }
    Ok(())
}

#[test]
fn long_chains_of_calls(rt: HostRuntime) -> Result<(), Fail> {
    let alloc = rt.alloc();
    let mut names = Vec::new(alloc);
    let mut callees = Vec::new(alloc);
    for name in 0..20_000u32 {
        names.push(name)?;
        callees.push(name + 1)?;
    }
    let bodies = callers(alloc, &callees)?;
    assert_eq!(rt; names.len(), bodies.len());
    assert_eq!(rt; call_cycle(alloc, &names, &bodies)?, None);
    Ok(())
}
