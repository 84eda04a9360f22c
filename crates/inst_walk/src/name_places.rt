ghost use Rattle.std.specs.Prelude.{◌≡◌, IfOk, length, take};
ghost use Rattle.inst_walk.specs.Places.{place_of, is_among};

use indexmap::IndexMap;
use ports::OutOfMemory;
use std::alloc::Global;
use std::hash::Hash;
use std::marker::Model;

/// A list of names that tells where a name stands in it. Contracts see the list.
#[derive(Drop)]
pub struct Places<N: Copy + Ord + Hash> {
    names: Vec<N>,
    table: IndexMap<N, usize>,
}

impl<N: Copy + Ord + Hash> Model for Places<N> {
    ghost use Rattle.std.specs.Prelude.{◌≡◌, List};
    ghost use Rattle.indexmap.specs.IndexMap.{get};
    ghost use Rattle.inst_walk.specs.Places.{place_of};

    ghost Value = { List N };

    ghost view = { λ p. p.names.items };

    ghost invariant = { λ p. (name : N) → get N.eq p.table name ≡ place_of N.eq p.names.items name };
}

impl<N: Copy + Ord + Hash> Places<N> {
    /// The list with a table of its names.
    ///
    /// `OutOfMemory` comes for want of memory alone.
    pub fn new(alloc: Global, names: Vec<N>) -> Result<Places<N>, OutOfMemory>
        ensures { IfOk result (λ places. places ≡ names.items) }
    {
        let mut table = IndexMap::new(alloc);
        let mut at = names.len();
        while at > 0 {
            at -= 1;
            table.insert(names[at], at)?;
        }
        Ok(Places { names, table })
    }

    /// The first place at which the name stands, counted from 0. None exactly where the list lacks it.
    pub fn place(&self, name: N) -> Option<usize>
        ensures { result ≡ place_of N.eq self.now name }
    {
        self.table.get(&name).copied()
    }

    /// How many names there are.
    pub fn len(&self) -> usize
        ensures { result ≡ length self.now }
    {
        self.names.len()
    }

    /// Whether the name stands in the list.
    pub fn has(&self, name: N) -> bool
        ensures { result ≡ is_among N.eq self.now name }
    {
        self.place(name).is_some()
    }

    /// Whether the name stands among the first `limit` names.
    pub fn has_above(&self, limit: usize, name: N) -> bool
        ensures { result ≡ is_among N.eq (take limit self.now) name }
    {
        match self.place(name) {
            None => false,
            Some(place) => place < limit,
        }
    }
}
