ghost use Rattle.std.specs.Prelude.{◌≡◌, ℕ, [], Some, OnOk, OnErr, if◌then◌else◌, map};
ghost use Rattle.inst_walk.specs.Renaming.{new_name, renamed_name};

use indexmap::IndexMap;
use ports::OutOfMemory;
use sqlite_items::Items;
use std::alloc::Global;
use std::hash::Hash;
use std::marker::Model;

/// A finite map from names to names.
#[derive(Drop)]
pub struct Renaming<N: Copy + Ord + Hash> {
    names: IndexMap<N, N>,
}

impl<N: Copy + Ord + Hash> Model for Renaming<N> {
    ghost use Rattle.std.specs.Prelude.{List};

    ghost Value = { List (N × N) };

    ghost view = { λ r. r.names.entries };
}

impl<N: Copy + Ord + Hash> Renaming<N> {
    /// The map without names. Takes no memory.
    pub fn new(alloc: Global) -> Renaming<N>
        ensures { result ≡ [] }
    {
        Renaming {
            names: IndexMap::new(alloc),
        }
    }

    /// Gives `from` the new name `to`, in place of the one that it has.
    ///
    /// `OutOfMemory` comes for want of memory alone, and leaves the map as it was.
    pub fn put(&mut self, from: N, to: N) -> Result<(), OutOfMemory>
        ensures renamed { OnOk result ((name : N) → new_name N.eq self.new name ≡ (if N.eq from name then Some to else new_name N.eq self.old name)) }
        ensures err { OnErr result (self.new ≡ self.old) }
    {
        self.names.insert(from, to)?;
        Ok(())
    }

    /// The new name of `from`: `None` exactly where the map lacks it.
    pub fn get(&self, from: N) -> Option<N>
        ensures { result ≡ new_name N.eq self.now from }
    {
        self.names.get(&from).copied()
    }

    /// The new name of `from`, or `from` itself where the map lacks it.
    pub fn renamed(&self, from: N) -> N
        ensures { result ≡ renamed_name N.eq self.now from }
    {
        self.get(from).unwrap_or(from)
    }

    /// Replaces each name of the list by its new one. A name that the map lacks stays.
    pub fn rename_all(&self, names: &mut Items<N>)
        ensures { names.new ≡ map (renamed_name N.eq self.now) names.old }
    {
        for i in 0..names.len() {
            let name = names.as_slice()[i];
            names.set(i, self.renamed(name));
        }
    }
}
