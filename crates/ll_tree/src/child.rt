ghost use Rattle.std.specs.Prelude.{◌≡◌, IfOk};

use ports::OutOfMemory;
use std::alloc::Global;
use std::marker::Model;

/// The one part of a tree's node, which can be changed in place. Contracts see the part itself.
#[derive(Debug, Drop)]
pub struct Child<T> {
    part: Box<T>,
}

impl<T> Model for Child<T> {
    ghost Value = { T };

    ghost coded = { T.code };

    ghost view = { λ child. child.part.value };
}

impl<T> Child<T> {
    ghost use Rattle.std.specs.Borrow.{sem};
    ghost use Rattle.ll_tree.specs.Lends.{lends_child};

    /// The part.
    pub fn get(&self) -> &T
        ensures { result.now ≡ self.now }
    {
        &self.part
    }

    /// The part, to be changed in place.
    pub fn get_mut(&mut self) -> &mut T
        ensures* writes_back { sem 𝓛 (lends_child T.row self.entry result) }
        ensures value { result.now ≡ self.old }
    {
        &mut self.part
    }
}

impl<T: Drop> Child<T> {
    /// A node's only part.
    ///
    /// `OutOfMemory` comes for want of memory alone.
    pub fn new(alloc: Global, part: T) -> Result<Child<T>, OutOfMemory>
        ensures { IfOk result (λ child. child ≡ part) }
    {
        Ok(Child {
            part: Box::new(alloc, part)?,
        })
    }
}
