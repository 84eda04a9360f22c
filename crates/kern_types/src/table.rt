ghost use Rattle.std.specs.Prelude.{◌≡◌, ◌^◌, ◌<◌, [], ◌∷◌, ◌++◌, length, slice_get, map, All, Some, IfOk, OnErr, IsSome};
ghost use Rattle.kern_types.specs.Tables.{Names, kept_at, size_at, align_at};
ghost use Rattle.kern_types.specs.Parts.{HasPartsIn};
ghost use Rattle.kern_types.specs.Layouts.{entries_of};
ghost use Rattle.kern_types.specs.Kept.{capped_entry, IsKeptEntry};

use crate::class::PointerWidth;
use crate::layout::{Entry, LARGEST_SIZE, Layout, layout_of};
use crate::ty::{Ty, TyId};
use ports::OutOfMemory;
use std::alloc::Global;
use std::marker::Model;

/// A list of types, with the size and the alignment of each.
#[derive(Debug, Drop)]
pub struct TypeTable {
    pointer: PointerWidth,
    entries: Vec<Entry>,
}

impl Model for TypeTable {
    ghost use Rattle.kern_types.specs.Tables.{Table};

    ghost Value = { Table };

    ghost use Rattle.std.specs.Prelude.{map};
    ghost use Rattle.kern_types.specs.Kept.{IsTable};

    ghost view = { λ t. record { pointer = t.pointer; types = map (λ entry. entry.ty) t.entries.items } };

    ghost invariant = { λ t. IsTable t.pointer t.entries.items };
}

impl TypeTable {
    /// A table with no types, whose pointers have this width.
    pub fn new(alloc: Global, pointer: PointerWidth) -> TypeTable
        ensures { result ≡ record { pointer = pointer; types = [] } }
    {
        TypeTable {
            pointer,
            entries: Vec::new(alloc),
        }
    }

    /// Adds a type whose parts are in the table. Its id is the number of types before it.
    pub fn add(&mut self, ty: Ty) -> Result<TyId, OutOfMemory>
        requires room { length self.old.types < 2 ^ 32 }
        requires parts { HasPartsIn (length self.old.types) ty }
        ensures id { IfOk result (λ id. id.0 ≡ length self.old.types) }
        ensures added { IfOk result (λ id.
            self.new ≡ record self.old { types = self.old.types ++ ty ∷ [] }) }
        ensures unchanged { OnErr result (self.new ≡ self.old) }
    {
        let id = TyId(self.entries.len() as u32);
        let layout = layout_of(self.pointer, self.entries.as_slice(), &ty);
        self.entries.push(Entry { ty, layout })?;
        Ok(id)
    }

    /// The type that an id of the table names.
    pub fn get(&self, id: TyId) -> &Ty
        requires { Names self.now id }
        ensures { slice_get self.now.types id.0 ≡ Some result.now }
    {
        &self.entries[id.0 as usize].ty
    }

    /// The types with their layouts as they are kept.
    pub(crate) fn entries(&self) -> &[Entry]
        ensures exact { result.now ≡ map capped_entry (entries_of self.now.pointer self.now.types) }
        ensures kept { All IsKeptEntry result.now }
    {
        self.entries.as_slice()
    }

    /// The layout of a type of at most the greatest size.
    fn layout(&self, id: TyId) -> Option<Layout>
        requires { Names self.now id }
        ensures { result ≡ kept_at self.now id }
    {
        let layout = self.entries[id.0 as usize].layout?;
        if layout.size <= LARGEST_SIZE {
            Some(layout)
        } else {
            None
        }
    }
}

/// The size of a type of the table, in bytes. None exactly where the type has no size, or one above
/// 2^40: integers of 8 bits or more, vectors of them, pointers, and arrays and structs of such types
/// have one.
pub fn size_of(table: &TypeTable, ty: TyId) -> Option<u64>
    requires { Names table.now ty }
    ensures { result ≡ size_at table.now ty }
{
    table.layout(ty).map(|layout| layout.size)
}

/// The alignment of a type of the table, in bytes. None exactly where it has no size, or one above 2^40.
pub fn align_of(table: &TypeTable, ty: TyId) -> Option<u64>
    requires { Names table.now ty }
    ensures { result ≡ align_at table.now ty }
{
    table.layout(ty).map(|layout| layout.align)
}
