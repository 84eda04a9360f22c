ghost use Rattle.std.specs.Prelude.{◌≡◌, ◌^◌, ◌<◌, [], ◌∷◌, ◌++◌, length, slice_get, Some, IfOk, OnOk, OnErr};
ghost use Rattle.kern_types.specs.Parts.{HasPartsIn};

use kern_types::{PointerWidth, Ty, TyId, TypeTable};
use ports::OutOfMemory;
use sqlite_items::Items;
use std::alloc::Global;
use std::marker::Model;

/// What names a type of the table: its id, and of an array the id of the constant that is its length.
#[derive(Clone, Copy, Debug, PartialEq, Eq)]
pub struct TypeName {
    pub id: u32,
    pub length: Option<u32>,
    pub place: u64,
}

/// The types of a module (SPIR-V 1.2, 3.32.6), and the name of each, in the order of the table.
#[derive(Drop)]
pub struct Types {
    table: TypeTable,
    names: Items<TypeName>,
}

impl Model for Types {
    ghost use Rattle.std.specs.Prelude.{◌≡◌, ◌≤◌, ◌^◌, length};
    ghost use Rattle.spv_module.specs.NamedTypes.{NamedTypes};

    ghost Value = { NamedTypes };

    ghost view = { λ t. record { table = t.table; names = t.names } };

    ghost invariant = { λ t. (length t.names ≡ length t.table.types) × (length t.names ≤ 2 ^ 32) };
}

impl Types {
    /// No types. Pointers have this width. Takes no memory.
    pub fn new(alloc: Global, pointer: PointerWidth) -> Types
        ensures { result ≡ record { table = record { pointer = pointer; types = [] }; names = [] } }
    {
        Types {
            table: TypeTable::new(alloc, pointer),
            names: Items::new(alloc),
        }
    }

    /// Adds a type whose parts are in the table, with its name. Its place in the table is the number of types before it.
    ///
    /// `OutOfMemory` comes for want of memory alone, and leaves the types as they were.
    pub fn add(&mut self, ty: Ty, name: TypeName) -> Result<(), OutOfMemory>
        requires room { length self.old.names < 2 ^ 32 }
        requires parts { HasPartsIn (length self.old.names) ty }
        ensures added { OnOk result (self.new ≡ record {
          table = record self.old.table { types = self.old.table.types ++ ty ∷ [] };
          names = self.old.names ++ name ∷ [];
        }) }
        ensures unchanged { OnErr result (self.new ≡ self.old) }
    {
        self.names.push(name)?;
        match self.table.add(ty) {
            Ok(_) => Ok(()),
            Err(refused) => {
                self.names.pop();
                Err(refused)
            }
        }
    }

    /// The table of the types.
    pub fn table(&self) -> &TypeTable
        ensures { result.now ≡ self.now.table }
    {
        &self.table
    }

    /// The names of the types, in the order of the table.
    pub fn names(&self) -> &[TypeName]
        ensures { result.now ≡ self.now.names }
    {
        self.names.as_slice()
    }

    /// The type at a place of the table.
    pub fn at(&self, place: usize) -> &Ty
        requires { place < length self.now.names }
        ensures { slice_get self.now.table.types place ≡ Some result.now }
    {
        self.table.get(TyId(place as u32))
    }
}
