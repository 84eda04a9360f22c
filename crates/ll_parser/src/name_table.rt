ghost use Rattle.std.specs.Prelude.{◌≡◌, ℕ, ◌⊎◌, ◌++◌, ◌∷◌, [], Some, slice_get, IfOk, OnOk, OnErr, length};
ghost use Rattle.std.specs.Option.{option_copied};
ghost use Rattle.ll_parser.specs.Tables.{NoNameTwice};

use crate::name_key::NameKey;
use indexmap::IndexSet;
use ll_tree::NameText;
use sqlite_items::Items;
use std::alloc::{AllocError, Global};
use std::marker::Model;

/// The names of a text, each once, in the order in which they were first met. A name's number is its place. Contracts see
/// the list of the names.
#[derive(Drop)]
pub struct NameTable {
    names: IndexSet<NameKey>,
}

impl Model for NameTable {
    ghost use Rattle.std.specs.Prelude.{List};
    ghost use Rattle.std.specs.Coded.{coded_list};
    ghost use Rattle.ll_tree.specs.declared.name.NameText.{NameText};
    ghost use Rattle.ll_tree.specs.contracts.name.NameText as plain;

    ghost Value = { List NameText };

    ghost coded = { coded_list plain.the_row.coded };

    ghost view = { λ table. table.names.keys };
}

impl NameTable {
    /// A table without names.
    pub fn new(alloc: Global) -> NameTable
        ensures { result ≡ [] }
    {
        NameTable {
            names: IndexSet::new(alloc),
        }
    }

    /// The number of the name, which is put behind the others where the table lacks it. It fails for want of memory, which
    /// is told too where the table has 2^32 names; the table then stays as it is.
    pub fn number_of(&mut self, name: NameText) -> Result<u32, AllocError>
        ensures entry { IfOk result (λ number. slice_get self.new number ≡ Some name) }
        ensures known { (i : ℕ) → slice_get self.old i ≡ Some name → IfOk result (λ number. (number ≡ i) × (self.new ≡ self.old)) }
        ensures kept { (self.new ≡ self.old) ⊎ (self.new ≡ self.old ++ name ∷ []) }
        ensures err { OnErr result (self.new ≡ self.old) }
    {
        if self.names.len() > u32::MAX as usize {
            return Err(AllocError);
        }
        match self.names.insert_full(NameKey::new(name)) {
            Ok((place, _is_new)) => return Ok(place as u32),
            Err(_refused) => {}
        }
        Err(AllocError)
    }

    /// The name of a number. None exactly where no name has it.
    pub fn name(&self, number: u32) -> Option<&NameText>
        ensures { option_copied result ≡ slice_get self.now number }
    {
        let key = self.names.get_index(number as usize)?;
        Some(key.name())
    }

    /// The names in the order of their numbers, each of them once. It fails only for want of memory.
    pub fn into_items(self, alloc: Global) -> Result<Items<NameText>, AllocError>
        ensures names { IfOk result (λ names. names ≡ self) }
        ensures once { OnOk result (NoNameTwice self) }
    {
        let NameTable { names } = self;
        let mut items = Items::new(alloc);
        for key in names {
            items.push(key.into_name())?;
        }
        Ok(items)
    }
}
