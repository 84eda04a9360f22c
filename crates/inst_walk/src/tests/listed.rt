//! An instruction set whose instructions hold an optional name and lists of names.

use crate::inst_set::InstSet;
use crate::renaming::Renaming;
use sqlite_items::Items;

/// An instruction that takes any number of values and leads to any number of blocks. Its names are numbers.
#[derive(Drop)]
pub struct Listed {
    pub to: Option<u32>,
    pub values: Items<u32>,
    pub labels: Items<u32>,
}

impl InstSet for Listed {
    ghost use Rattle.std.specs.Prelude.{ℕ, List, [], Option, None, map, refl};
    ghost use Rattle.std.specs.Option.{option_map};
    ghost use Rattle.std.proofs.Common.{◌≡◌, eqb-true};
    ghost use Rattle.inst_walk.specs.InstLaws.{alike_3, in_each_role, option_twice, list_twice, option_same, list_same, option_alike, list_alike};
    ghost use Rattle.inst_walk.specs.Outline.{Outline, Uses, Plain};
    ghost use Rattle.inst_walk.specs.declared.tests.listed.Listed.{Listed};

    type Name = u32;

    ghost outline = { λ inst. record { defines = inst.to; uses = Plain inst.values; calls = None; leads_to = inst.labels; others = [] } };

    ghost renamed = { λ f inst. record { to = option_map f inst.to; values = map f inst.values; labels = map f inst.labels } };

    ghost same_name = { eqb-true };

    ghost renamed_outline = { λ f inst. refl };

    ghost renamed_twice = { λ f g inst.
        let made : Option ℕ → List ℕ → List ℕ → Listed = λ to values labels. record { to = to; values = values; labels = labels } in
        alike_3 made (option_twice f g inst.to) (list_twice f g inst.values) (list_twice f g inst.labels) };

    ghost renamed_alike = { λ f g inst all.
        let outline : Outline ℕ = record { defines = inst.to; uses = Plain inst.values; calls = None; leads_to = inst.labels; others = [] } in
        let roles = in_each_role (λ name. f name ≡ g name) outline all in
        let made : Option ℕ → List ℕ → List ℕ → Listed = λ to values labels. record { to = to; values = values; labels = labels } in
        alike_3 made (option_alike f g inst.to roles.defines) (list_alike f g inst.values roles.values) (list_alike f g inst.labels roles.leads_to) };

    ghost renamed_same = { λ inst.
        let made : Option ℕ → List ℕ → List ℕ → Listed = λ to values labels. record { to = to; values = values; labels = labels } in
        alike_3 made (option_same inst.to) (list_same inst.values) (list_same inst.labels) };

    fn result(&self) -> Option<u32> {
        self.to
    }

    fn uses_len(&self) -> usize {
        self.values.len()
    }

    fn use_at(&self, i: usize) -> u32 {
        self.values.as_slice()[i]
    }

    fn parent_at(&self, _i: usize) -> Option<u32> {
        None
    }

    fn is_phi(&self) -> bool {
        false
    }

    fn callee(&self) -> Option<u32> {
        None
    }

    fn targets_len(&self) -> usize {
        self.labels.len()
    }

    fn target_at(&self, i: usize) -> u32 {
        self.labels.as_slice()[i]
    }

    fn rename(&mut self, map: &Renaming<u32>) {
        if let Some(name) = &mut self.to {
            *name = map.renamed(*name);
        }
        map.rename_all(&mut self.values);
        map.rename_all(&mut self.labels);
    }
}
