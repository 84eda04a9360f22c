ghost use Rattle.std.specs.Prelude.{◌≡◌, ◌<◌, ℕ, nat_eq, map, length, slice_get, Some};
ghost use Rattle.inst_walk.specs.Outline.{values_of, parents_of};
ghost use Rattle.inst_walk.specs.Renaming.{renamed_name};
ghost use Rattle.spv_module.specs.Insts.{taken_by, pairs_of};

use crate::inst::SpvInst;
use crate::roles::{IdRoles, has_result, has_result_type, roles_of};
use inst_walk::{InstSet, Renaming};
use sqlite_items::Items;

/// The names are the ids. The uses are the ids that an instruction takes, but for the result's type, for labels and for the function that
/// it calls.
impl InstSet for SpvInst {
    ghost use Rattle.std.proofs.Common.{eqb-true};
    ghost use Rattle.spv_module.specs.Insts.{inst_outline, inst_renamed};
    ghost use Rattle.spv_module.specs.InstLaws.{outline_of_renamed, inst_renamed_twice, inst_renamed_same, inst_renamed_alike};

    type Name = u32;

    ghost outline = { inst_outline };

    ghost renamed = { inst_renamed };

    ghost same_name = { eqb-true };

    ghost renamed_outline = { outline_of_renamed };

    ghost renamed_twice = { inst_renamed_twice };

    ghost renamed_alike = { inst_renamed_alike };

    ghost renamed_same = { inst_renamed_same };

    /// None exactly where the form has no result.
    fn result(&self) -> Option<u32> {
        if has_result(self.op) {
            Some(self.result)
        } else {
            None
        }
    }

    fn uses_len(&self) -> usize {
        taken_len(roles_of(self.op), self.operands.ids.as_slice())
    }

    fn use_at(&self, i: usize) -> u32 {
        taken_at(roles_of(self.op), self.operands.ids.as_slice(), i)
    }

    fn parent_at(&self, i: usize) -> Option<u32> {
        parent_of(roles_of(self.op), self.operands.ids.as_slice(), i)
    }

    fn is_phi(&self) -> bool {
        matches!(roles_of(self.op), IdRoles::Choices)
    }

    /// The function that an OpFunctionCall calls.
    fn callee(&self) -> Option<u32> {
        match roles_of(self.op) {
            IdRoles::Call => self.operands.ids.as_slice().first().copied(),
            _ => None,
        }
    }

    /// How many labels a terminator has.
    fn targets_len(&self) -> usize {
        match roles_of(self.op) {
            IdRoles::Targets(count) => self.operands.ids.len().saturating_sub(count),
            _ => 0,
        }
    }

    fn target_at(&self, i: usize) -> u32 {
        match roles_of(self.op) {
            IdRoles::Targets(count) => self.operands.ids.as_slice()[count + i],
            _ => 0,
        }
    }

    fn rename(&mut self, names: &Renaming<u32>) {
        if has_result_type(self.op) {
            self.ty = names.renamed(self.ty);
        }
        if has_result(self.op) {
            self.result = names.renamed(self.result);
        }
        rename_ids(&mut self.operands.ids, names);
    }
}

/// How many of the ids are values that the instruction takes.
#[tactic(auto, using(crate::proofs::PairLemmas::pairs_len))]
fn taken_len(roles: IdRoles, ids: &[u32]) -> usize
    ensures { result ≡ length (values_of (taken_by roles ids.now)) }
{
    match roles {
        IdRoles::Values => ids.len(),
        IdRoles::Call => ids.len().saturating_sub(1),
        IdRoles::Choices => ids.len() / 2,
        IdRoles::Targets(count) => count.min(ids.len()),
        IdRoles::Labels => 0,
    }
}

/// The value at place `i` of those.
fn taken_at(roles: IdRoles, ids: &[u32], i: usize) -> u32
    requires { i < length (values_of (taken_by roles ids.now)) }
    ensures { slice_get (values_of (taken_by roles ids.now)) i ≡ Some result }
{
    match roles {
        IdRoles::Values | IdRoles::Targets(_) => ids[i],
        IdRoles::Call => ids[i + 1],
        IdRoles::Choices => chosen_value(ids, i),
        IdRoles::Labels => 0,
    }
}

/// The predecessor block for which a phi takes that value.
fn parent_of(roles: IdRoles, ids: &[u32], i: usize) -> Option<u32>
    requires { i < length (values_of (taken_by roles ids.now)) }
    ensures { result ≡ slice_get (parents_of (taken_by roles ids.now)) i }
{
    match roles {
        IdRoles::Choices => Some(chosen_parent(ids, i)),
        _ => None,
    }
}

/// The first of the pair at place `i`.
fn chosen_value(ids: &[u32], i: usize) -> u32
    requires { i < length (pairs_of ids.now) }
    ensures { slice_get (map (λ (e : ℕ × ℕ). e.0) (pairs_of ids.now)) i ≡ Some result }
{
    ids[2 * i]
}

/// The second of the pair at place `i`.
fn chosen_parent(ids: &[u32], i: usize) -> u32
    requires { i < length (pairs_of ids.now) }
    ensures { slice_get (map (λ (e : ℕ × ℕ). e.1) (pairs_of ids.now)) i ≡ Some result }
{
    ids[2 * i + 1]
}

fn rename_ids(ids: &mut Items<u32>, names: &Renaming<u32>)
    ensures { ids.new ≡ map (renamed_name nat_eq names.now) ids.old }
{
    for i in 0..ids.len() {
        let id = ids.as_slice()[i];
        ids.set(i, names.renamed(id));
    }
}
