ghost use Rattle.std.specs.Prelude.{◌≡◌, ◌<◌, nat_eq, map, length, slice_get, Some};
ghost use Rattle.inst_walk.specs.Renaming.{renamed_name};
ghost use Rattle.ll_tree.specs.Insts.{inst_renamed};
ghost use Rattle.ll_tree.specs.Names.{number_of};
ghost use Rattle.ll_tree.specs.Ops.{op_targets};

use crate::inst::{Inst, LlInst};
use crate::op::Op;
use crate::op_renaming::rename_op;
use crate::renaming::rename;
use inst_walk::{InstSet, Renaming};

/// The names are the numbers that the module's table gives them. The names of struct types are none of them,
/// and `rename` leaves them as they are.
impl InstSet for LlInst {
    ghost use Rattle.std.proofs.Common.{eqb-true};
    ghost use Rattle.ll_tree.specs.Insts.{inst_outline};
    ghost use Rattle.ll_tree.specs.InstLaws.{outline_of_renamed, inst_renamed_twice, inst_renamed_same, inst_renamed_alike};

    type Name = u32;

    ghost outline = { inst_outline };

    ghost renamed = { inst_renamed };

    ghost same_name = { eqb-true };

    ghost renamed_outline = { outline_of_renamed };

    ghost renamed_twice = { inst_renamed_twice };

    ghost renamed_alike = { inst_renamed_alike };

    ghost renamed_same = { inst_renamed_same };

    /// None exactly where the instruction has no value.
    fn result(&self) -> Option<u32> {
        match self.inst.defines {
            Some(name) => Some(name.number),
            None => None,
        }
    }

    /// How many named values its operands have, those inside constant expressions too.
    fn uses_len(&self) -> usize {
        self.uses.values.len()
    }

    fn use_at(&self, i: usize) -> u32 {
        self.uses.values[i]
    }

    fn parent_at(&self, i: usize) -> Option<u32> {
        self.uses.parents.get(i).copied()
    }

    fn is_phi(&self) -> bool {
        matches!(self.inst.op, Op::Phi { .. })
    }

    fn callee(&self) -> Option<u32> {
        match &self.inst.op {
            Op::Call { callee, .. } => Some(callee.number),
            _ => None,
        }
    }

    /// How many labels a terminator has.
    fn targets_len(&self) -> usize {
        match &self.inst.op {
            Op::Jump { .. } => 1,
            Op::Branch { .. } => 2,
            Op::Switch { cases, .. } => 1 + cases.as_slice().len(),
            _ => 0,
        }
    }

    fn target_at(&self, i: usize) -> u32 {
        target(&self.inst.op, i)
    }

    fn rename(&mut self, names: &Renaming<u32>) {
        rename_inst(&mut self.inst, names);
        rename_numbers(&mut self.uses.values, names);
        rename_numbers(&mut self.uses.parents, names);
    }
}

fn target(op: &Op, i: usize) -> u32
    requires { i < length (op_targets op.now) }
    ensures { slice_get (map number_of (op_targets op.now)) i ≡ Some result }
{
    match op {
        Op::Jump { target } => target.number,
        Op::Branch { accepted, .. } if i == 0 => accepted.number,
        Op::Branch { rejected, .. } => rejected.number,
        Op::Switch { default, .. } if i == 0 => default.number,
        Op::Switch { cases, .. } => cases.as_slice()[i - 1].target.number,
        _ => 0,
    }
}

fn rename_inst(inst: &mut Inst, names: &Renaming<u32>)
    ensures { inst.new ≡ inst_renamed (renamed_name nat_eq names.now) inst.old }
{
    if let Some(name) = &mut inst.defines {
        rename(name, names);
    }
    rename_op(&mut inst.op, names);
}

fn rename_numbers(numbers: &mut Vec<u32>, names: &Renaming<u32>)
    ensures { numbers.new.items ≡ map (renamed_name nat_eq names.now) numbers.old.items }
{
    for i in 0..numbers.len() {
        numbers[i] = names.renamed(numbers[i]);
    }
}
