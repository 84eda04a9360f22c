ghost use Rattle.std.specs.Prelude.{◌≡◌, IfOk};

use crate::name::Name;
use crate::op::Op;
use crate::op_uses::{UseList, uses_of};
use ports::OutOfMemory;
use std::alloc::Global;
use std::marker::Model;

/// An instruction: the byte of its first token, the name of its value if it has one, and what it does.
#[derive(Drop)]
pub struct Inst {
    pub byte: u64,
    pub defines: Option<Name>,
    pub op: Op,
}

/// An instruction with a list of the named values that it takes, so that each of them is at hand. Contracts
/// see the instruction.
#[derive(Drop)]
pub struct LlInst {
    pub(crate) inst: Inst,
    pub(crate) uses: UseList,
}

impl Model for LlInst {
    ghost use Rattle.std.specs.Prelude.{◌≡◌};
    ghost use Rattle.inst_walk.specs.Outline.{values_of, parents_of};
    ghost use Rattle.ll_tree.specs.declared.inst.Inst.{Inst};
    ghost use Rattle.ll_tree.specs.Ops.{op_takes};
    ghost use Rattle.ll_tree.specs.contracts.inst.Inst as plain;
    ghost use Rattle.std.specs.Coded.{codes};

    ghost Value = { Inst };

    ghost coded = { plain.the_row.coded };

    ghost view = { λ a. a.inst };

    ghost invariant = { λ a. (a.uses.values.items ≡ values_of (op_takes a.inst.op)) × (a.uses.parents.items ≡ parents_of (op_takes a.inst.op)) };
}

impl LlInst {
    /// The instruction with the list of its named values.
    ///
    /// `OutOfMemory` comes for want of memory alone.
    pub fn new(alloc: Global, inst: Inst) -> Result<LlInst, OutOfMemory>
        ensures { IfOk result (λ made. made ≡ inst) }
    {
        let uses = uses_of(alloc, &inst.op)?;
        Ok(LlInst { inst, uses })
    }

    /// The instruction.
    pub fn inst(&self) -> &Inst
        ensures { result.now ≡ self.now }
    {
        &self.inst
    }

    /// The instruction, without the list.
    pub fn into_inst(self) -> Inst
        ensures { result ≡ self }
    {
        let LlInst { inst, uses: _ } = self;
        inst
    }
}
