ghost use Rattle.std.specs.Prelude.{◌≡◌, ◌++◌, ℕ, nat_eq, IfOk, OnOk};
ghost use Rattle.std.specs.HashMap.{get};
ghost use Rattle.spv_names.specs.Definitions.{entry_of};
ghost use Rattle.spv_build.specs.Kept.{is_silent, kept_if, kept_of};

use ports::OutOfMemory;
use spv_codec::RawInst;
use spv_layout::Opcode;
use spv_names::{Definitions, is_dropped, is_versioned};
use sqlite_items::Items;
use std::alloc::Global;

/// The instructions of a binary that its module keeps.
///
/// `OutOfMemory` comes for want of memory alone.
pub(crate) fn kept_of(
    alloc: Global,
    insts: &[RawInst],
    definitions: &Definitions,
) -> Result<Vec<RawInst>, OutOfMemory>
    requires { (id : ℕ) → get nat_eq definitions.now.first id ≡ entry_of insts.now id }
    ensures { IfOk result (λ kept. kept.items ≡ kept_of insts.now) }
{
    let mut kept = Vec::new(alloc);
    let mut sourced = false;
    for inst in insts {
        let silent = is_silent(Opcode::from_number(inst.op));
        let dropped = is_dropped(insts, definitions, sourced, inst);
        push_kept(alloc, &mut kept, silent | dropped, inst)?;
        sourced |= is_versioned(inst);
    }
    Ok(kept)
}

/// Whether an instruction of this opcode is dropped wherever it stands.
fn is_silent(opcode: Option<Opcode>) -> bool
    ensures { result ≡ is_silent opcode }
{
    matches!(
        opcode,
        Some(
            Opcode::Nop
                | Opcode::NoLine
                | Opcode::SourceContinued
                | Opcode::SourceExtension
                | Opcode::ModuleProcessed
        )
    )
}

/// Appends a copy of an instruction that isn't left out.
fn push_kept(
    alloc: Global,
    kept: &mut Vec<RawInst>,
    left_out: bool,
    inst: &RawInst,
) -> Result<(), OutOfMemory>
    ensures { OnOk result (kept.new.items ≡ kept.old.items ++ kept_if left_out inst.now) }
{
    if left_out {
        return Ok(());
    }
    kept.push(RawInst {
        op: inst.op,
        place: inst.place,
        operands: Items::from_slice(alloc, inst.operands.as_slice())?,
    })?;
    Ok(())
}
