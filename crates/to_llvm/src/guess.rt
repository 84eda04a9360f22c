ghost use Rattle.std.specs.Prelude.{◌≡◌, IfOk};
ghost use Rattle.to_llvm.specs.Guesses.{guessed};

use crate::entry::entry_text;
use crate::ids::KnownIds;
use crate::insts::insts;
use crate::operands::{first_operands, operand};
use crate::params::params;
use crate::table::names;
use kernel_tree::Kernel;
use ll_tree::Name;
use ports::OutOfMemory;
use spv_codec::RawInst;
use spv_layout::Opcode;
use sqlite_items::Items;
use std::alloc::Global;

/// The kernel that instructions are taken for, whatever they are.
#[tactic(auto, unfolding(crate::specs::Guesses::guessed))]
pub(crate) fn guess(alloc: Global, raw: &[RawInst]) -> Result<Kernel, OutOfMemory>
    ensures { IfOk result (λ kernel. kernel ≡ guessed raw.now) }
{
    let ids = KnownIds::of(raw);
    let params = params(alloc, raw, ids)?;
    let insts = insts(alloc, raw, ids)?;
    let text = entry_text(alloc, raw)?;
    let names = names(alloc, text, &params, &insts)?;
    Ok(Kernel {
        has_targets: true,
        name: Name { number: 0, byte: 0 },
        params: Items::from_vec(params),
        block: ids.name(operand(first_operands(raw, Opcode::Label), 0)),
        insts: Items::from_vec(insts),
        names,
    })
}
