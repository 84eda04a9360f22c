ghost use Rattle.std.specs.Prelude.{◌≡◌};
ghost use Rattle.std.specs.Cmp.Lexicographic.{pointwise};
ghost use Rattle.to_llvm.specs.SameModules.{same_inst, same_module};

use spv_codec::{RawInst, RawModule};

/// Whether two modules are the same but for the order of the bytes.
pub(crate) fn is_same_module(raw: &RawModule, made: &RawModule) -> bool
    ensures { result ≡ same_module raw.now made.now }
{
    raw.version == made.version
        && raw.generator == made.generator
        && raw.bound == made.bound
        && are_same_insts(raw.insts.as_slice(), made.insts.as_slice())
}

fn are_same_insts(insts: &[RawInst], others: &[RawInst]) -> bool
    ensures { result ≡ pointwise same_inst insts.now others.now }
{
    if insts.len() != others.len() {
        return false;
    }
    for i in 0..insts.len() {
        if !is_same_inst(&insts[i], &others[i]) {
            return false;
        }
    }
    true
}

fn is_same_inst(inst: &RawInst, other: &RawInst) -> bool
    ensures { result ≡ same_inst inst.now other.now }
{
    inst.op == other.op
        && inst.place == other.place
        && inst.operands.as_slice() == other.operands.as_slice()
}
