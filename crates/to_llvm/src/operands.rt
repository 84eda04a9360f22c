ghost use Rattle.std.specs.Prelude.{◌≡◌};
ghost use Rattle.to_llvm.specs.Guesses.{first_operands, operand, is_op};

use spv_codec::RawInst;
use spv_layout::Opcode;

/// Whether an instruction has this opcode.
pub(crate) fn is_op(inst: &RawInst, opcode: Opcode) -> bool
    ensures { result ≡ is_op opcode inst.now }
{
    inst.op == opcode.number()
}

/// The operands of the first instruction with this opcode, none where there is no such instruction.
pub(crate) fn first_operands(insts: &[RawInst], opcode: Opcode) -> &[u32]
    ensures { result.now ≡ first_operands opcode insts.now }
{
    for inst in insts {
        if is_op(inst, opcode) {
            return inst.operands.as_slice();
        }
    }
    &[]
}

/// The operand at a place, or 0 where there is none.
pub(crate) fn operand(words: &[u32], at: usize) -> u32
    ensures { result ≡ operand words.now at }
{
    match words.get(at) {
        Some(word) => *word,
        None => 0,
    }
}
