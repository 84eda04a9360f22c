ghost use Rattle.std.specs.Prelude.{◌≡◌, ℕ, nat_eq, take};
ghost use Rattle.std.specs.Option.{option_copied};
ghost use Rattle.std.specs.HashMap.{get};
ghost use Rattle.spv_names.specs.Definitions.{entry_of};
ghost use Rattle.spv_names.specs.Uses.{has_wide};
ghost use Rattle.spv_names.specs.Widths.{is_wide_type, type_by, type_of, option_type, wide_by, wide_words};

use crate::definitions::Definitions;
use spv_codec::RawInst;
use spv_layout::{Opcode, OperandKind, form_of};

/// Whether the literal numbers of an instruction take two words, as the first `before` instructions of its module say.
pub fn has_wide(insts: &[RawInst], definitions: &Definitions, before: usize, inst: &RawInst) -> bool
    requires { (id : ℕ) → get nat_eq definitions.now.first id ≡ entry_of insts.now id }
    ensures { result ≡ has_wide (take before insts.now) inst.now }
{
    are_wide_words(
        insts,
        definitions,
        before,
        inst.op,
        inst.operands.as_slice(),
    )
}

fn are_wide_words(
    insts: &[RawInst],
    definitions: &Definitions,
    before: usize,
    op: u16,
    words: &[u32],
) -> bool
    requires { (id : ℕ) → get nat_eq definitions.now.first id ≡ entry_of insts.now id }
    ensures { result ≡ wide_words (take before insts.now) op words.now }
{
    match words {
        [first, ..] => is_wide_by(insts, definitions, before, op, *first),
        [] => false,
    }
}

/// The same by the opcode and the first operand: the type of an OpConstant, or the selector of an OpSwitch.
fn is_wide_by(
    insts: &[RawInst],
    definitions: &Definitions,
    before: usize,
    op: u16,
    first: u32,
) -> bool
    requires { (id : ℕ) → get nat_eq definitions.now.first id ≡ entry_of insts.now id }
    ensures { result ≡ wide_by (take before insts.now) op first }
{
    if op == Opcode::Constant.number() {
        is_wide_type(definitions.find(insts, before, first))
    } else if op == Opcode::Switch.number() {
        match type_of(definitions.find(insts, before, first)) {
            Some(value_type) => is_wide_type(definitions.find(insts, before, value_type)),
            None => false,
        }
    } else {
        false
    }
}

/// Whether a definition is an integer type of 64 bits.
fn is_wide_type(definition: Option<&RawInst>) -> bool
    ensures { result ≡ is_wide_type (option_copied definition.entry) }
{
    match definition {
        Some(inst) if inst.op == Opcode::TypeInt.number() => {
            matches!(inst.operands.as_slice(), [_, 64, ..])
        }
        _ => false,
    }
}

/// The type of what is defined, where it has one.
fn type_of(definition: Option<&RawInst>) -> Option<u32>
    ensures { result ≡ option_type (option_copied definition.entry) }
{
    match definition {
        Some(inst) => type_of_inst(inst),
        None => None,
    }
}

#[tactic(auto, unfolding(crate::specs::Widths::type_of))]
fn type_of_inst(inst: &RawInst) -> Option<u32>
    ensures { result ≡ type_of inst.now }
{
    if inst.op == Opcode::TypeInt.number() {
        return None;
    }
    match form_of(inst.op) {
        Some(form) => type_by(form.operands, inst.operands.as_slice()),
        None => None,
    }
}

fn type_by(kinds: &[OperandKind], words: &[u32]) -> Option<u32>
    ensures { result ≡ type_by kinds.now words.now }
{
    match (kinds, words) {
        ([OperandKind::T, ..], [value_type, ..]) => Some(*value_type),
        _ => None,
    }
}
