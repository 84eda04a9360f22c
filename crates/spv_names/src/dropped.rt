ghost use Rattle.std.specs.Prelude.{◌≡◌, ℕ, nat_eq, slice_get};
ghost use Rattle.std.specs.Option.{option_copied};
ghost use Rattle.std.specs.HashMap.{get};
ghost use Rattle.spv_codec.specs.Ids.{is_id};
ghost use Rattle.spv_layout.specs.Forms.{opcode_of};
ghost use Rattle.spv_names.specs.Definitions.{entry_of};
ghost use Rattle.spv_names.specs.Uses.{is_versioned_by, is_versioned, is_idle, is_idle_mode, is_input, imports_input, dropped_by};

use crate::definitions::Definitions;
use spv_codec::RawInst;
use spv_layout::Opcode;

/// Whether an instruction of a module is dropped, so that what it uses isn't looked at, where an earlier source is kept or not.
/// Instructions that use no ids aren't told apart.
pub fn is_dropped(
    insts: &[RawInst],
    definitions: &Definitions,
    sourced: bool,
    inst: &RawInst,
) -> bool
    requires { (id : ℕ) → get nat_eq definitions.now.first id ≡ entry_of insts.now id }
    ensures { result ≡ dropped_by sourced (imports_input insts.now inst.now.operands) (opcode_of inst.now.op) inst.now }
{
    let operands = inst.operands.as_slice();
    match Opcode::from_number(inst.op) {
        Some(
            Opcode::Name
            | Opcode::MemberName
            | Opcode::Line
            | Opcode::LoopMerge
            | Opcode::SelectionMerge
            | Opcode::LifetimeStart
            | Opcode::LifetimeStop,
        ) => true,
        Some(Opcode::Source) => sourced | !is_versioned(inst),
        Some(Opcode::ExecutionMode) => is_idle_mode(word_at(operands, 1)),
        Some(Opcode::Decorate) => {
            imports_input(insts, definitions, operands) | is_idle(word_at(operands, 1))
        }
        Some(Opcode::MemberDecorate) => is_idle(word_at(operands, 2)),
        _ => false,
    }
}

fn word_at(words: &[u32], index: usize) -> Option<u32>
    ensures { result ≡ slice_get words.now index }
{
    words.get(index).copied()
}

/// Whether a word is there, and this one.
fn is_word(word: u32, at: Option<u32>) -> bool
    ensures { result ≡ is_id word at }
{
    match at {
        Some(other) => other == word,
        None => false,
    }
}

/// Whether an instruction is a source of OpenCL C with a version that is kept: one digit other than 0 before two others and three zeros.
pub fn is_versioned(inst: &RawInst) -> bool
    ensures { result ≡ is_versioned inst.now }
{
    let operands = inst.operands.as_slice();
    let language = word_at(operands, 0);
    let version = word_at(operands, 1);
    (inst.op == Opcode::Source.number()) & is_word(3, language) & is_versioned_by(version)
}

fn is_versioned_by(version: Option<u32>) -> bool
    ensures { result ≡ is_versioned_by version }
{
    match version {
        Some(version) => { (version % 1000 == 0) & (100_000 <= version) & (version <= 999_000) }
        None => false,
    }
}

/// Whether a decoration has no meaning here: Restrict, Aliased, Volatile, Constant or Coherent.
fn is_idle(decoration: Option<u32>) -> bool
    ensures { result ≡ is_idle decoration }
{
    match decoration {
        Some(decoration) => (19 <= decoration) & (decoration <= 23),
        None => false,
    }
}

/// Whether a mode has no meaning here: VecTypeHint or ContractionOff.
fn is_idle_mode(mode: Option<u32>) -> bool
    ensures { result ≡ is_idle_mode mode }
{
    is_word(30, mode) | is_word(31, mode)
}

/// Whether a definition is a variable of class Input.
fn is_input(definition: Option<&RawInst>) -> bool
    ensures { result ≡ is_input (option_copied definition.entry) }
{
    match definition {
        Some(inst) => {
            let class = word_at(inst.operands.as_slice(), 2);
            (inst.op == Opcode::Variable.number()) & is_word(1, class)
        }
        None => false,
    }
}

/// Whether the operands of an OpDecorate import a variable of class Input.
fn imports_input(insts: &[RawInst], definitions: &Definitions, operands: &[u32]) -> bool
    requires { (id : ℕ) → get nat_eq definitions.now.first id ≡ entry_of insts.now id }
    ensures { result ≡ imports_input insts.now operands.now }
{
    match operands {
        [target, words @ ..] => {
            let linkage = word_at(words, words.len().saturating_sub(1));
            let decoration = word_at(words, 0);
            is_word(41, decoration)
                & is_word(1, linkage)
                & is_input(definitions.find(insts, insts.len(), *target))
        }
        [] => false,
    }
}
