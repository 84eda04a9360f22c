ghost use Rattle.std.specs.Prelude.{◌≡◌, if◌then◌else◌, true, false, ◌++◌, ◌<◌, ◌∷◌, ℕ, nat_eq, [], MatchOption, take, drop, length, IfOk, OnOk};
ghost use Rattle.std.specs.HashMap.{get};
ghost use Rattle.spv_codec.specs.Operands.{read_string};
ghost use Rattle.spv_names.specs.Definitions.{entry_of};
ghost use Rattle.spv_names.specs.Uses.{behind_reading, words_behind, case_ids, ids_at, used_ids, form_ids, all_uses};

use crate::definitions::Definitions;
use crate::dropped::{is_dropped, is_versioned};
use crate::widths::has_wide;
use ports::OutOfMemory;
use spv_codec::RawInst;
use spv_layout::{OperandKind, form_of};
use spv_words::{StringError, words_string};
use sqlite_items::Items;
use std::alloc::Global;

/// The ids that each instruction of a module uses, where it isn't dropped.
pub fn all_uses(
    alloc: Global,
    insts: &[RawInst],
    definitions: &Definitions,
) -> Result<Vec<Items<u32>>, OutOfMemory>
    requires { (id : ℕ) → get nat_eq definitions.now.first id ≡ entry_of insts.now id }
    ensures { IfOk result (λ uses. uses.items ≡ all_uses insts.now) }
{
    let mut uses = Vec::new(alloc);
    let mut sourced = false;
    for (index, inst) in insts.iter().enumerate() {
        let dropped = is_dropped(insts, definitions, sourced, inst);
        let wide = has_wide(insts, definitions, index, inst);
        uses.push(kept_ids(alloc, dropped, wide, inst)?)?;
        sourced |= is_versioned(inst);
    }
    Ok(uses)
}

/// The ids that an instruction uses, where it isn't dropped.
fn kept_ids(
    alloc: Global,
    dropped: bool,
    wide: bool,
    inst: &RawInst,
) -> Result<Items<u32>, OutOfMemory>
    ensures { IfOk result (λ ids. ids ≡ (if dropped then [] else form_ids wide inst.now)) }
{
    if dropped {
        return Ok(Items::new(alloc));
    }
    Ok(Items::from_vec(form_ids(alloc, wide, inst)?))
}

/// The ids that an instruction uses by its form, in order: all but that of its result. `wide` says whether its literal numbers take two
/// words.
#[tactic(auto, unfolding(crate::specs::Uses::form_ids))]
fn form_ids(alloc: Global, wide: bool, inst: &RawInst) -> Result<Vec<u32>, OutOfMemory>
    ensures { IfOk result (λ ids. ids.items ≡ form_ids wide inst.now) }
{
    match form_of(inst.op) {
        Some(form) => used_ids(alloc, wide, form.operands, inst.operands.as_slice()),
        None => Ok(Vec::new(alloc)),
    }
}

fn used_ids(
    alloc: Global,
    wide: bool,
    kinds: &[OperandKind],
    words: &[u32],
) -> Result<Vec<u32>, OutOfMemory>
    ensures { IfOk result (λ ids. ids.items ≡ used_ids wide kinds.now words.now) }
{
    let mut ids = Vec::new(alloc);
    let mut rest = words;
    for kind in kinds {
        add_ids(&mut ids, wide, *kind, rest)?;
        rest = words_behind(alloc, *kind, rest)?;
    }
    Ok(ids)
}

/// Adds the ids of one operand, with which words begin.
fn add_ids(
    ids: &mut Vec<u32>,
    wide: bool,
    kind: OperandKind,
    words: &[u32],
) -> Result<(), OutOfMemory>
    ensures { OnOk result (ids.new.items ≡ ids.old.items ++ ids_at wide kind words.now) }
{
    match kind {
        OperandKind::T | OperandKind::I | OperandKind::OptI | OperandKind::OptIS => {
            ids.extend_from_slice(first_word(words))?;
        }
        OperandKind::ManyI | OperandKind::ManyII => ids.extend_from_slice(words)?,
        OperandKind::ManyNI => add_case_ids(ids, wide, words)?,
        _ => {}
    }
    Ok(())
}

/// The first word, where there is one.
fn first_word(words: &[u32]) -> &[u32]
    ensures { result.now ≡ take 1 words.now }
{
    &words[..words.len().min(1)]
}

/// All words but the first.
fn other_words(words: &[u32]) -> &[u32]
    ensures { result.now ≡ drop 1 words.now }
{
    match words {
        [_, rest @ ..] => rest,
        [] => &[],
    }
}

/// Adds the labels of the cases of an OpSwitch.
fn add_case_ids(ids: &mut Vec<u32>, wide: bool, words: &[u32]) -> Result<(), OutOfMemory>
    ensures { OnOk result (ids.new.items ≡ ids.old.items ++ case_ids wide words.now) }
{
    let mut rest = words;
    while let Some((id, behind)) = first_case(wide, rest) {
        ids.push(id)?;
        rest = behind;
    }
    Ok(())
}

/// The label of the first case, and the words behind it.
fn first_case(wide: bool, words: &[u32]) -> Option<(u32, &[u32])>
    ensures { MatchOption result (case_ids wide words.now ≡ []) (λ first. (case_ids wide words.now ≡ first.0 ∷ case_ids wide first.1.now) × (length first.1.now < length words.now)) }
{
    if wide {
        first_wide_case(words)
    } else {
        first_narrow_case(words)
    }
}

fn first_wide_case(words: &[u32]) -> Option<(u32, &[u32])>
    ensures { MatchOption result (case_ids true words.now ≡ []) (λ first. (case_ids true words.now ≡ first.0 ∷ case_ids true first.1.now) × (length first.1.now < length words.now)) }
{
    match words {
        [_, _, id, rest @ ..] => Some((*id, rest)),
        _ => None,
    }
}

fn first_narrow_case(words: &[u32]) -> Option<(u32, &[u32])>
    ensures { MatchOption result (case_ids false words.now ≡ []) (λ first. (case_ids false words.now ≡ first.0 ∷ case_ids false first.1.now) × (length first.1.now < length words.now)) }
{
    match words {
        [_, id, rest @ ..] => Some((*id, rest)),
        _ => None,
    }
}

/// The words behind an operand that others follow.
fn words_behind(alloc: Global, kind: OperandKind, words: &[u32]) -> Result<&[u32], OutOfMemory>
    ensures { IfOk result (λ rest. rest.now ≡ words_behind kind words.now) }
{
    match kind {
        OperandKind::T | OperandKind::R | OperandKind::I | OperandKind::W | OperandKind::E(_) => Ok(
            other_words(words),
        ),
        OperandKind::S => behind_string(alloc, words),
        _ => Ok(&[]),
    }
}

/// The words behind a literal string.
fn behind_string(alloc: Global, words: &[u32]) -> Result<&[u32], OutOfMemory>
    ensures { IfOk result (λ rest. rest.now ≡ behind_reading (read_string words.now)) }
{
    if words.is_empty() {
        return Ok(&[]);
    }
    match words_string(alloc, words) {
        Ok((_, used)) => Ok(&words[used..]),
        Err(StringError::Bad) => Ok(&[]),
        Err(StringError::NoMemory) => Err(OutOfMemory),
    }
}
