ghost use Rattle.std.specs.Prelude.{◌≡◌, ◌<◌, ◌++◌, ◌∷◌, [], take, drop, length, get_or, if◌then◌else◌, true, false, IfOk, OnOk, MatchOption};
ghost use Rattle.spv_codec.specs.Ids.{kinds_of, result_id};
ghost use Rattle.spv_module.specs.Roles.{has_result_type};
ghost use Rattle.spv_names.specs.Uses.{case_ids};
ghost use Rattle.spv_build.specs.Insts.{case_numbers, ids_at, words_at, rest_behind, ids_in, words_in, inst_of};

use ports::OutOfMemory;
use spv_codec::RawInst;
use spv_layout::{OperandKind, form_of};
use spv_module::{Operands, SpvInst, has_result_type};
use sqlite_items::Items;
use std::alloc::Global;

/// An instruction of a function body by its words, where its literal numbers take two words or one (SPIR-V 1.2, 2.3).
///
/// `OutOfMemory` comes for want of memory alone.
#[tactic(auto, unfolding(crate::specs::Insts::inst_of))]
pub(crate) fn inst_of(alloc: Global, wide: bool, raw: &RawInst) -> Result<SpvInst, OutOfMemory>
    ensures { IfOk result (λ inst. inst ≡ inst_of wide raw.now) }
{
    let kinds = kinds_of(raw.op);
    let words = raw.operands.as_slice();
    let ids = ids_in(alloc, wide, kinds, words)?;
    let literals = words_in(alloc, wide, kinds, words)?;
    Ok(SpvInst {
        op: raw.op,
        ty: type_of(raw.op, words),
        result: result_id(kinds, words).unwrap_or(0),
        operands: Operands {
            ids: Items::from_vec(ids),
            words: Items::from_vec(literals),
        },
        place: raw.place,
    })
}

/// The operands of the form with this opcode, none where it is no opcode.
fn kinds_of(op: u16) -> &'static [OperandKind]
    ensures { result.now ≡ kinds_of op }
{
    match form_of(op) {
        Some(form) => form.operands,
        None => &[],
    }
}

/// The type of the result, 0 where the form has none.
fn type_of(op: u16, words: &[u32]) -> u32
    ensures { result ≡ (if has_result_type op then get_or words.now 0 0 else 0) }
{
    if has_result_type(op) {
        first_or_zero(words)
    } else {
        0
    }
}

fn first_or_zero(words: &[u32]) -> u32
    ensures { result ≡ get_or words.now 0 0 }
{
    match words {
        [first, ..] => *first,
        [] => 0,
    }
}

/// The id of the result, where the form has one.
fn result_id(kinds: &[OperandKind], words: &[u32]) -> Option<u32>
    ensures { result ≡ result_id kinds.now words.now }
{
    match kinds {
        [OperandKind::T, OperandKind::R, ..] => words.get(1).copied(),
        [OperandKind::R, ..] => words.first().copied(),
        _ => None,
    }
}

/// The ids of the operands of a form, but for the result and its type.
fn ids_in(
    alloc: Global,
    wide: bool,
    kinds: &[OperandKind],
    words: &[u32],
) -> Result<Vec<u32>, OutOfMemory>
    ensures { IfOk result (λ ids. ids.items ≡ ids_in wide kinds.now words.now) }
{
    let mut ids = Vec::new(alloc);
    let mut rest = words;
    for kind in kinds {
        add_ids(&mut ids, wide, *kind, rest)?;
        rest = rest_behind(*kind, rest);
    }
    Ok(ids)
}

/// The literal words of the operands of a form.
fn words_in(
    alloc: Global,
    wide: bool,
    kinds: &[OperandKind],
    words: &[u32],
) -> Result<Vec<u32>, OutOfMemory>
    ensures { IfOk result (λ literals. literals.items ≡ words_in wide kinds.now words.now) }
{
    let mut literals = Vec::new(alloc);
    let mut rest = words;
    for kind in kinds {
        add_words(&mut literals, wide, *kind, rest)?;
        rest = rest_behind(*kind, rest);
    }
    Ok(literals)
}

/// Appends the ids of one operand, with which words begin.
fn add_ids(
    ids: &mut Vec<u32>,
    wide: bool,
    kind: OperandKind,
    words: &[u32],
) -> Result<(), OutOfMemory>
    ensures { OnOk result (ids.new.items ≡ ids.old.items ++ ids_at wide kind words.now) }
{
    match kind {
        OperandKind::I | OperandKind::OptIS => ids.extend_from_slice(first_word(words))?,
        OperandKind::OptI | OperandKind::ManyI | OperandKind::ManyII => {
            ids.extend_from_slice(words)?;
        }
        OperandKind::ManyNI => add_case_ids(ids, wide, words)?,
        _ => {}
    }
    Ok(())
}

/// Appends the literal words of one operand, with which words begin.
fn add_words(
    literals: &mut Vec<u32>,
    wide: bool,
    kind: OperandKind,
    words: &[u32],
) -> Result<(), OutOfMemory>
    ensures { OnOk result (literals.new.items ≡ literals.old.items ++ words_at wide kind words.now) }
{
    match kind {
        OperandKind::W | OperandKind::E(_) => literals.extend_from_slice(first_word(words))?,
        OperandKind::S
        | OperandKind::N
        | OperandKind::OptWW
        | OperandKind::OptE(_)
        | OperandKind::ManyW => literals.extend_from_slice(words)?,
        OperandKind::OptIS => literals.extend_from_slice(other_words(words))?,
        OperandKind::ManyNI => add_case_numbers(literals, wide, words)?,
        _ => {}
    }
    Ok(())
}

/// The words behind an operand: one of more than one word is the last.
fn rest_behind(kind: OperandKind, words: &[u32]) -> &[u32]
    ensures { result.now ≡ rest_behind kind words.now }
{
    match kind {
        OperandKind::T | OperandKind::R | OperandKind::I | OperandKind::W | OperandKind::E(_) =>
            other_words(words),
        _ => &[],
    }
}

/// The first word, where there is one.
fn first_word(words: &[u32]) -> &[u32]
    ensures { result.now ≡ take 1 words.now }
{
    &words[..words.len().min(1)]
}

/// All words but the first.
fn other_words(words: &[u32]) -> &[u32]
    ensures { result.now ≡ drop 1 words.now }
{
    match words {
        [_, rest @ ..] => rest,
        [] => &[],
    }
}

/// Appends the labels of the cases of an OpSwitch.
fn add_case_ids(ids: &mut Vec<u32>, wide: bool, words: &[u32]) -> Result<(), OutOfMemory>
    ensures { OnOk result (ids.new.items ≡ ids.old.items ++ case_ids wide words.now) }
{
    let mut rest = words;
    while let Some((_, id, behind)) = first_case(wide, rest) {
        ids.push(id)?;
        rest = behind;
    }
    Ok(())
}

/// Appends the numbers of the cases of an OpSwitch.
fn add_case_numbers(numbers: &mut Vec<u32>, wide: bool, words: &[u32]) -> Result<(), OutOfMemory>
    ensures { OnOk result (numbers.new.items ≡ numbers.old.items ++ case_numbers wide words.now) }
{
    let mut rest = words;
    while let Some((number, _, behind)) = first_case(wide, rest) {
        numbers.extend_from_slice(number)?;
        rest = behind;
    }
    Ok(())
}

/// The words of the first case's number, its label, and the words behind it.
fn first_case(wide: bool, words: &[u32]) -> Option<(&[u32], u32, &[u32])>
    ensures { MatchOption result
        ((case_ids wide words.now ≡ []) × (case_numbers wide words.now ≡ []))
        (λ first. (case_ids wide words.now ≡ first.1 ∷ case_ids wide first.2.now)
        × (case_numbers wide words.now ≡ first.0.now ++ case_numbers wide first.2.now)
        × (length first.2.now < length words.now)) }
{
    if wide {
        first_wide_case(words)
    } else {
        first_narrow_case(words)
    }
}

fn first_wide_case(words: &[u32]) -> Option<(&[u32], u32, &[u32])>
    ensures { MatchOption result
        ((case_ids true words.now ≡ []) × (case_numbers true words.now ≡ []))
        (λ first. (case_ids true words.now ≡ first.1 ∷ case_ids true first.2.now)
        × (case_numbers true words.now ≡ first.0.now ++ case_numbers true first.2.now)
        × (length first.2.now < length words.now)) }
{
    match words {
        [_, _, id, rest @ ..] => Some((two_words(words), *id, rest)),
        _ => None,
    }
}

fn first_narrow_case(words: &[u32]) -> Option<(&[u32], u32, &[u32])>
    ensures { MatchOption result
        ((case_ids false words.now ≡ []) × (case_numbers false words.now ≡ []))
        (λ first. (case_ids false words.now ≡ first.1 ∷ case_ids false first.2.now)
        × (case_numbers false words.now ≡ first.0.now ++ case_numbers false first.2.now)
        × (length first.2.now < length words.now)) }
{
    match words {
        [_, id, rest @ ..] => Some((first_word(words), *id, rest)),
        _ => None,
    }
}

/// The first two words, where there are two.
fn two_words(words: &[u32]) -> &[u32]
    ensures { result.now ≡ take 2 words.now }
{
    &words[..words.len().min(2)]
}
