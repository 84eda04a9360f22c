ghost use Rattle.std.specs.Prelude.{◌≡◌, [], ◌++◌, IfOk, OnOk, length};
ghost use Rattle.spv_codec.specs.Ids.{kinds_of};
ghost use Rattle.spv_module.specs.Woven.{id_share, word_share, front, behind, cases, case_width, operand_words, woven};

use crate::inst::SpvInst;
use crate::items::Spells;
use ports::OutOfMemory;
use spv_codec::RawInst;
use spv_layout::{OperandKind, form_of};
use sqlite_items::Items;
use std::alloc::Global;

/// How many of those that are left an operand takes.
#[derive(Clone, Copy, Debug, PartialEq, Eq)]
pub enum Share {
    Nothing,
    One,
    All,
}

/// Its ids and its literal words are spelled in the order of its form (SPIR-V 1.2, 2.3).
impl Spells for SpvInst {
    ghost use Rattle.spv_module.specs.Woven.{inst_spelled};

    ghost instruction = { inst_spelled };

    fn spell(&self, alloc: Global) -> Result<RawInst, OutOfMemory> {
        let operands = weave(alloc, self, kinds_of(self.op))?;
        Ok(RawInst {
            op: self.op,
            place: 0,
            operands: Items::from_vec(operands),
        })
    }
}

/// The operands of the form with this opcode, none where it is no opcode.
fn kinds_of(op: u16) -> &'static [OperandKind]
    ensures { result.now ≡ kinds_of op }
{
    match form_of(op) {
        Some(form) => form.operands,
        None => &[],
    }
}

/// The words of the operands of a form.
fn weave(alloc: Global, inst: &SpvInst, kinds: &[OperandKind]) -> Result<Vec<u32>, OutOfMemory>
    ensures { IfOk result (λ out. out.items ≡ woven inst.now kinds.now inst.now.operands.ids inst.now.operands.words) }
{
    let mut ids = inst.operands.ids.as_slice();
    let mut words = inst.operands.words.as_slice();
    let mut out = Vec::new(alloc);
    for kind in kinds {
        let some_ids = front(id_share(*kind), ids);
        let some_words = front(word_share(*kind), words);
        add_operand(&mut out, *kind, inst, some_ids, some_words)?;
        ids = behind(id_share(*kind), ids);
        words = behind(word_share(*kind), words);
    }
    out.extend_from_slice(ids)?;
    out.extend_from_slice(words)?;
    Ok(out)
}

/// Appends the words of one operand, which takes these ids and literal words.
fn add_operand(
    out: &mut Vec<u32>,
    kind: OperandKind,
    inst: &SpvInst,
    ids: &[u32],
    words: &[u32],
) -> Result<(), OutOfMemory>
    ensures { OnOk result (out.new.items ≡ out.old.items ++ operand_words kind inst.now ids.now words.now) }
{
    match kind {
        OperandKind::T => out.push(inst.ty)?,
        OperandKind::R => out.push(inst.result)?,
        OperandKind::ManyNI => add_cases(out, case_width(ids, words), ids, words)?,
        _ => {
            out.extend_from_slice(ids)?;
            out.extend_from_slice(words)?;
        }
    }
    Ok(())
}

/// Appends cases of a switch: of each so many words, and then its label.
fn add_cases(
    out: &mut Vec<u32>,
    width: usize,
    ids: &[u32],
    words: &[u32],
) -> Result<(), OutOfMemory>
    ensures { OnOk result (out.new.items ≡ out.old.items ++ cases width ids.now words.now) }
{
    let mut rest = words;
    for id in ids {
        let (number, others) = rest.split_at(width.min(rest.len()));
        out.extend_from_slice(number)?;
        out.push(*id)?;
        rest = others;
    }
    out.extend_from_slice(rest)?;
    Ok(())
}

/// How many words each case has.
fn case_width(ids: &[u32], words: &[u32]) -> usize
    ensures { result ≡ case_width ids.now words.now }
{
    if ids.len() == 0 {
        0
    } else {
        words.len() / ids.len()
    }
}

fn id_share(kind: OperandKind) -> Share
    ensures { result ≡ id_share kind }
{
    match kind {
        OperandKind::I => Share::One,
        OperandKind::OptI
        | OperandKind::OptIS
        | OperandKind::ManyI
        | OperandKind::ManyII
        | OperandKind::ManyNI => Share::All,
        _ => Share::Nothing,
    }
}

fn word_share(kind: OperandKind) -> Share
    ensures { result ≡ word_share kind }
{
    match kind {
        OperandKind::W | OperandKind::E(_) => Share::One,
        OperandKind::S
        | OperandKind::N
        | OperandKind::OptIS
        | OperandKind::OptWW
        | OperandKind::OptE(_)
        | OperandKind::ManyW
        | OperandKind::ManyNI => Share::All,
        _ => Share::Nothing,
    }
}

/// Those of the list that are taken.
fn front(share: Share, list: &[u32]) -> &[u32]
    ensures { result.now ≡ front share list.now }
{
    match share {
        Share::Nothing => &[],
        Share::One => &list[..list.len().min(1)],
        Share::All => list,
    }
}

/// Those of the list that are left.
fn behind(share: Share, list: &[u32]) -> &[u32]
    ensures { result.now ≡ behind share list.now }
{
    match share {
        Share::Nothing => list,
        Share::One => &list[list.len().min(1)..],
        Share::All => &[],
    }
}
