ghost use Rattle.std.specs.Prelude.{◌≡◌, ◌||◌, ℕ, nat_eq, IfOk, OnOk};
ghost use Rattle.std.specs.HashSet.{contains};
ghost use Rattle.spv_codec.specs.Ids.{is_id};
ghost use Rattle.spv_types.specs.Packed.{packed_id, is_decorated, targets_by, passed_ids, is_among, is_packed};

use ports::OutOfMemory;
use spv_codec::RawInst;
use spv_layout::Opcode;
use std::alloc::Global;
use std::collections::HashSet;

/// The number of the decoration CPacked (SPIR-V 1.2, 3.20).
const PACKED: u32 = 10;

/// The ids that have the decoration CPacked, by themselves or through a group.
pub fn packed_ids(alloc: Global, insts: &[RawInst]) -> Result<HashSet<u32>, OutOfMemory>
    ensures { IfOk result (λ packed. (id : ℕ) → contains nat_eq packed id ≡ is_packed insts.now id) }
{
    let groups = decorated_ids(alloc, insts)?;
    let mut packed = decorated_ids(alloc, insts)?;
    for inst in insts {
        note_all(&mut packed, passed_ids(&groups, inst))?;
    }
    Ok(packed)
}

/// The ids that have it by themselves.
fn decorated_ids(alloc: Global, insts: &[RawInst]) -> Result<HashSet<u32>, OutOfMemory>
    ensures { IfOk result (λ ids. (id : ℕ) → contains nat_eq ids id ≡ is_decorated insts.now id) }
{
    let mut ids = HashSet::new(alloc);
    for inst in insts {
        note(&mut ids, packed_id(inst))?;
    }
    Ok(ids)
}

/// Puts an id in, where there is one.
fn note(ids: &mut HashSet<u32>, id: Option<u32>) -> Result<(), OutOfMemory>
    ensures { OnOk result ((id2 : ℕ) → contains nat_eq ids.new id2 ≡ (contains nat_eq ids.old id2 || is_id id2 id)) }
{
    if let Some(id) = id {
        ids.insert(id)?;
    }
    Ok(())
}

/// Puts all of these ids in.
fn note_all(ids: &mut HashSet<u32>, more: &[u32]) -> Result<(), OutOfMemory>
    ensures { OnOk result ((id2 : ℕ) → contains nat_eq ids.new id2 ≡ (contains nat_eq ids.old id2 || is_among id2 more.now)) }
{
    for id in more {
        note(ids, Some(*id))?;
    }
    Ok(())
}

/// The id to which an instruction gives the decoration.
fn packed_id(inst: &RawInst) -> Option<u32>
    ensures { result ≡ packed_id inst.now }
{
    if inst.op != Opcode::Decorate.number() {
        return None;
    }
    let operands = inst.operands.as_slice();
    if is_word(PACKED, operands.get(1).copied()) {
        operands.first().copied()
    } else {
        None
    }
}

/// Whether a word is there, and this one.
fn is_word(word: u32, at: Option<u32>) -> bool
    ensures { result ≡ is_id word at }
{
    match at {
        Some(other) => other == word,
        None => false,
    }
}

/// The ids to which an instruction passes on the decorations of one of these groups.
fn passed_ids<'a>(groups: &HashSet<u32>, inst: &'a RawInst) -> &'a [u32]
    ensures { result.now ≡ passed_ids (contains nat_eq groups.now) inst.now }
{
    if inst.op == Opcode::GroupDecorate.number() {
        targets_by(groups, inst.operands.as_slice())
    } else {
        &[]
    }
}

fn targets_by<'a>(groups: &HashSet<u32>, operands: &'a [u32]) -> &'a [u32]
    ensures { result.now ≡ targets_by (contains nat_eq groups.now) operands.now }
{
    match operands {
        [group, targets @ ..] => { if groups.contains(group) { targets } else { &[] } }
        [] => &[],
    }
}
