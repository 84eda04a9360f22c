ghost use Rattle.std.specs.Prelude.{◌≡◌, ◌||◌, ℕ, nat_eq, IfOk, OnOk};
ghost use Rattle.std.specs.Option.{option_copied};
ghost use Rattle.std.specs.HashMap.{get};
ghost use Rattle.std.specs.HashSet.{contains};
ghost use Rattle.rule_order.specs.Breaks.{least};
ghost use Rattle.spv_codec.specs.Ids.{is_id};
ghost use Rattle.spv_names.specs.Definitions.{entry_of};
ghost use Rattle.spv_names.specs.RoleRules.{entry_function, is_entry, is_outside, differs, has_other_role, have_other_role, role_places};
ghost use Rattle.spv_names.specs.Uses.{all_uses};

use crate::asks::{Ask, Asks, asks_of, is_asked, role_of};
use crate::definitions::{Definition, Definitions};
use ports::OutOfMemory;
use spv_codec::RawInst;
use spv_layout::Opcode;
use spv_sections::told;
use sqlite_items::Items;
use std::alloc::Global;
use std::collections::HashSet;

/// The least place of an instruction that uses an id with another role than its form asks (SPIR-V 1.2, 3.32).
pub fn role_fault(
    alloc: Global,
    insts: &[RawInst],
    uses: &[Items<u32>],
    definitions: &Definitions,
) -> Result<Option<u64>, OutOfMemory>
    requires used { uses.now ≡ all_uses insts.now }
    requires defined { (id : ℕ) → get nat_eq definitions.now.first id ≡ entry_of insts.now id }
    ensures { IfOk result (λ place. place ≡ least (role_places insts.now)) }
{
    let entries = entry_functions(alloc, insts)?;
    Ok(first_misuse(insts, uses, definitions, &entries))
}

fn first_misuse(
    insts: &[RawInst],
    uses: &[Items<u32>],
    definitions: &Definitions,
    entries: &HashSet<u32>,
) -> Option<u64>
    requires used { uses.now ≡ all_uses insts.now }
    requires defined { (id : ℕ) → get nat_eq definitions.now.first id ≡ entry_of insts.now id }
    requires entered { (id : ℕ) → contains nat_eq entries.now id ≡ is_entry insts.now id }
    ensures { result ≡ least (role_places insts.now) }
{
    let mut least = None;
    for (index, inst) in insts.iter().enumerate() {
        let used = uses[index].as_slice();
        let misused = have_other_role(insts, definitions, entries, asks_of(inst), used);
        least = told(least, misused, inst.place);
    }
    least
}

/// The functions that entry points name.
fn entry_functions(alloc: Global, insts: &[RawInst]) -> Result<HashSet<u32>, OutOfMemory>
    ensures { IfOk result (λ entries. (id : ℕ) → contains nat_eq entries id ≡ is_entry insts.now id) }
{
    let mut entries = HashSet::new(alloc);
    for inst in insts {
        note(&mut entries, entry_function(inst))?;
    }
    Ok(entries)
}

/// Puts an id in, where there is one.
fn note(entries: &mut HashSet<u32>, id: Option<u32>) -> Result<(), OutOfMemory>
    ensures { OnOk result ((id2 : ℕ) → contains nat_eq entries.new id2 ≡ (contains nat_eq entries.old id2 || is_id id2 id)) }
{
    if let Some(id) = id {
        entries.insert(id)?;
    }
    Ok(())
}

/// The function of an OpEntryPoint.
fn entry_function(inst: &RawInst) -> Option<u32>
    ensures { result ≡ entry_function inst.now }
{
    if inst.op == Opcode::EntryPoint.number() {
        inst.operands.as_slice().get(1).copied()
    } else {
        None
    }
}

/// Whether one of these ids has another role than is asked.
fn have_other_role(
    insts: &[RawInst],
    definitions: &Definitions,
    entries: &HashSet<u32>,
    asks: Asks,
    ids: &[u32],
) -> bool
    requires defined { (id : ℕ) → get nat_eq definitions.now.first id ≡ entry_of insts.now id }
    requires entered { (id : ℕ) → contains nat_eq entries.now id ≡ is_entry insts.now id }
    ensures { result ≡ have_other_role insts.now asks 0 ids.now }
{
    for (index, id) in ids.iter().enumerate() {
        if has_other_role(insts, definitions, entries, asks.at(index), *id) {
            return true;
        }
    }
    false
}

fn has_other_role(
    insts: &[RawInst],
    definitions: &Definitions,
    entries: &HashSet<u32>,
    ask: Ask,
    id: u32,
) -> bool
    requires defined { (id : ℕ) → get nat_eq definitions.now.first id ≡ entry_of insts.now id }
    requires entered { (id : ℕ) → contains nat_eq entries.now id ≡ is_entry insts.now id }
    ensures { result ≡ has_other_role insts.now ask id }
{
    let entry = entries.contains(&id);
    let outside = is_outside(definitions.entry(id));
    differs(
        entry,
        outside,
        ask,
        definitions.find(insts, insts.len(), id),
    )
}

/// Whether an id is defined outside functions.
fn is_outside(definition: Option<Definition>) -> bool
    ensures { result ≡ is_outside definition }
{
    match definition {
        Some(definition) => definition.function.is_none(),
        None => false,
    }
}

/// Whether what is defined has another role than is asked.
fn differs(entry: bool, outside: bool, ask: Ask, definition: Option<&RawInst>) -> bool
    ensures { result ≡ differs entry outside ask (option_copied definition.entry) }
{
    match definition {
        Some(inst) => !is_asked(entry, outside, ask, role_of(inst)),
        None => false,
    }
}
