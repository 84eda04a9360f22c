ghost use Rattle.std.specs.Prelude.{◌≡◌, ◌==◌, ◌++◌, ◌∷◌, [], ℕ, nat_eq, if◌then◌else◌, Some, None, IfOk, OnOk};
ghost use Rattle.std.specs.Option.{option_or};
ghost use Rattle.std.specs.HashMap.{get};
ghost use Rattle.spv_build.specs.Entries.{put_mode, put_modes, entries_of, index_of};

use crate::items::{FromInst, items_of};
use crate::texts::{behind_text, text_of};
use ports::OutOfMemory;
use spv_codec::RawInst;
use spv_layout::Opcode;
use spv_module::{Entry, Mode};
use sqlite_items::Items;
use std::alloc::Global;
use std::collections::HashMap;

/// A mode, and the function that it is given to.
#[derive(Drop)]
pub struct GivenMode {
    pub function: u32,
    pub mode: Mode,
}

impl FromInst for Entry {
    ghost use Rattle.spv_build.specs.Entries.{entry_of};

    ghost said = { entry_of };

    fn read(alloc: Global, inst: &RawInst) -> Result<Option<Entry>, OutOfMemory> {
        if inst.op != Opcode::EntryPoint.number() {
            return Ok(None);
        }
        let [_, function, words @ ..] = inst.operands.as_slice() else {
            return Ok(None);
        };
        Ok(Some(Entry {
            function: *function,
            name: text_of(alloc, words)?,
            interface: Items::from_slice(alloc, behind_text(alloc, words)?)?,
            modes: Items::new(alloc),
            place: inst.place,
        }))
    }
}

impl FromInst for GivenMode {
    ghost use Rattle.spv_build.specs.Entries.{mode_of};

    ghost said = { mode_of };

    fn read(alloc: Global, inst: &RawInst) -> Result<Option<GivenMode>, OutOfMemory> {
        if inst.op != Opcode::ExecutionMode.number() {
            return Ok(None);
        }
        match inst.operands.as_slice() {
            [function, kind, words @ ..] => Ok(Some(GivenMode {
                function: *function,
                mode: Mode {
                    kind: *kind,
                    words: Items::from_slice(alloc, words)?,
                    place: inst.place,
                },
            })),
            _ => Ok(None),
        }
    }
}

/// The entry points that instructions say, each with the modes of its function. Where a function is that of two, the first one has them.
///
/// `OutOfMemory` comes for want of memory alone.
#[tactic(auto, unfolding(crate::specs::Entries::entries_of))]
pub(crate) fn entries_of(alloc: Global, insts: &[RawInst]) -> Result<Vec<Entry>, OutOfMemory>
    ensures { IfOk result (λ entries. entries.items ≡ entries_of insts.now) }
{
    let entries = items_of::<Entry>(alloc, insts)?;
    let modes = items_of::<GivenMode>(alloc, insts)?;
    put_modes(alloc, &modes, entries)
}

/// The entry points with these modes.
fn put_modes(
    alloc: Global,
    modes: &[GivenMode],
    mut entries: Vec<Entry>,
) -> Result<Vec<Entry>, OutOfMemory>
    ensures { IfOk result (λ all. all.items ≡ put_modes modes.now entries.items) }
{
    let indexes = first_indexes(alloc, &entries)?;
    for given in modes {
        put_mode(alloc, &indexes, &mut entries, given)?;
    }
    Ok(entries)
}

/// The index of the first entry point of each function.
fn first_indexes(alloc: Global, entries: &[Entry]) -> Result<HashMap<u32, usize>, OutOfMemory>
    ensures { IfOk result (λ indexes. (function : ℕ) → get nat_eq indexes function ≡ index_of entries.now function) }
{
    let mut indexes = HashMap::new(alloc);
    for (index, entry) in entries.iter().enumerate() {
        note(&mut indexes, entry.function, index)?;
    }
    Ok(indexes)
}

/// Notes the index of an entry point, unless an earlier one of its function is known.
fn note(indexes: &mut HashMap<u32, usize>, function: u32, index: usize) -> Result<(), OutOfMemory>
    ensures { OnOk result ((other : ℕ) → get nat_eq indexes.new other ≡ option_or (get nat_eq indexes.old other) (if function == other then Some index else None)) }
{
    if indexes.contains_key(&function) {
        return Ok(());
    }
    indexes.insert(function, index)?;
    Ok(())
}

/// Gives a mode to the first entry point of its function.
fn put_mode(
    alloc: Global,
    indexes: &HashMap<u32, usize>,
    entries: &mut Vec<Entry>,
    given: &GivenMode,
) -> Result<(), OutOfMemory>
    requires { (function : ℕ) → get nat_eq indexes.now function ≡ index_of entries.old.items function }
    ensures { OnOk result (entries.new.items ≡ put_mode given.now entries.old.items) }
{
    let Some(index) = index_of(indexes, given.function) else {
        return Ok(());
    };
    push_mode(&mut entries[index], copied(alloc, &given.mode)?)?;
    Ok(())
}

fn index_of(indexes: &HashMap<u32, usize>, function: u32) -> Option<usize>
    ensures { result ≡ get nat_eq indexes.now function }
{
    indexes.get(&function).copied()
}

fn push_mode(entry: &mut Entry, mode: Mode) -> Result<(), OutOfMemory>
    ensures { OnOk result (entry.new ≡ record entry.old { modes = entry.old.modes ++ mode ∷ [] }) }
{
    entry.modes.push(mode)?;
    Ok(())
}

fn copied(alloc: Global, mode: &Mode) -> Result<Mode, OutOfMemory>
    ensures { IfOk result (λ copy. copy ≡ mode.now) }
{
    Ok(Mode {
        kind: mode.kind,
        words: Items::from_slice(alloc, mode.words.as_slice())?,
        place: mode.place,
    })
}
