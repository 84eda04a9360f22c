ghost use Rattle.std.specs.Prelude.{◌≡◌, ◌∷◌, ◌+◌, ◌++◌, IfOk, OnOk, flat_map, length, map};
ghost use Rattle.std.specs.List.{range_with_len};
ghost use Rattle.kernel_tree.specs.Canonical.{number_entry};
ghost use Rattle.kernel_tree.specs.Names.{defined_by};
ghost use Rattle.to_llvm.specs.Guesses.{name_count, own_entry};

use kernel_tree::{KernelInst, KernelParam};
use ll_tree::{NameKind, NameText, Spelling};
use ports::OutOfMemory;
use sqlite_items::Items;
use std::alloc::Global;

/// The table of a kernel's own name and of the numbers of the names that it defines.
pub(crate) fn names(
    alloc: Global,
    text: Vec<u8>,
    params: &[KernelParam],
    insts: &[KernelInst],
) -> Result<Items<NameText>, OutOfMemory>
    ensures { IfOk result (λ names. names ≡ own_entry text.items ∷ map number_entry (range_with_len 0 (name_count params.now insts.now))) }
{
    let count = name_count(params, insts)?;
    let mut names = Items::new(alloc);
    names.push(NameText {
        kind: NameKind::Global,
        spelling: Spelling::Text(Items::from_vec(text)),
    })?;
    add_numbers(&mut names, count)?;
    Ok(names)
}

/// How many names a kernel defines: its parameters, its block, and the values of its instructions. A count that is no word is told as want
/// of memory, since so many names can't be held.
fn name_count(params: &[KernelParam], insts: &[KernelInst]) -> Result<u32, OutOfMemory>
    ensures { IfOk result (λ count. count ≡ name_count params.now insts.now) }
{
    let results = result_count(insts);
    let Some(count) = params.len().checked_add(results) else {
        return Err(OutOfMemory);
    };
    match u32::try_from(count) {
        Ok(count) if count < u32::MAX => Ok(count + 1),
        _ => Err(OutOfMemory),
    }
}

/// How many of the instructions have a value.
fn result_count(insts: &[KernelInst]) -> usize
    ensures { result ≡ length (flat_map defined_by insts.now) }
{
    let mut count = 0;
    for inst in insts {
        if inst.result().is_some() {
            count += 1;
        }
    }
    count
}

/// Adds so many numbers to a table.
fn add_numbers(names: &mut Items<NameText>, count: u32) -> Result<(), OutOfMemory>
    ensures { OnOk result (names.new ≡ names.old ++ map number_entry (range_with_len 0 count)) }
{
    for number in 0..count {
        names.push(NameText {
            kind: NameKind::Local,
            spelling: Spelling::Number(number),
        })?;
    }
    Ok(())
}
