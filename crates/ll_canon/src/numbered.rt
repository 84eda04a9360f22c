ghost use Rattle.std.specs.Prelude.{◌≡◌, ◌++◌, IfOk, OnOk, map, slice_get};
ghost use Rattle.std.specs.List.{range_with_len};
ghost use Rattle.std.specs.Option.{option_to_list};
ghost use Rattle.kernel_tree.specs.Canonical.{canonical, inst_aligned, inst_numbered, number_entry, numbered_name, numbers_defined, param_numbered};

use inst_walk::Places;
use kernel_tree::{Kernel, KernelInst, KernelParam};
use ll_tree::{Name, NameKind, NameText, Spelling};
use ports::OutOfMemory;
use sqlite_items::Items;
use std::alloc::Global;

/// The canonical form of a kernel that defines the names at these places.
pub fn numbered(alloc: Global, kernel: &Kernel, places: &Places<u32>) -> Result<Kernel, OutOfMemory>
    requires { places.now ≡ numbers_defined kernel.now }
    ensures { IfOk result (λ made. made ≡ canonical kernel.now) }
{
    Ok(Kernel {
        has_targets: true,
        name: Name { number: 0, byte: 0 },
        params: params(alloc, kernel.params.as_slice(), places)?,
        block: name(kernel.block, places)?,
        insts: insts(alloc, kernel.insts.as_slice(), places)?,
        names: names(alloc, kernel, places.len())?,
    })
}

/// The name that a name has in the canonical form. A place that would not fit is told as want of memory, since so many names can't be
/// held.
fn name(name: Name, places: &Places<u32>) -> Result<Name, OutOfMemory>
    ensures { IfOk result (λ made. made ≡ numbered_name places.now name) }
{
    let place = places.place(name.number).unwrap_or(0);
    match u32::try_from(place) {
        Ok(place) if place < u32::MAX => Ok(Name {
            number: place + 1,
            byte: 0,
        }),
        _ => Err(OutOfMemory),
    }
}

fn params(
    alloc: Global,
    params: &[KernelParam],
    places: &Places<u32>,
) -> Result<Items<KernelParam>, OutOfMemory>
    ensures { IfOk result (λ made. made ≡ map (param_numbered places.now) params.now) }
{
    let mut made = Items::new(alloc);
    for param in params {
        made.push(KernelParam {
            value_type: param.value_type,
            name: name(param.name, places)?,
        })?;
    }
    Ok(made)
}

fn insts(
    alloc: Global,
    insts: &[KernelInst],
    places: &Places<u32>,
) -> Result<Items<KernelInst>, OutOfMemory>
    ensures { IfOk result (λ made. made ≡ map (inst_numbered places.now) (map inst_aligned insts.now)) }
{
    let mut made = Items::new(alloc);
    for inst in insts {
        made.push(inst_canonical(*inst, places)?)?;
    }
    Ok(made)
}

fn inst_canonical(inst: KernelInst, places: &Places<u32>) -> Result<KernelInst, OutOfMemory>
    ensures { IfOk result (λ made. made ≡ inst_numbered places.now (inst_aligned inst)) }
{
    Ok(match inst {
        KernelInst::Add { sum, left, right } => KernelInst::Add {
            sum: name(sum, places)?,
            left: name(left, places)?,
            right: name(right, places)?,
        },
        KernelInst::Load {
            loaded,
            pointer,
            ..
        } => KernelInst::Load {
            loaded: name(loaded, places)?,
            pointer: name(pointer, places)?,
            is_aligned: true,
        },
        KernelInst::Store { value, pointer, .. } => KernelInst::Store {
            value: name(value, places)?,
            pointer: name(pointer, places)?,
            is_aligned: true,
        },
    })
}

/// The table of the kernel's own name and of so many numbers.
fn names(alloc: Global, kernel: &Kernel, count: usize) -> Result<Items<NameText>, OutOfMemory>
    ensures { IfOk result (λ names. names ≡ option_to_list (slice_get kernel.now.names kernel.now.name.number) ++ map number_entry (range_with_len 0 count)) }
{
    let mut names = own_name(alloc, kernel)?;
    add_numbers(&mut names, count)?;
    Ok(names)
}

fn own_name(alloc: Global, kernel: &Kernel) -> Result<Items<NameText>, OutOfMemory>
    ensures { IfOk result (λ names. names ≡ option_to_list (slice_get kernel.now.names kernel.now.name.number)) }
{
    let mut names = Items::new(alloc);
    if let Some(entry) = kernel.names.as_slice().get(kernel.name.number as usize) {
        names.push(copy_of(alloc, entry)?)?;
    }
    Ok(names)
}

fn copy_of(alloc: Global, entry: &NameText) -> Result<NameText, OutOfMemory>
    ensures { IfOk result (λ copy. copy ≡ entry.now) }
{
    let spelling = match &entry.spelling {
        Spelling::Number(number) => Spelling::Number(*number),
        Spelling::Text(bytes) => Spelling::Text(Items::from_slice(alloc, bytes.as_slice())?),
    };
    Ok(NameText {
        kind: entry.kind,
        spelling,
    })
}

fn add_numbers(names: &mut Items<NameText>, count: usize) -> Result<(), OutOfMemory>
    ensures { OnOk result (names.new ≡ names.old ++ map number_entry (range_with_len 0 count)) }
{
    for number in 0..count {
        let Ok(number) = u32::try_from(number) else {
            return Err(OutOfMemory);
        };
        names.push(NameText {
            kind: NameKind::Local,
            spelling: Spelling::Number(number),
        })?;
    }
    Ok(())
}
