ghost use Rattle.std.specs.Prelude.{◌≡◌, ◌++◌, ◌-◌, IfOk, OnOk, flat_map, string_bytes};
ghost use Rattle.kernel_tree.specs.Text.{access_text, align_text, inst_text};

use kernel_tree::KernelInst;
use ll_tree::Name;
use ports::OutOfMemory;
use std::alloc::Global;

/// The number of a name behind the kernel's own.
pub fn shown(name: Name) -> u32
    ensures { result ≡ name.number - 1 }
{
    name.number.saturating_sub(1)
}

/// Writes the line of each instruction.
pub fn push_insts(
    alloc: Global,
    text: &mut Vec<u8>,
    insts: &[KernelInst],
) -> Result<(), OutOfMemory>
    ensures { OnOk result (text.new.items ≡ text.old.items ++ flat_map inst_text insts.now) }
{
    for inst in insts {
        let line = inst_line(alloc, *inst)?;
        text.extend_from_slice(line.as_bytes())?;
    }
    Ok(())
}

/// The line of an instruction.
fn inst_line(alloc: Global, inst: KernelInst) -> Result<String, OutOfMemory>
    ensures { IfOk result (λ line. string_bytes line ≡ inst_text inst) }
{
    match inst {
        KernelInst::Add { sum, left, right } => add_line(alloc, sum, left, right),
        KernelInst::Load {
            loaded,
            pointer,
            is_aligned,
        } => load_line(alloc, loaded, pointer, is_aligned),
        KernelInst::Store {
            value,
            pointer,
            is_aligned,
        } => store_line(alloc, value, pointer, is_aligned),
    }
}

fn add_line(alloc: Global, sum: Name, left: Name, right: Name) -> Result<String, OutOfMemory>
    ensures { IfOk result (λ line. string_bytes line ≡ inst_text (KernelInst.Add sum left right)) }
{
    let (sum, left, right) = (shown(sum), shown(left), shown(right));
    Ok(format!(in alloc; "  %{sum} = add i32 %{left}, %{right}\n")?)
}

fn load_line(
    alloc: Global,
    loaded: Name,
    pointer: Name,
    is_aligned: bool,
) -> Result<String, OutOfMemory>
    ensures { IfOk result (λ line. string_bytes line ≡ inst_text (KernelInst.Load loaded pointer is_aligned)) }
{
    let loaded = shown(loaded);
    let access = access(alloc, pointer, is_aligned)?;
    Ok(format!(in alloc; "  %{loaded} = load i32, {access}\n")?)
}

fn store_line(
    alloc: Global,
    value: Name,
    pointer: Name,
    is_aligned: bool,
) -> Result<String, OutOfMemory>
    ensures { IfOk result (λ line. string_bytes line ≡ inst_text (KernelInst.Store value pointer is_aligned)) }
{
    let value = shown(value);
    let access = access(alloc, pointer, is_aligned)?;
    Ok(format!(in alloc; "  store i32 %{value}, {access}\n")?)
}

/// The pointer operand of a load or a store, and its alignment.
fn access(alloc: Global, pointer: Name, is_aligned: bool) -> Result<String, OutOfMemory>
    ensures { IfOk result (λ text. string_bytes text ≡ access_text pointer is_aligned) }
{
    let pointer = shown(pointer);
    let align = align(is_aligned);
    Ok(format!(in alloc; "i32 addrspace(1)* %{pointer}{align}")?)
}

fn align(is_aligned: bool) -> &'static str
    ensures { result.now ≡ align_text is_aligned }
{
    if is_aligned { ", align 4" } else { "" }
}
