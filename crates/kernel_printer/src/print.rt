ghost use Rattle.std.specs.Prelude.{◌≡◌, ◌++◌, IfOk, OnOk, string_bytes};
ghost use Rattle.kernel_tree.specs.Numbered.{name_bytes};
ghost use Rattle.kernel_tree.specs.Text.{end_lines, kernel_text, label_line, name_line, targets_text};

use crate::insts::{push_insts, shown};
use crate::params::push_params;
use kernel_tree::Kernel;
use ll_tree::{Name, Spelling};
use ports::OutOfMemory;
use std::alloc::Global;

/// The two lines that say for what target a module is (LLVM 14, Data Layout; Target Triple).
const TARGET_LINES: &str = concat!(
    "target datalayout = \"",
    "e-i64:64-v16:16-v24:32-v32:32-v48:64-v96:128-v192:256-v256:256-v512:512-v1024:1024",
    "\"\n",
    "target triple = \"spir64-unknown-unknown\"\n",
);

/// The text of a kernel with numbered names, line by line, in bytes.
///
/// `OutOfMemory` comes for want of memory alone.
pub fn print_kernel(alloc: Global, kernel: &Kernel) -> Result<Vec<u8>, OutOfMemory>
    ensures { IfOk result (λ text. text.items ≡ kernel_text kernel.now) }
{
    let mut text = text_before_params(alloc, kernel)?;
    push_params(alloc, &mut text, kernel.params.as_slice())?;
    let label = label_line(alloc, kernel.block)?;
    text.extend_from_slice(label.as_bytes())?;
    push_insts(alloc, &mut text, kernel.insts.as_slice())?;
    text.extend_from_slice(b"  ret void\n}\n")?;
    Ok(text)
}

/// The target lines, and the line of the kernel up to its parameters.
fn text_before_params(alloc: Global, kernel: &Kernel) -> Result<Vec<u8>, OutOfMemory>
    ensures { IfOk result (λ text. text.items ≡ targets_text kernel.now.has_targets ++ name_line kernel.now) }
{
    let mut text = Vec::new(alloc);
    text.extend_from_slice(target_lines(kernel.has_targets).as_bytes())?;
    text.extend_from_slice(b"define spir_kernel void @")?;
    text.extend_from_slice(name(kernel))?;
    text.extend_from_slice(b"(")?;
    Ok(text)
}

/// The two target lines, where they stand before the kernel.
fn target_lines(has_targets: bool) -> &'static str
    ensures { result.now ≡ targets_text has_targets }
{
    if has_targets { TARGET_LINES } else { "" }
}

/// The bytes of the kernel's own name, none where it has no text.
fn name(kernel: &Kernel) -> &[u8]
    ensures { result.now ≡ name_bytes kernel.now }
{
    match kernel.names.as_slice().get(kernel.name.number as usize) {
        Some(entry) => match &entry.spelling {
            Spelling::Text(bytes) => bytes.as_slice(),
            Spelling::Number(_) => &[],
        },
        None => &[],
    }
}

/// What stands between the parameters and the instructions.
fn label_line(alloc: Global, block: Name) -> Result<String, OutOfMemory>
    ensures { IfOk result (λ line. string_bytes line ≡ label_line block) }
{
    let block = shown(block);
    Ok(format!(in alloc; ") {{\n{block}:\n")?)
}
