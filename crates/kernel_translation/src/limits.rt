ghost use Rattle.std.specs.Prelude.{◌≤◌, ◌↔◌, IsTrue, IfOk, length};
ghost use Rattle.kernel_tree.specs.Text.{kernel_text};
ghost use Rattle.to_spirv.specs.Limits.{HasPlainName, IsWithinLimits};

use crate::translation::MAX_BYTES;
use kernel_printer::print_kernel;
use kernel_tree::Kernel;
use ports::OutOfMemory;
use std::alloc::Global;
use to_spirv::{has_plain_name, is_within_limits};

/// Whether a canonical form has a name that a literal string can hold, and a module within the limits of SPIR-V.
pub fn is_translatable(kernel: &Kernel) -> bool
    ensures { IsTrue result ↔ (HasPlainName kernel.now × IsWithinLimits kernel.now) }
{
    has_plain_name(kernel) && is_within_limits(kernel)
}

/// Whether the text of a canonical form is short enough to be read again.
pub fn has_short_text(alloc: Global, kernel: &Kernel) -> Result<bool, OutOfMemory>
    ensures { IfOk result (λ short. IsTrue short ↔ (length (kernel_text kernel.now) ≤ 16777216)) }
{
    let text = print_kernel(alloc, kernel)?;
    Ok(text.len() as u64 <= MAX_BYTES)
}
