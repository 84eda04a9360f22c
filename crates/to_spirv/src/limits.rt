ghost use Rattle.std.specs.Prelude.{◌+◌, ◌/◌, ◌≤◌, ◌↔◌, length, IsTrue};
ghost use Rattle.kernel_tree.specs.Numbered.{name_bytes};
ghost use Rattle.to_spirv.specs.Limits.{IsWithinLimits};

use crate::bound::has_bound_within;
use crate::names::name_bytes;
use kernel_tree::Kernel;

/// Whether the module of a kernel keeps the limits: its bound is at most 4,194,303 (SPIR-V 1.2, 2.17 "Universal Limits"), and none of its
/// instructions has more than 65,535 words (2.3).
pub fn is_within_limits(kernel: &Kernel) -> bool
    ensures { IsTrue result ↔ IsWithinLimits kernel.now }
{
    if !has_bound_within(kernel) {
        return false;
    }
    if !has_short_name(kernel) {
        return false;
    }
    has_short_type(kernel)
}

/// Whether the name of a kernel leaves its entry point short enough: behind the words of the opcode, of the execution model and of the
/// function's id, a text has a word for each four bytes, and one more.
fn has_short_name(kernel: &Kernel) -> bool
    ensures { IsTrue result ↔ length (name_bytes kernel.now) / 4 + 4 ≤ 65535 }
{
    name_bytes(kernel).len() / 4 <= 65531
}

/// Whether a kernel has few enough parameters: the type of its function has words for the opcode, its id and its result too.
fn has_short_type(kernel: &Kernel) -> bool
    ensures { IsTrue result ↔ length kernel.now.params + 3 ≤ 65535 }
{
    kernel.params.len() <= 65532
}
