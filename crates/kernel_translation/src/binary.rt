ghost use Rattle.std.specs.Prelude.{◌≡◌, IfOk};
ghost use Rattle.kernel_tree.specs.Numbered.{IsNumbered};
ghost use Rattle.spv_module.specs.Sections.{flattened};
ghost use Rattle.to_spirv.specs.Limits.{IsWithinLimits};
ghost use Rattle.to_spirv.specs.Partner.{partner};
ghost use Rattle.kernel_translation.specs.Translations.{binary_of};

use kernel_tree::Kernel;
use ports::OutOfMemory;
use spv_codec::{RawModule, encode};
use spv_module::flatten;
use spv_words::Order;
use std::alloc::Global;
use to_spirv::to_spirv;

/// The bytes of the module of a kernel with numbered names, in this byte order.
pub fn binary(alloc: Global, kernel: &Kernel, order: Order) -> Result<Vec<u8>, OutOfMemory>
    requires numbered { IsNumbered kernel.now }
    requires limits { IsWithinLimits kernel.now }
    ensures { IfOk result (λ bytes. bytes.items ≡ binary_of order kernel.now) }
{
    let raw = raw_module(alloc, kernel)?;
    encode(alloc, &raw, order)
}

/// The instructions of the module of a kernel with numbered names.
fn raw_module(alloc: Global, kernel: &Kernel) -> Result<RawModule, OutOfMemory>
    requires numbered { IsNumbered kernel.now }
    requires limits { IsWithinLimits kernel.now }
    ensures { IfOk result (λ raw. raw ≡ flattened (partner kernel.now)) }
{
    let module = to_spirv(alloc, kernel)?;
    flatten(alloc, &module)
}
