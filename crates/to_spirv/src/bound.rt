ghost use Rattle.std.specs.Prelude.{◌≡◌, ◌+◌, ◌≤◌, ◌↔◌, length, flat_map, IsTrue};
ghost use Rattle.kernel_tree.specs.Names.{defined_by};
ghost use Rattle.to_spirv.specs.Partner.{bound_over, bound_of};

use crate::ids::Ids;
use crate::types::{has_value, types_needed};
use kernel_tree::{Kernel, KernelInst};

/// The greatest bound of ids that a module may have (SPIR-V 1.2, 2.17 "Universal Limits").
const MAX_BOUND: usize = 0x3FFFFF;

/// One more than the greatest id of a kernel's module.
pub(crate) fn bound(kernel: &Kernel, ids: Ids) -> u32
    requires { bound_over ids kernel.now ≤ 0x3FFFFF }
    ensures { result ≡ bound_over ids kernel.now }
{
    let results = result_count(kernel.insts.as_slice()) as u32;
    ids.function + kernel.params.len() as u32 + 1 + results + 1
}

/// How many of the instructions have a value.
fn result_count(insts: &[KernelInst]) -> usize
    ensures { result ≡ length (flat_map defined_by insts.now) }
{
    let mut count = 0;
    for inst in insts {
        if has_value(*inst) {
            count += 1;
        }
    }
    count
}

/// Whether the bound of a kernel's module is at most the greatest one.
pub(crate) fn has_bound_within(kernel: &Kernel) -> bool
    ensures { IsTrue result ↔ bound_of kernel.now ≤ 0x3FFFFF }
{
    let needed = types_needed(kernel.params.as_slice(), kernel.insts.as_slice());
    let names = kernel
        .params
        .len()
        .saturating_add(result_count(kernel.insts.as_slice()));
    has_room(Ids::of(needed).function, names)
}

/// Whether there is room for a function of this id, and so many names besides that of the block behind it.
fn has_room(function: u32, names: usize) -> bool
    requires { function ≤ 5 }
    ensures { IsTrue result ↔ function + names + 2 ≤ 0x3FFFFF }
{
    names <= MAX_BOUND - 2 - function as usize
}
