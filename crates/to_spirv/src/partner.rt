ghost use Rattle.std.specs.Prelude.{◌≡◌, ◌≤◌, length, IfOk};
ghost use Rattle.kern_types.specs.Parts.{HasPartsIn};
ghost use Rattle.kernel_tree.specs.Numbered.{IsNumbered};
ghost use Rattle.to_spirv.specs.ClosedTypes.{listed_by, ids_by, front_of, function_entry};
ghost use Rattle.to_spirv.specs.KernelTypes.{row_of_params};
ghost use Rattle.to_spirv.specs.Partner.{bound_of, bound_over, capabilities, entry_partner, module_over, partner};
ghost use Rattle.to_spirv.specs.Ranges.{HasIds};

use crate::body::{body_partner, function_partner};
use crate::bound::bound;
use crate::ids::Ids;
use crate::lists::one;
use crate::names::name_bytes;
use crate::type_list::named_types;
use crate::types::{TypesNeeded, types_needed};
use kernel_tree::Kernel;
use ports::OutOfMemory;
use spv_module::{Capability, Entry, MemoryModel, SpvModule};
use spv_words::Order;
use sqlite_items::Items;
use std::alloc::Global;

/// The version word of SPIR-V 1.2.
const VERSION: u32 = 0x10200;
/// The addressing model Physical64 (SPIR-V 1.2, 3.4).
const PHYSICAL64: u32 = 2;
/// The memory model OpenCL (SPIR-V 1.2, 3.5).
const OPENCL: u32 = 2;
/// The capability Addresses (SPIR-V 1.2, 3.31).
const ADDRESSES: u32 = 4;
/// The capability Kernel (SPIR-V 1.2, 3.31).
const KERNEL: u32 = 6;

/// The SPIR-V module of a kernel whose names are numbered in the order of their definitions (SPIR-V 1.2, 2.4 "Logical Layout of a
/// Module"), in little order, with each place 0. Its types are those that the function and then the instructions need, each behind those
/// that it refers to, and its ids count from 1 in the order of the instructions that define them. Whether their bound is allowed is a part
/// of what `is_within_limits` tests.
///
/// `OutOfMemory` comes for want of memory alone.
pub fn to_spirv(alloc: Global, kernel: &Kernel) -> Result<SpvModule, OutOfMemory>
    requires numbered { IsNumbered kernel.now }
    requires bound { bound_of kernel.now ≤ 0x3FFFFF }
    ensures { IfOk result (λ it. it ≡ partner kernel.now) }
{
    let needed = types_needed(kernel.params.as_slice(), kernel.insts.as_slice());
    module_over(alloc, kernel, needed, Ids::of(needed))
}

/// The module of a kernel that needs these types.
fn module_over(
    alloc: Global,
    kernel: &Kernel,
    needed: TypesNeeded,
    ids: Ids,
) -> Result<SpvModule, OutOfMemory>
    requires ids { ids ≡ ids_by needed }
    requires has_ids { HasIds ids kernel.now }
    requires bound { bound_over ids kernel.now ≤ 0x3FFFFF }
    requires parts { HasPartsIn (length (front_of needed)) (function_entry ids kernel.now.params) }
    ensures { IfOk result (λ it. it ≡ module_over (listed_by needed (row_of_params kernel.now.params)) ids kernel.now) }
{
    Ok(SpvModule {
        order: Order::Little,
        version: VERSION,
        bound: bound(kernel, ids),
        capabilities: capabilities(alloc)?,
        extensions: Items::new(alloc),
        imports: Items::new(alloc),
        memory_model: MemoryModel {
            addressing: PHYSICAL64,
            memory: OPENCL,
            place: 0,
        },
        entries: one(alloc, entry_partner(alloc, kernel, ids)?)?,
        strings: Items::new(alloc),
        source: None,
        decorations: Items::new(alloc),
        decoration_groups: Items::new(alloc),
        groups: Items::new(alloc),
        types: named_types(alloc, kernel.params.as_slice(), needed, ids)?,
        constants: Items::new(alloc),
        variables: Items::new(alloc),
        functions: one(alloc, function_partner(alloc, kernel, ids)?)?,
        bodies: one(alloc, body_partner(alloc, kernel, ids)?)?,
    })
}

/// The capabilities that a kernel asks for.
fn capabilities(alloc: Global) -> Result<Items<Capability>, OutOfMemory>
    ensures { IfOk result (λ it. it ≡ capabilities) }
{
    let addresses = Capability {
        number: ADDRESSES,
        place: 0,
    };
    let kernel = Capability {
        number: KERNEL,
        place: 0,
    };
    Ok(Items::from_slice(alloc, &[addresses, kernel])?)
}

/// The entry point of a kernel.
fn entry_partner(alloc: Global, kernel: &Kernel, ids: Ids) -> Result<Entry, OutOfMemory>
    ensures { IfOk result (λ it. it ≡ entry_partner ids kernel.now) }
{
    Ok(Entry {
        function: ids.function,
        name: Items::from_slice(alloc, name_bytes(kernel))?,
        interface: Items::new(alloc),
        modes: Items::new(alloc),
        place: 0,
    })
}
