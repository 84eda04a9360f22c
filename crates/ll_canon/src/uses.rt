ghost use Rattle.std.specs.Prelude.{◌≡◌, ◌+◌, ◌≤◌, ◌<◌, ◌^◌, map, length};
ghost use Rattle.std.specs.List.{list_all};
ghost use Rattle.kernel_tree.specs.Covered.{use_fits, uses_fit};
ghost use Rattle.kernel_tree.specs.Names.{used_by};
ghost use Rattle.kernel_tree.specs.Numbered.{number_defined};

use inst_walk::Places;
use kernel_tree::{Definition, Kernel, KernelInst, ValueType};
use ll_tree::Name;

/// Whether each use of the kernel's instructions stands below its definition and asks for the type that this has.
pub fn uses_fit(kernel: &Kernel, defined: &[Definition], places: &Places<u32>) -> bool
    requires { places.now ≡ map number_defined defined.now }
    ensures { result ≡ uses_fit defined.now (length kernel.now.params + 1) kernel.now.insts }
{
    let scope = Scope { defined, places };
    // In 128 bits no sum is too great.
    let mut above = kernel.params.len() as u128 + 1;
    for inst in kernel.insts.as_slice() {
        if !scope.fits(above, *inst) {
            return false;
        }
        if inst.result().is_some() {
            above += 1;
        }
    }
    true
}

/// What a kernel defines, and where each name stands among it.
#[derive(Clone, Copy)]
struct Scope<'d> {
    defined: &'d [Definition],
    places: &'d Places<u32>,
    ghost same: { places.now ≡ map number_defined defined.now },
}

impl<'d> Scope<'d> {
    /// Whether the uses of an instruction fit, above which so many definitions stand.
    fn fits(self, above: u128, inst: KernelInst) -> bool
        ensures { result ≡ list_all (use_fits self.entry.defined.now above) (used_by inst) }
    {
        match inst {
            KernelInst::Add { left, right, .. } => {
                self.use_fits(above, left, ValueType::Int)
                    && self.use_fits(above, right, ValueType::Int)
            }
            KernelInst::Load { pointer, .. } => self.use_fits(above, pointer, ValueType::Pointer),
            KernelInst::Store { value, pointer, .. } => {
                self.use_fits(above, value, ValueType::Int)
                    && self.use_fits(above, pointer, ValueType::Pointer)
            }
        }
    }

    fn use_fits(self, above: u128, name: Name, wanted: ValueType) -> bool
        ensures { result ≡ use_fits self.entry.defined.now above (record { name = name; value_type = wanted }) }
    {
        match self.places.place(name.number) {
            Some(place) if (place as u128) < above => match self.defined.get(place) {
                Some(definition) => definition.value_type == Some(wanted),
                None => false,
            },
            _ => false,
        }
    }
}
