ghost use Rattle.std.specs.Prelude.{◌≡◌, find, flat_map};
ghost use Rattle.std.specs.Option.{option_map};
ghost use Rattle.kernel_tree.specs.Covered.{is_undefined, used_byte};
ghost use Rattle.kernel_tree.specs.Names.{used_by};

use inst_walk::Places;
use kernel_tree::KernelInst;

/// The place of the first name that the instructions use and that isn't among those that are defined.
pub fn first_undefined(places: &Places<u32>, insts: &[KernelInst]) -> Option<u64>
    ensures { result ≡ option_map used_byte (find (is_undefined places.now) (flat_map used_by insts.now)) }
{
    for inst in insts {
        let byte = undefined_in(places, *inst);
        if byte.is_some() {
            return byte;
        }
    }
    None
}

/// The place of the first name that the instruction uses and that isn't defined.
fn undefined_in(places: &Places<u32>, inst: KernelInst) -> Option<u64>
    ensures { result ≡ option_map used_byte (find (is_undefined places.now) (used_by inst)) }
{
    let (first, second) = match inst {
        KernelInst::Add { left, right, .. } => (left, right),
        KernelInst::Load { pointer, .. } => (pointer, pointer),
        KernelInst::Store { value, pointer, .. } => (value, pointer),
    };
    if !places.has(first.number) {
        Some(first.byte)
    } else if !places.has(second.number) {
        Some(second.byte)
    } else {
        None
    }
}
