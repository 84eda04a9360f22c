ghost use Rattle.std.specs.Prelude.{◌≡◌, ◌==◌, ◌<◌, ◌^◌, ℕ, nat_eq, if◌then◌else◌, length, Some, None, IfOk, OnOk, IfSome};
ghost use Rattle.std.specs.Option.{option_or};
ghost use Rattle.std.specs.HashMap.{get};
ghost use Rattle.std.specs.HashSet.{contains};
ghost use Rattle.kern_types.specs.Parts.{HasPartsIn};
ghost use Rattle.spv_layout.specs.Forms.{opcode_of};
ghost use Rattle.spv_types.specs.Readings.{type_by};
ghost use Rattle.spv_types.specs.Tables.{place_of, with_type, types_of};

use crate::numbers::constant_numbers;
use crate::packed::packed_ids;
use crate::readings::{Known, name_of, type_by};
use kern_types::{PointerWidth, Ty, TyId};
use ports::OutOfMemory;
use spv_codec::RawInst;
use spv_layout::Opcode;
use spv_module::{TypeName, Types};
use std::alloc::Global;
use std::collections::HashMap;

/// The last place of a table.
const LAST_PLACE: usize = 4_294_967_295;

/// The types that the instructions of a module declare, in order, each with its name, in a table whose pointers have this width
/// (SPIR-V 1.2, 3.32.6). A type names its parts by the places of types that stand before it, the length of an array is the number of its
/// constant, and a struct is packed where it has the decoration CPacked, by itself or through a group. A type that a table can't hold, as
/// an integer of 24 bits, or one whose parts aren't types before it, is `Ty::Other`.
///
/// `OutOfMemory` comes for want of memory alone: also where there are more types than a table takes.
pub fn types_of(
    alloc: Global,
    pointer: PointerWidth,
    insts: &[RawInst],
) -> Result<Types, OutOfMemory>
    ensures { IfOk result (λ types. types ≡ types_of pointer insts.now) }
{
    let known = Known {
        numbers: constant_numbers(alloc, insts)?,
        packed: packed_ids(alloc, insts)?,
    };
    let mut places = HashMap::new(alloc);
    let mut types = Types::new(alloc, pointer);
    for inst in insts {
        let ty = type_at(alloc, &places, &known, inst)?;
        add_type(&mut types, &mut places, name_of(inst), ty)?;
    }
    Ok(types)
}

/// The type that an instruction declares, if it declares one.
fn type_at(
    alloc: Global,
    places: &HashMap<u32, TyId>,
    known: &Known,
    inst: &RawInst,
) -> Result<Option<Ty>, OutOfMemory>
    ensures { IfOk result (λ ty. ty ≡ type_by (get nat_eq places.now) (get nat_eq known.now.numbers) (contains nat_eq known.now.packed) (opcode_of inst.now.op) inst.now.operands) }
{
    let operands = inst.operands.as_slice();
    type_by(alloc, places, known, Opcode::from_number(inst.op), operands)
}

/// Adds a type, where there is one, and notes its place.
fn add_type(
    types: &mut Types,
    places: &mut HashMap<u32, TyId>,
    name: TypeName,
    ty: Option<Ty>,
) -> Result<(), OutOfMemory>
    requires parts { IfSome ty (HasPartsIn (length types.old.names)) }
    requires noted { (id : ℕ) → get nat_eq places.old id ≡ place_of types.old.names id }
    ensures added { OnOk result (types.new ≡ with_type types.old name ty) }
    ensures noted { OnOk result ((id : ℕ) → get nat_eq places.new id ≡ place_of types.new.names id) }
{
    let Some(ty) = ty else {
        return Ok(());
    };
    let place = next_place(types)?;
    types.add(ty, name)?;
    note(places, name.id, place)?;
    Ok(())
}

/// The place of a type that is added.
fn next_place(types: &Types) -> Result<TyId, OutOfMemory>
    ensures place { IfOk result (λ place. place ≡ record { 0 = length types.now.names }) }
    ensures room { OnOk result (length types.now.names < 2 ^ 32) }
{
    let place = types.names().len();
    if place > LAST_PLACE {
        return Err(OutOfMemory);
    }
    Ok(TyId(place as u32))
}

/// Notes the place of a type, unless an earlier type of this id is known.
fn note(places: &mut HashMap<u32, TyId>, id: u32, place: TyId) -> Result<(), OutOfMemory>
    ensures { OnOk result ((id2 : ℕ) → get nat_eq places.new id2 ≡ option_or (get nat_eq places.old id2) (if id == id2 then Some place else None)) }
{
    if places.contains_key(&id) {
        return Ok(());
    }
    places.insert(id, place)?;
    Ok(())
}
