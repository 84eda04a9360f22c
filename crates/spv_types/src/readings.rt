ghost use Rattle.std.specs.Prelude.{◌≡◌, ◌++◌, ℕ, nat_eq, IfOk, drop, Some};
ghost use Rattle.std.specs.HashMap.{get};
ghost use Rattle.std.specs.HashSet.{contains};
ghost use Rattle.spv_types.specs.Readings.{class_of, int_of, int_by, places_of, vector_by, array_by, struct_by, pointer_by, function_by, type_by, length_by, name_of};

use kern_lanes::Width;
use kern_types::{Class, Ids, Ty, TyId};
use ports::OutOfMemory;
use spv_codec::RawInst;
use spv_layout::Opcode;
use spv_module::TypeName;
use std::alloc::Global;
use std::collections::{HashMap, HashSet};

/// What a module says of the ids that types take, but for the types: the numbers of constants, and what is packed.
#[derive(Drop)]
pub struct Known {
    pub numbers: HashMap<u32, u64>,
    pub packed: HashSet<u32>,
}

/// The storage class of a number, if it is one of those that types of kernels take (SPIR-V 1.2, 3.7).
pub fn class_of(number: u32) -> Option<Class>
    ensures { result ≡ class_of number }
{
    match number {
        0 => Some(Class::Constant),
        1 => Some(Class::Input),
        4 => Some(Class::Local),
        5 => Some(Class::Global),
        7 => Some(Class::Private),
        8 => Some(Class::Generic),
        _ => None,
    }
}

/// The type that an instruction of this opcode declares, none where it declares none (SPIR-V 1.2, 3.32.6).
pub fn type_by(
    alloc: Global,
    places: &HashMap<u32, TyId>,
    known: &Known,
    opcode: Option<Opcode>,
    operands: &[u32],
) -> Result<Option<Ty>, OutOfMemory>
    ensures { IfOk result (λ ty. ty ≡ type_by (get nat_eq places.now) (get nat_eq known.now.numbers) (contains nat_eq known.now.packed) opcode operands.now) }
{
    match opcode {
        Some(Opcode::TypeVoid) => Ok(Some(Ty::Void)),
        Some(Opcode::TypeBool) => Ok(Some(Ty::Bool)),
        Some(Opcode::TypeInt) => Ok(Some(int_by(operands))),
        Some(Opcode::TypeVector) => Ok(Some(vector_by(places, operands))),
        Some(Opcode::TypeArray) => Ok(Some(array_by(places, &known.numbers, operands))),
        Some(Opcode::TypeStruct) => Ok(Some(struct_by(alloc, places, &known.packed, operands)?)),
        Some(Opcode::TypePointer) => Ok(Some(pointer_by(places, operands))),
        Some(Opcode::TypeFunction) => Ok(Some(function_by(alloc, places, operands)?)),
        _ => Ok(None),
    }
}

fn int_by(operands: &[u32]) -> Ty
    ensures { result ≡ int_by operands.now }
{
    match operands {
        [_, width, 0] => int_of(*width),
        _ => Ty::Other,
    }
}

fn int_of(width: u32) -> Ty
    ensures { result ≡ int_of width }
{
    match width {
        8 => Ty::Int(Width::W8),
        16 => Ty::Int(Width::W16),
        32 => Ty::Int(Width::W32),
        64 => Ty::Int(Width::W64),
        _ => Ty::Other,
    }
}

/// The place of the type with an id.
fn place_of(places: &HashMap<u32, TyId>, id: u32) -> Option<TyId>
    ensures { result ≡ get nat_eq places.now id }
{
    places.get(&id).copied()
}

/// The places of all of some types.
fn places_of(
    alloc: Global,
    places: &HashMap<u32, TyId>,
    ids: &[u32],
) -> Result<Option<Ids>, OutOfMemory>
    ensures { IfOk result (λ all. all ≡ places_of (get nat_eq places.now) ids.now) }
{
    let mut all = Vec::new(alloc);
    for id in ids {
        match place_of(places, *id) {
            Some(place) => all.push(place)?,
            None => return Ok(None),
        }
    }
    Ok(Some(Ids::from_vec(all)))
}

fn vector_by(places: &HashMap<u32, TyId>, operands: &[u32]) -> Ty
    ensures { result ≡ vector_by (get nat_eq places.now) operands.now }
{
    let [_, part, lanes] = operands else {
        return Ty::Other;
    };
    match place_of(places, *part) {
        Some(of) => Ty::Vector { of, lanes: *lanes },
        None => Ty::Other,
    }
}

fn array_by(places: &HashMap<u32, TyId>, numbers: &HashMap<u32, u64>, operands: &[u32]) -> Ty
    ensures { result ≡ array_by (get nat_eq places.now) (get nat_eq numbers.now) operands.now }
{
    let [_, part, length] = operands else {
        return Ty::Other;
    };
    match (place_of(places, *part), number_of(numbers, *length)) {
        (Some(of), Some(count)) => Ty::Array { of, count },
        _ => Ty::Other,
    }
}

/// The number of the constant with an id.
fn number_of(numbers: &HashMap<u32, u64>, id: u32) -> Option<u64>
    ensures { result ≡ get nat_eq numbers.now id }
{
    numbers.get(&id).copied()
}

fn struct_by(
    alloc: Global,
    places: &HashMap<u32, TyId>,
    packed: &HashSet<u32>,
    operands: &[u32],
) -> Result<Ty, OutOfMemory>
    ensures { IfOk result (λ ty. ty ≡ struct_by (get nat_eq places.now) (contains nat_eq packed.now) operands.now) }
{
    let [id, members @ ..] = operands else {
        return Ok(Ty::Other);
    };
    match places_of(alloc, places, members)? {
        Some(members) => Ok(Ty::Struct {
            members,
            packed: packed.contains(id),
        }),
        None => Ok(Ty::Other),
    }
}

fn pointer_by(places: &HashMap<u32, TyId>, operands: &[u32]) -> Ty
    ensures { result ≡ pointer_by (get nat_eq places.now) operands.now }
{
    let [_, class, pointee] = operands else {
        return Ty::Other;
    };
    match (class_of(*class), place_of(places, *pointee)) {
        (Some(class), Some(to)) => Ty::Pointer { class, to },
        _ => Ty::Other,
    }
}

fn function_by(
    alloc: Global,
    places: &HashMap<u32, TyId>,
    operands: &[u32],
) -> Result<Ty, OutOfMemory>
    ensures { IfOk result (λ ty. ty ≡ function_by (get nat_eq places.now) operands.now) }
{
    let [_, given, params @ ..] = operands else {
        return Ok(Ty::Other);
    };
    match (place_of(places, *given), places_of(alloc, places, params)?) {
        (Some(given), Some(params)) => Ok(Ty::Function {
            result: given,
            params,
        }),
        _ => Ok(Ty::Other),
    }
}

/// What names the type that an instruction declares.
pub fn name_of(inst: &RawInst) -> TypeName
    ensures { result ≡ name_of inst.now }
{
    let operands = inst.operands.as_slice();
    TypeName {
        id: operands.first().copied().unwrap_or(0),
        length: length_by(Opcode::from_number(inst.op), operands),
        place: inst.place,
    }
}

/// The constant that is the length of an array.
fn length_by(opcode: Option<Opcode>, operands: &[u32]) -> Option<u32>
    ensures { result ≡ length_by opcode operands.now }
{
    match opcode {
        Some(Opcode::TypeArray) => operands.get(2).copied(),
        _ => None,
    }
}
