ghost use Rattle.std.specs.Prelude.{◌≡◌, ◌<◌, ◌^◌, IfOk, OnOk, map, length};
ghost use Rattle.kern_types.specs.Parts.{HasPartsIn};
ghost use Rattle.to_spirv.specs.ClosedTypes.{listed_by, ids_by, front_of, numbered_types, with_behind, function_entry, value_place};
ghost use Rattle.to_spirv.specs.KernelTypes.{row_of_params};
ghost use Rattle.to_spirv.specs.Partner.{named_types, type_name};

use crate::ids::Ids;
use crate::types::TypesNeeded;
use kern_lanes::Width;
use kern_types::{Class, Ids as TyIds, PointerWidth, Ty, TyId};
use kernel_tree::KernelParam;
use ports::OutOfMemory;
use spv_module::{TypeName, Types};
use std::alloc::Global;

/// The types of the module of a kernel with these parameters, which need these types, by their ids.
pub(crate) fn named_types(
    alloc: Global,
    params: &[KernelParam],
    needed: TypesNeeded,
    ids: Ids,
) -> Result<Types, OutOfMemory>
    requires ids { ids ≡ ids_by needed }
    requires parts { HasPartsIn (length (front_of needed)) (function_entry ids params.now) }
    ensures { IfOk result (λ it. it ≡ named_types (listed_by needed (row_of_params params.now))) }
{
    let mut types = front_types(alloc, needed)?;
    let function = function_entry(alloc, params, ids)?;
    types.add(function, type_name(ids.function_type))?;
    add_behind(&mut types, needed)?;
    Ok(types)
}

/// The types that stand before the function's.
fn front_types(alloc: Global, needed: TypesNeeded) -> Result<Types, OutOfMemory>
    ensures { IfOk result (λ it. it ≡ numbered_types (front_of needed)) }
{
    let mut types = Types::new(alloc, PointerWidth::P64);
    types.add(Ty::Void, type_name(1))?;
    match needed {
        TypesNeeded::Neither | TypesNeeded::ResultInt => {}
        TypesNeeded::ParamInt => types.add(Ty::Int(Width::W32), type_name(2))?,
        TypesNeeded::ParamPointer => {
            types.add(Ty::Int(Width::W32), type_name(2))?;
            let pointer = Ty::Pointer {
                class: Class::Global,
                to: TyId(1),
            };
            types.add(pointer, type_name(3))?;
        }
    }
    Ok(types)
}

/// Adds the type that stands behind the function's.
fn add_behind(types: &mut Types, needed: TypesNeeded) -> Result<(), OutOfMemory>
    requires { length types.old.names < 2 ^ 32 }
    ensures { OnOk result (types.new ≡ with_behind needed types.old) }
{
    match needed {
        TypesNeeded::ResultInt => types.add(Ty::Int(Width::W32), type_name(3)),
        _ => Ok(()),
    }
}

/// The type of a kernel's function.
fn function_entry(alloc: Global, params: &[KernelParam], ids: Ids) -> Result<Ty, OutOfMemory>
    requires int { 0 < ids.int }
    requires pointer { 0 < ids.pointer }
    ensures { IfOk result (λ it. it ≡ function_entry ids params.now) }
{
    let mut places = Vec::new(alloc);
    for param in params {
        places.push(value_place(*param, ids))?;
    }
    Ok(Ty::Function {
        result: TyId(0),
        params: TyIds::from_vec(places),
    })
}

/// The place of a parameter's type.
fn value_place(param: KernelParam, ids: Ids) -> TyId
    requires int { 0 < ids.int }
    requires pointer { 0 < ids.pointer }
    ensures { result ≡ value_place ids param }
{
    TyId(ids.value_type(param.value_type) - 1)
}

fn type_name(id: u32) -> TypeName
    ensures { result ≡ type_name id }
{
    TypeName {
        id,
        length: None,
        place: 0,
    }
}
