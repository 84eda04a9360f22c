ghost use Rattle.std.specs.Prelude.{◌≡◌, ◌++◌, ◌∷◌, ◌+◌, ◌<◌, [], IfOk, OnOk, OnSome, MatchOption, map, reverse, length};
ghost use Rattle.spv_module.specs.Sections.{type_declared, types_declared, constant_declared, variable_declared, declarations, inst_of, merged, second_first};
ghost use Rattle.spv_module.specs.Spelled.{id_at, type_spelled};

use crate::items::{Spells, class_number, long_inst, short_inst};
use crate::module::{Constant, SpvModule, Variable};
use crate::types::{TypeName, Types};
use kern_types::{Ty, TyId};
use ports::OutOfMemory;
use spv_codec::RawInst;
use spv_layout::Opcode;
use std::alloc::Global;

/// A type, a constant or a variable of the module: its id, and the instruction that defines it.
#[derive(Drop)]
pub struct Declared {
    pub id: u32,
    pub inst: RawInst,
}

/// Appends the instructions of the types, the constants and the variables of a module, by rising ids.
pub(crate) fn add_declarations(
    alloc: Global,
    insts: &mut Vec<RawInst>,
    m: &SpvModule,
) -> Result<(), OutOfMemory>
    ensures { OnOk result (insts.new.items ≡ insts.old.items ++ map inst_of (declarations m.now)) }
{
    let types = declared_types(alloc, &m.types)?;
    let constants = declared_constants(alloc, m.constants.as_slice())?;
    let variables = declared_variables(alloc, m.variables.as_slice())?;
    let both = merge(alloc, types, constants)?;
    add_merged(insts, both, variables)
}

/// Two lists as one, by rising ids where theirs rise.
fn merge(
    alloc: Global,
    mut left: Vec<Declared>,
    mut right: Vec<Declared>,
) -> Result<Vec<Declared>, OutOfMemory>
    ensures { IfOk result (λ all. all.items ≡ merged left.items right.items) }
{
    left.reverse();
    right.reverse();
    let mut all = Vec::new(alloc);
    while let Some(next) = pop_lower(&mut left, &mut right) {
        all.push(next)?;
    }
    Ok(all)
}

/// Appends the instructions of two lists as one.
fn add_merged(
    insts: &mut Vec<RawInst>,
    mut left: Vec<Declared>,
    mut right: Vec<Declared>,
) -> Result<(), OutOfMemory>
    ensures { OnOk result (insts.new.items ≡ insts.old.items ++ map inst_of (merged left.items right.items)) }
{
    left.reverse();
    right.reverse();
    while let Some(next) = pop_lower(&mut left, &mut right) {
        let Declared { id: _, inst } = next;
        insts.push(inst)?;
    }
    Ok(())
}

/// Takes the last one of the two lists that has the lower id, that of the first list where the ids are equal.
fn pop_lower(left: &mut Vec<Declared>, right: &mut Vec<Declared>) -> Option<Declared>
    ensures next { MatchOption result
        (merged (reverse left.old.items) (reverse right.old.items) ≡ [])
        (λ next. merged (reverse left.old.items) (reverse right.old.items) ≡ next ∷ merged (reverse left.new.items) (reverse right.new.items)) }
    ensures smaller { OnSome result (length left.new.items + length right.new.items < length left.old.items + length right.old.items) }
{
    if takes_right(left, right) {
        pop_last(right)
    } else {
        pop_last(left)
    }
}

fn pop_last(list: &mut Vec<Declared>) -> Option<Declared>
    ensures { MatchOption result ((list.old.items ≡ []) × (list.new.items ≡ [])) (λ last. list.old.items ≡ list.new.items ++ last ∷ []) }
{
    list.pop()
}

/// Whether the last one of the second list comes before that of the first.
fn takes_right(left: &[Declared], right: &[Declared]) -> bool
    ensures { result ≡ second_first (reverse left.now) (reverse right.now) }
{
    if left.is_empty() {
        true
    } else if right.is_empty() {
        false
    } else {
        right[right.len() - 1].id < left[left.len() - 1].id
    }
}

fn declared_constants(alloc: Global, constants: &[Constant]) -> Result<Vec<Declared>, OutOfMemory>
    ensures { IfOk result (λ all. all.items ≡ map constant_declared constants.now) }
{
    let mut all = Vec::new(alloc);
    for constant in constants {
        let inst = constant.spell(alloc)?;
        all.push(Declared {
            id: constant.id,
            inst,
        })?;
    }
    Ok(all)
}

fn declared_variables(alloc: Global, variables: &[Variable]) -> Result<Vec<Declared>, OutOfMemory>
    ensures { IfOk result (λ all. all.items ≡ map variable_declared variables.now) }
{
    let mut all = Vec::new(alloc);
    for variable in variables {
        let inst = variable.spell(alloc)?;
        all.push(Declared {
            id: variable.id,
            inst,
        })?;
    }
    Ok(all)
}

fn declared_types(alloc: Global, types: &Types) -> Result<Vec<Declared>, OutOfMemory>
    ensures { IfOk result (λ all. all.items ≡ types_declared types.now) }
{
    let names = types.names();
    let mut all = Vec::new(alloc);
    for i in 0..names.len() {
        add_type(alloc, &mut all, names, names[i], types.at(i))?;
    }
    Ok(all)
}

/// Appends a type, where the table holds what it is.
fn add_type(
    alloc: Global,
    all: &mut Vec<Declared>,
    names: &[TypeName],
    name: TypeName,
    ty: &Ty,
) -> Result<(), OutOfMemory>
    ensures { OnOk result (all.new.items ≡ all.old.items ++ type_declared names.now (name, ty.now)) }
{
    match type_inst(alloc, names, name, ty)? {
        Some(inst) => {
            all.push(Declared { id: name.id, inst })?;
            Ok(())
        }
        None => Ok(()),
    }
}

/// The instruction of a type (SPIR-V 1.2, 3.32.6), none where the table can't hold what it is.
fn type_inst(
    alloc: Global,
    names: &[TypeName],
    name: TypeName,
    ty: &Ty,
) -> Result<Option<RawInst>, OutOfMemory>
    ensures { IfOk result (λ inst. inst ≡ type_spelled names.now name ty.now) }
{
    let id = name.id;
    let inst = match ty {
        Ty::Void => short_inst(alloc, Opcode::TypeVoid, &[id]),
        Ty::Bool => short_inst(alloc, Opcode::TypeBool, &[id]),
        Ty::Int(width) => short_inst(alloc, Opcode::TypeInt, &[id, width.bits(), 0]),
        Ty::Vector { of, lanes } => {
            short_inst(alloc, Opcode::TypeVector, &[id, id_at(names, *of), *lanes])
        }
        Ty::Array { of, count: _ } => {
            let length = name.length.unwrap_or(0);
            short_inst(alloc, Opcode::TypeArray, &[id, id_at(names, *of), length])
        }
        Ty::Struct { members, packed: _ } => {
            let members = ids_at(alloc, names, members.as_slice())?;
            long_inst(alloc, Opcode::TypeStruct, &[id], &members)
        }
        Ty::Pointer { class, to } => {
            short_inst(
                alloc,
                Opcode::TypePointer,
                &[id, class_number(*class), id_at(names, *to)],
            )
        }
        Ty::Function { result, params } => {
            let params = ids_at(alloc, names, params.as_slice())?;
            long_inst(
                alloc,
                Opcode::TypeFunction,
                &[id, id_at(names, *result)],
                &params,
            )
        }
        Ty::Other => return Ok(None),
    };
    Ok(Some(inst?))
}

/// The id of a type of the table.
fn id_at(names: &[TypeName], place: TyId) -> u32
    ensures { result ≡ id_at names.now place }
{
    match names.get(place.0 as usize) {
        Some(name) => name.id,
        None => 0,
    }
}

fn ids_at(alloc: Global, names: &[TypeName], places: &[TyId]) -> Result<Vec<u32>, OutOfMemory>
    ensures { IfOk result (λ ids. ids.items ≡ map (id_at names.now) places.now) }
{
    let mut ids = Vec::new(alloc);
    for place in places {
        ids.push(id_at(names, *place))?;
    }
    Ok(ids)
}
