ghost use Rattle.std.specs.Prelude.{◌≡◌, nat_eq, map};
ghost use Rattle.inst_walk.specs.Renaming.{renamed_name};
ghost use Rattle.ll_tree.specs.Names.{name_renamed};
ghost use Rattle.ll_tree.specs.Values.{value_renamed, typed_renamed};

use crate::child::Child;
use crate::name::Name;
use crate::parts::Parts;
use crate::value::{TypedValue, Value};
use inst_walk::Renaming;
use std::mem;

/// Replaces the name's number by the one that the map gives it.
pub(crate) fn rename(name: &mut Name, names: &Renaming<u32>)
    ensures { name.new ≡ name_renamed (renamed_name nat_eq names.now) name.old }
{
    name.number = names.renamed(name.number);
}

fn renamed(name: Name, names: &Renaming<u32>) -> Name
    ensures { result ≡ name_renamed (renamed_name nat_eq names.now) name }
{
    let mut name = name;
    rename(&mut name, names);
    name
}

#[cycle(rename_values)]
#[tactic(auto, using(crate::proofs::ValueShapes::vector_changed, crate::proofs::ValueShapes::array_changed, crate::proofs::ValueShapes::struct_changed, crate::proofs::ValueShapes::packed_changed, crate::proofs::ValueShapes::getelementptr_changed, crate::proofs::ValueShapes::cast_changed))]
fn renamed_value(value: Value, names: &Renaming<u32>) -> Value
    ensures { result ≡ value_renamed (renamed_name nat_eq names.now) value }
{
    match value {
        Value::Local(name) => Value::Local(renamed(name, names)),
        Value::Global(name) => Value::Global(renamed(name, names)),
        Value::Vector(parts) => Value::Vector(renamed_parts(parts, names)),
        Value::Array(parts) => Value::Array(renamed_parts(parts, names)),
        Value::Struct(parts) => Value::Struct(renamed_parts(parts, names)),
        Value::Packed(parts) => Value::Packed(renamed_parts(parts, names)),
        Value::GetElementPtr {
            inbounds,
            ty,
            operands,
        } => Value::GetElementPtr {
            inbounds,
            ty,
            operands: renamed_parts(operands, names),
        },
        Value::Cast { kind, operand, to } => Value::Cast {
            kind,
            operand: renamed_operand(operand, names),
            to,
        },
        other => other,
    }
}

/// Replaces each name in the value.
#[cycle(rename_values)]
pub(crate) fn rename_value(value: &mut Value, names: &Renaming<u32>)
    ensures { value.new ≡ value_renamed (renamed_name nat_eq names.now) value.old }
{
    let old = mem::replace(value, Value::Undef);
    *value = renamed_value(old, names);
}

/// Replaces each name in the value.
#[cycle(rename_values)]
pub(crate) fn rename_typed(typed: &mut TypedValue, names: &Renaming<u32>)
    ensures { typed.new ≡ typed_renamed (renamed_name nat_eq names.now) typed.old }
{
    rename_value(&mut typed.value, names);
}

#[cycle(rename_values)]
fn renamed_operand(operand: Child<TypedValue>, names: &Renaming<u32>) -> Child<TypedValue>
    ensures { result ≡ typed_renamed (renamed_name nat_eq names.now) operand }
{
    let mut operand = operand;
    rename_typed(operand.get_mut(), names);
    operand
}

#[cycle(rename_values)]
fn renamed_parts(parts: Parts<TypedValue>, names: &Renaming<u32>) -> Parts<TypedValue>
    ensures { result ≡ map (typed_renamed (renamed_name nat_eq names.now)) parts }
{
    let mut parts = parts;
    rename_parts(&mut parts, names);
    parts
}

/// Replaces each name in the values.
#[cycle(rename_values)]
pub(crate) fn rename_parts(parts: &mut Parts<TypedValue>, names: &Renaming<u32>)
    ensures { parts.new ≡ map (typed_renamed (renamed_name nat_eq names.now)) parts.old }
{
    rename_all(parts.as_mut_slice(), names);
}

#[cycle(rename_values)]
fn rename_all(parts: &mut [TypedValue], names: &Renaming<u32>)
    ensures { parts.new ≡ map (typed_renamed (renamed_name nat_eq names.now)) parts.old }
{
    for i in 0..parts.len() {
        rename_typed(&mut parts[i], names);
    }
}
