ghost use Rattle.std.specs.Prelude.{◌≡◌, ◌++◌, map, OnOk, ◌∷◌, []};
ghost use Rattle.ll_tree.specs.Values.{value_names, names_in, bare};

use crate::value::{TypedValue, Value};
use ports::OutOfMemory;

/// Adds the numbers of the value's names, in order.
#[cycle(names)]
#[tactic(auto, using(crate::proofs::ValueShapes::vector_names, crate::proofs::ValueShapes::array_names, crate::proofs::ValueShapes::struct_names, crate::proofs::ValueShapes::packed_names, crate::proofs::ValueShapes::getelementptr_names, crate::proofs::ValueShapes::cast_names))]
pub(crate) fn add_names(value: &Value, names: &mut Vec<u32>) -> Result<(), OutOfMemory>
    ensures { OnOk result (names.new.items ≡ names.old.items ++ value_names value.now) }
{
    match value {
        Value::Local(name) => add_number(name.number, names),
        Value::Global(name) => add_number(name.number, names),
        Value::Vector(parts) => add_all_names(parts.as_slice(), names),
        Value::Array(parts) => add_all_names(parts.as_slice(), names),
        Value::Struct(parts) => add_all_names(parts.as_slice(), names),
        Value::Packed(parts) => add_all_names(parts.as_slice(), names),
        Value::GetElementPtr { operands, .. } => add_all_names(operands.as_slice(), names),
        Value::Cast { operand, .. } => add_names(&operand.get().value, names),
        _ => Ok(()),
    }
}

fn add_number(number: u32, names: &mut Vec<u32>) -> Result<(), OutOfMemory>
    ensures { OnOk result (names.new.items ≡ names.old.items ++ number ∷ []) }
{
    names.push(number)?;
    Ok(())
}

/// Adds the numbers of the values' names, in order.
#[cycle(names)]
pub(crate) fn add_all_names(values: &[TypedValue], names: &mut Vec<u32>) -> Result<(), OutOfMemory>
    ensures { OnOk result (names.new.items ≡ names.old.items ++ names_in (bare values.now)) }
{
    for typed in values {
        add_names(&typed.value, names)?;
    }
    Ok(())
}
