ghost use Rattle.std.specs.Prelude.{◌≡◌, ◌++◌, map, flat_map, OnOk, IfOk, [], ◌∷◌, replicate};
ghost use Rattle.inst_walk.specs.Outline.{values_of, parents_of};
ghost use Rattle.ll_tree.specs.Ops.{op_takes, op_values, entry_takes, bare_cases, bare_entries};
ghost use Rattle.ll_tree.specs.Values.{names_in, bare, value_names};

use crate::op::{Op, PhiEntry, SwitchCase};
use crate::uses::{add_all_names, add_names};
use crate::value::{TypedValue, Value};
use ports::OutOfMemory;
use std::alloc::Global;

/// The named values that an instruction takes, in order, and beside each value of a phi the block for which
/// it is taken.
#[derive(Debug, Drop)]
pub(crate) struct UseList {
    pub values: Vec<u32>,
    pub parents: Vec<u32>,
}

/// The named values that the instruction takes.
///
/// `OutOfMemory` comes for want of memory alone.
pub(crate) fn uses_of(alloc: Global, op: &Op) -> Result<UseList, OutOfMemory>
    ensures values { IfOk result (λ uses. uses.values.items ≡ values_of (op_takes op.now)) }
    ensures parents { IfOk result (λ uses. uses.parents.items ≡ parents_of (op_takes op.now)) }
{
    let mut values = Vec::new(alloc);
    let mut parents = Vec::new(alloc);
    match op {
        Op::Phi { entries, .. } => add_entries(entries.as_slice(), &mut values, &mut parents)?,
        other => add_operands(other, &mut values)?,
    }
    Ok(UseList { values, parents })
}

/// Adds the names in the operands of the instruction.
fn add_operands(op: &Op, names: &mut Vec<u32>) -> Result<(), OutOfMemory>
    ensures { OnOk result (names.new.items ≡ names.old.items ++ names_in (op_values op.now)) }
{
    match op {
        Op::Binary { left, right, .. } => add_two(left, right, names),
        Op::Compare { left, right, .. } => add_two(left, right, names),
        Op::Select {
            condition,
            accepted,
            rejected,
        } => add_three(condition, accepted, rejected, names),
        Op::Cast { operand, .. } => add_one(operand, names),
        Op::Phi { entries, .. } => add_entry_names(entries.as_slice(), names),
        Op::Alloca { .. } => Ok(()),
        Op::Load { pointer, .. } => add_one(pointer, names),
        Op::Store { value, pointer, .. } => add_two(&value.value, &pointer.value, names),
        Op::AtomicLoad { pointer, .. } => add_one(pointer, names),
        Op::AtomicStore { value, pointer, .. } => add_two(&value.value, &pointer.value, names),
        Op::CompareExchange {
            pointer,
            comparator,
            value,
            ..
        } => add_three(pointer, comparator, value, names),
        Op::AtomicRmw { pointer, value, .. } => add_two(&pointer.value, &value.value, names),
        Op::Fence { .. } => Ok(()),
        Op::GetElementPtr {
            pointer,
            indexes,
            ..
        } => add_path(pointer, indexes.as_slice(), names),
        Op::ExtractElement { vector, index } => add_two(&vector.value, &index.value, names),
        Op::InsertElement {
            vector,
            element,
            index,
        } => add_three(vector, element, index, names),
        Op::ShuffleVector { left, right, mask } => add_three(left, right, mask, names),
        Op::ExtractValue { aggregate, .. } => add_one(aggregate, names),
        Op::Call { arguments, .. } => add_all_names(arguments.as_slice(), names),
        Op::ReturnVoid => Ok(()),
        Op::Return { value } => add_one(value, names),
        Op::Jump { .. } => Ok(()),
        Op::Branch { condition, .. } => add_one(condition, names),
        Op::Switch {
            selector,
            cases,
            ..
        } => add_switch(selector, cases.as_slice(), names),
        Op::Unreachable => Ok(()),
    }
}

fn add_one(operand: &TypedValue, names: &mut Vec<u32>) -> Result<(), OutOfMemory>
    ensures { OnOk result (names.new.items ≡ names.old.items ++ names_in (operand.now.value ∷ [])) }
{
    add_names(&operand.value, names)
}

fn add_two(first: &Value, second: &Value, names: &mut Vec<u32>) -> Result<(), OutOfMemory>
    ensures { OnOk result (names.new.items ≡ names.old.items ++ names_in (first.now ∷ second.now ∷ [])) }
{
    add_names(first, names)?;
    add_names(second, names)
}

fn add_three(
    first: &TypedValue,
    second: &TypedValue,
    third: &TypedValue,
    names: &mut Vec<u32>,
) -> Result<(), OutOfMemory>
    ensures { OnOk result (names.new.items ≡ names.old.items ++ names_in (first.now.value ∷ second.now.value ∷ third.now.value ∷ [])) }
{
    add_two(&first.value, &second.value, names)?;
    add_names(&third.value, names)
}

fn add_path(
    pointer: &TypedValue,
    indexes: &[TypedValue],
    names: &mut Vec<u32>,
) -> Result<(), OutOfMemory>
    ensures { OnOk result (names.new.items ≡ names.old.items ++ names_in (pointer.now.value ∷ bare indexes.now)) }
{
    add_names(&pointer.value, names)?;
    add_all_names(indexes, names)
}

fn add_switch(
    selector: &TypedValue,
    cases: &[SwitchCase],
    names: &mut Vec<u32>,
) -> Result<(), OutOfMemory>
    ensures { OnOk result (names.new.items ≡ names.old.items ++ names_in (selector.now.value ∷ bare_cases cases.now)) }
{
    add_names(&selector.value, names)?;
    add_cases(cases, names)
}

fn add_cases(cases: &[SwitchCase], names: &mut Vec<u32>) -> Result<(), OutOfMemory>
    ensures { OnOk result (names.new.items ≡ names.old.items ++ names_in (bare_cases cases.now)) }
{
    for case in cases {
        add_names(&case.value.value, names)?;
    }
    Ok(())
}

fn add_entry_names(entries: &[PhiEntry], names: &mut Vec<u32>) -> Result<(), OutOfMemory>
    ensures { OnOk result (names.new.items ≡ names.old.items ++ names_in (bare_entries entries.now)) }
{
    for entry in entries {
        add_names(&entry.value, names)?;
    }
    Ok(())
}

/// Adds what the entries of a phi take, and the block of each.
fn add_entries(
    entries: &[PhiEntry],
    values: &mut Vec<u32>,
    parents: &mut Vec<u32>,
) -> Result<(), OutOfMemory>
    ensures values { OnOk result (values.new.items ≡ values.old.items ++ map (λ p. p.0) (flat_map entry_takes entries.now)) }
    ensures parents { OnOk result (parents.new.items ≡ parents.old.items ++ map (λ p. p.1) (flat_map entry_takes entries.now)) }
{
    for entry in entries {
        add_entry(entry, values, parents)?;
    }
    Ok(())
}

fn add_entry(
    entry: &PhiEntry,
    values: &mut Vec<u32>,
    parents: &mut Vec<u32>,
) -> Result<(), OutOfMemory>
    ensures values { OnOk result (values.new.items ≡ values.old.items ++ map (λ p. p.0) (entry_takes entry.now)) }
    ensures parents { OnOk result (parents.new.items ≡ parents.old.items ++ map (λ p. p.1) (entry_takes entry.now)) }
{
    let before = values.len();
    add_names(&entry.value, values)?;
    add_copies(entry.block.number, values.len() - before, parents)
}

/// Adds the block so many times.
fn add_copies(block: u32, count: usize, parents: &mut Vec<u32>) -> Result<(), OutOfMemory>
    ensures { OnOk result (parents.new.items ≡ parents.old.items ++ replicate count block) }
{
    for _i in 0..count {
        parents.push(block)?;
    }
    Ok(())
}
