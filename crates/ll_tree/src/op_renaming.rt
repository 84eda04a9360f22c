ghost use Rattle.std.specs.Prelude.{◌≡◌, nat_eq, map};
ghost use Rattle.inst_walk.specs.Renaming.{renamed_name};
ghost use Rattle.ll_tree.specs.Names.{name_renamed};
ghost use Rattle.ll_tree.specs.Ops.{op_renamed, entry_renamed, case_renamed};
ghost use Rattle.ll_tree.specs.Values.{typed_renamed, value_renamed};

use crate::name::Name;
use crate::op::{Op, PhiEntry, SwitchCase};
use crate::parts::Parts;
use crate::renaming::{rename, rename_parts, rename_typed, rename_value};
use crate::value::{TypedValue, Value};
use inst_walk::Renaming;

/// Replaces each name of a value, a block or a function in the instruction.
pub(crate) fn rename_op(op: &mut Op, names: &Renaming<u32>)
    ensures { op.new ≡ op_renamed (renamed_name nat_eq names.now) op.old }
{
    match op {
        Op::Binary { left, right, .. } => rename_operands(left, right, names),
        Op::Compare { left, right, .. } => rename_operands(left, right, names),
        Op::Select {
            condition,
            accepted,
            rejected,
        } => rename_three(condition, accepted, rejected, names),
        Op::Cast { operand, .. } => rename_typed(operand, names),
        Op::Phi { entries, .. } => rename_entries(entries, names),
        Op::Alloca { .. } => {}
        Op::Load { pointer, .. } => rename_typed(pointer, names),
        Op::Store { value, pointer, .. } => rename_two(value, pointer, names),
        Op::AtomicLoad { pointer, .. } => rename_typed(pointer, names),
        Op::AtomicStore { value, pointer, .. } => rename_two(value, pointer, names),
        Op::CompareExchange {
            pointer,
            comparator,
            value,
            ..
        } => rename_three(pointer, comparator, value, names),
        Op::AtomicRmw { pointer, value, .. } => rename_two(pointer, value, names),
        Op::Fence { .. } => {}
        Op::GetElementPtr {
            pointer,
            indexes,
            ..
        } => rename_path(pointer, indexes, names),
        Op::ExtractElement { vector, index } => rename_two(vector, index, names),
        Op::InsertElement {
            vector,
            element,
            index,
        } => rename_three(vector, element, index, names),
        Op::ShuffleVector { left, right, mask } => rename_three(left, right, mask, names),
        Op::ExtractValue { aggregate, .. } => rename_typed(aggregate, names),
        Op::Call {
            callee,
            arguments,
            ..
        } => rename_call(callee, arguments, names),
        Op::ReturnVoid => {}
        Op::Return { value } => rename_typed(value, names),
        Op::Jump { target } => rename(target, names),
        Op::Branch {
            condition,
            accepted,
            rejected,
        } => rename_branch(condition, accepted, rejected, names),
        Op::Switch {
            selector,
            default,
            cases,
        } => rename_switch(selector, default, cases, names),
        Op::Unreachable => {}
    }
}

fn rename_operands(left: &mut Value, right: &mut Value, names: &Renaming<u32>)
    ensures left { left.new ≡ value_renamed (renamed_name nat_eq names.now) left.old }
    ensures right { right.new ≡ value_renamed (renamed_name nat_eq names.now) right.old }
{
    rename_value(left, names);
    rename_value(right, names);
}

fn rename_two(first: &mut TypedValue, second: &mut TypedValue, names: &Renaming<u32>)
    ensures first { first.new ≡ typed_renamed (renamed_name nat_eq names.now) first.old }
    ensures second { second.new ≡ typed_renamed (renamed_name nat_eq names.now) second.old }
{
    rename_typed(first, names);
    rename_typed(second, names);
}

fn rename_three(
    first: &mut TypedValue,
    second: &mut TypedValue,
    third: &mut TypedValue,
    names: &Renaming<u32>,
)
    ensures first { first.new ≡ typed_renamed (renamed_name nat_eq names.now) first.old }
    ensures second { second.new ≡ typed_renamed (renamed_name nat_eq names.now) second.old }
    ensures third { third.new ≡ typed_renamed (renamed_name nat_eq names.now) third.old }
{
    rename_two(first, second, names);
    rename_typed(third, names);
}

fn rename_path(pointer: &mut TypedValue, indexes: &mut Parts<TypedValue>, names: &Renaming<u32>)
    ensures pointer { pointer.new ≡ typed_renamed (renamed_name nat_eq names.now) pointer.old }
    ensures indexes { indexes.new ≡ map (typed_renamed (renamed_name nat_eq names.now)) indexes.old }
{
    rename_typed(pointer, names);
    rename_parts(indexes, names);
}

fn rename_call(callee: &mut Name, arguments: &mut Parts<TypedValue>, names: &Renaming<u32>)
    ensures callee { callee.new ≡ name_renamed (renamed_name nat_eq names.now) callee.old }
    ensures arguments { arguments.new ≡ map (typed_renamed (renamed_name nat_eq names.now)) arguments.old }
{
    rename(callee, names);
    rename_parts(arguments, names);
}

fn rename_branch(
    condition: &mut TypedValue,
    accepted: &mut Name,
    rejected: &mut Name,
    names: &Renaming<u32>,
)
    ensures condition { condition.new ≡ typed_renamed (renamed_name nat_eq names.now) condition.old }
    ensures accepted { accepted.new ≡ name_renamed (renamed_name nat_eq names.now) accepted.old }
    ensures rejected { rejected.new ≡ name_renamed (renamed_name nat_eq names.now) rejected.old }
{
    rename_typed(condition, names);
    rename(accepted, names);
    rename(rejected, names);
}

fn rename_switch(
    selector: &mut TypedValue,
    default: &mut Name,
    cases: &mut Parts<SwitchCase>,
    names: &Renaming<u32>,
)
    ensures selector { selector.new ≡ typed_renamed (renamed_name nat_eq names.now) selector.old }
    ensures default { default.new ≡ name_renamed (renamed_name nat_eq names.now) default.old }
    ensures cases { cases.new ≡ map (case_renamed (renamed_name nat_eq names.now)) cases.old }
{
    rename_typed(selector, names);
    rename(default, names);
    rename_cases(cases, names);
}

fn rename_entries(entries: &mut Parts<PhiEntry>, names: &Renaming<u32>)
    ensures { entries.new ≡ map (entry_renamed (renamed_name nat_eq names.now)) entries.old }
{
    rename_entries_of(entries.as_mut_slice(), names);
}

fn rename_entries_of(entries: &mut [PhiEntry], names: &Renaming<u32>)
    ensures { entries.new ≡ map (entry_renamed (renamed_name nat_eq names.now)) entries.old }
{
    for i in 0..entries.len() {
        rename_entry(&mut entries[i], names);
    }
}

fn rename_entry(entry: &mut PhiEntry, names: &Renaming<u32>)
    ensures { entry.new ≡ entry_renamed (renamed_name nat_eq names.now) entry.old }
{
    rename_value(&mut entry.value, names);
    rename(&mut entry.block, names);
}

fn rename_cases(cases: &mut Parts<SwitchCase>, names: &Renaming<u32>)
    ensures { cases.new ≡ map (case_renamed (renamed_name nat_eq names.now)) cases.old }
{
    rename_cases_of(cases.as_mut_slice(), names);
}

fn rename_cases_of(cases: &mut [SwitchCase], names: &Renaming<u32>)
    ensures { cases.new ≡ map (case_renamed (renamed_name nat_eq names.now)) cases.old }
{
    for i in 0..cases.len() {
        rename_case(&mut cases[i], names);
    }
}

fn rename_case(case: &mut SwitchCase, names: &Renaming<u32>)
    ensures { case.new ≡ case_renamed (renamed_name nat_eq names.now) case.old }
{
    rename_typed(&mut case.value, names);
    rename(&mut case.target, names);
}
