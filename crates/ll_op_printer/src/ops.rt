ghost use Rattle.std.specs.Prelude.{◌≡◌, ◌++◌, ◌∷◌, [], OnOk, codes};
ghost use Rattle.ll_tree.specs.declared.op.Op.TheVariants as form;
ghost use Rattle.ll_printed.specs.OpPhrases.{op_phrase};
ghost use Rattle.ll_phrases.specs.Phrases.{written};

use crate::bytes::{push_bytes, push_number, push_str};
use crate::memory::{
    push_atomic_end, push_atomic_load, push_atomic_store, push_exchange_end, push_fence, push_load,
    push_path, push_rmw, push_store,
};
use crate::names::push_global;
use crate::operands::{
    push_align, push_cases, push_count_if, push_entries, push_flags, push_one_behind, push_pair,
    push_target, push_target_behind, push_three_behind, push_two_behind,
};
use crate::types::push_type;
use crate::values::push_values;
use crate::words::{binary_word, cast_word, predicate_word};
use kern_lanes::{BinOp, Pred};
use ll_tree::{
    AllocaCount, CastKind, Flag, LlType, Name, NameText, Op, PhiEntry, SwitchCase, TypedValue,
    Value,
};
use ports::OutOfMemory;

/// Writes what an instruction does (LLVM 14, Instruction Reference).
pub fn push_op(text: &mut Vec<u8>, names: &[NameText], op: &Op) -> Result<(), OutOfMemory>
    ensures { OnOk result (text.new.items ≡ text.old.items ++ written (op_phrase names.now op.now)) }
{
    match op {
        Op::Binary {
            op,
            flags,
            ty,
            left,
            right,
        } => push_binary(text, names, *op, flags.as_slice(), ty, left, right),
        Op::Compare {
            pred,
            ty,
            left,
            right,
        } => push_compare(text, names, *pred, ty, left, right),
        Op::Select {
            condition,
            accepted,
            rejected,
        } => push_three_behind(text, names, "select", condition, accepted, rejected),
        Op::Cast { kind, operand, to } => push_cast(text, names, *kind, operand, to),
        Op::Phi { ty, entries } => push_phi(text, names, ty, entries.as_slice()),
        Op::Alloca { ty, count, align } => push_alloca(text, names, ty, count, *align),
        Op::ExtractElement { vector, index } => push_extract_element(text, names, vector, index),
        Op::InsertElement {
            vector,
            element,
            index,
        } => push_three_behind(text, names, "insertelement", vector, element, index),
        Op::ShuffleVector { left, right, mask } => {
            push_three_behind(text, names, "shufflevector", left, right, mask)
        }
        Op::ExtractValue { aggregate, index } => {
            push_extract_value(text, names, aggregate, *index)
        }
        Op::Call {
            ty,
            callee,
            arguments,
        } => push_call(text, names, ty, *callee, arguments.as_slice()),
        Op::ReturnVoid => push_bytes(text, b"ret void"),
        Op::Return { value } => push_one_behind(text, names, "ret", value),
        Op::Jump { target } => push_jump(text, names, *target),
        Op::Branch {
            condition,
            accepted,
            rejected,
        } => push_branch(text, names, condition, *accepted, *rejected),
        Op::Switch {
            selector,
            default,
            cases,
        } => push_switch(text, names, selector, *default, cases.as_slice()),
        Op::Unreachable => push_bytes(text, b"unreachable"),
        Op::Load {
            volatile,
            ty,
            pointer,
            align,
        } => push_load(text, names, *volatile, ty, pointer, *align),
        Op::Store {
            volatile,
            value,
            pointer,
            align,
        } => push_store(text, names, *volatile, value, pointer, *align),
        Op::AtomicLoad {
            ty,
            pointer,
            scope,
            order,
            align,
        } => push_atomic_load(text, names, ty, pointer, scope, *order, *align),
        Op::AtomicStore {
            value,
            pointer,
            scope,
            order,
            align,
        } => push_atomic_store(text, names, value, pointer, scope, *order, *align),
        Op::CompareExchange {
            pointer,
            comparator,
            value,
            scope,
            equal,
            unequal,
            align,
        } => {
            push_three_behind(text, names, "cmpxchg", pointer, comparator, value)?;
            push_exchange_end(text, scope, *equal, *unequal, *align)
        }
        Op::AtomicRmw {
            op,
            pointer,
            value,
            scope,
            order,
            align,
        } => {
            push_rmw(text, names, *op, pointer, value)?;
            push_atomic_end(text, scope, *order, *align)
        }
        Op::Fence { scope, order } => push_fence(text, scope, *order),
        Op::GetElementPtr {
            inbounds,
            ty,
            pointer,
            indexes,
        } => push_path(text, names, *inbounds, ty, pointer, indexes.as_slice()),
    }
}

fn push_binary(
    text: &mut Vec<u8>,
    names: &[NameText],
    op: BinOp,
    flags: &[Flag],
    ty: &LlType,
    left: &Value,
    right: &Value,
) -> Result<(), OutOfMemory>
    ensures { OnOk result (text.new.items ≡ text.old.items ++ written (op_phrase names.now (form.Binary op flags.now ty.now left.now right.now))) }
{
    push_str(text, binary_word(op))?;
    push_flags(text, flags)?;
    push_bytes(text, b" ")?;
    push_pair(text, names, ty, left, right)
}

fn push_compare(
    text: &mut Vec<u8>,
    names: &[NameText],
    predicate: Pred,
    ty: &LlType,
    left: &Value,
    right: &Value,
) -> Result<(), OutOfMemory>
    ensures { OnOk result (text.new.items ≡ text.old.items ++ written (op_phrase names.now (form.Compare predicate ty.now left.now right.now))) }
{
    push_bytes(text, b"icmp ")?;
    push_str(text, predicate_word(predicate))?;
    push_bytes(text, b" ")?;
    push_pair(text, names, ty, left, right)
}

fn push_cast(
    text: &mut Vec<u8>,
    names: &[NameText],
    kind: CastKind,
    operand: &TypedValue,
    to: &LlType,
) -> Result<(), OutOfMemory>
    ensures { OnOk result (text.new.items ≡ text.old.items ++ written (op_phrase names.now (form.Cast kind operand.now to.now))) }
{
    push_one_behind(text, names, cast_word(kind), operand)?;
    push_bytes(text, b" to ")?;
    push_type(text, names, to)
}

fn push_phi(
    text: &mut Vec<u8>,
    names: &[NameText],
    ty: &LlType,
    entries: &[PhiEntry],
) -> Result<(), OutOfMemory>
    ensures { OnOk result (text.new.items ≡ text.old.items ++ written (op_phrase names.now (form.Phi ty.now entries.now))) }
{
    push_bytes(text, b"phi ")?;
    push_type(text, names, ty)?;
    push_bytes(text, b" ")?;
    push_entries(text, names, entries)
}

fn push_alloca(
    text: &mut Vec<u8>,
    names: &[NameText],
    ty: &LlType,
    count: &Option<AllocaCount>,
    align: Option<u64>,
) -> Result<(), OutOfMemory>
    ensures { OnOk result (text.new.items ≡ text.old.items ++ written (op_phrase names.now (form.Alloca ty.now count.now align))) }
{
    push_bytes(text, b"alloca ")?;
    push_type(text, names, ty)?;
    push_count_if(text, names, count)?;
    push_align(text, align)
}

fn push_extract_element(
    text: &mut Vec<u8>,
    names: &[NameText],
    vector: &TypedValue,
    index: &TypedValue,
) -> Result<(), OutOfMemory>
    ensures { OnOk result (text.new.items ≡ text.old.items ++ written (op_phrase names.now (form.ExtractElement vector.now index.now))) }
{
    push_two_behind(text, names, "extractelement", vector, index)
}

fn push_extract_value(
    text: &mut Vec<u8>,
    names: &[NameText],
    aggregate: &TypedValue,
    index: u64,
) -> Result<(), OutOfMemory>
    ensures { OnOk result (text.new.items ≡ text.old.items ++ written (op_phrase names.now (form.ExtractValue aggregate.now index))) }
{
    push_one_behind(text, names, "extractvalue", aggregate)?;
    push_bytes(text, b", ")?;
    push_number(text, index)
}

fn push_call(
    text: &mut Vec<u8>,
    names: &[NameText],
    ty: &LlType,
    callee: Name,
    arguments: &[TypedValue],
) -> Result<(), OutOfMemory>
    ensures { OnOk result (text.new.items ≡ text.old.items ++ written (op_phrase names.now (form.Call ty.now callee arguments.now))) }
{
    push_bytes(text, b"call spir_func ")?;
    push_type(text, names, ty)?;
    push_bytes(text, b" ")?;
    push_global(text, names, callee)?;
    push_bytes(text, b"(")?;
    push_values(text, names, arguments)?;
    push_bytes(text, b")")
}

fn push_jump(text: &mut Vec<u8>, names: &[NameText], target: Name) -> Result<(), OutOfMemory>
    ensures { OnOk result (text.new.items ≡ text.old.items ++ written (op_phrase names.now (form.Jump target))) }
{
    push_bytes(text, b"br ")?;
    push_target(text, names, target)
}

fn push_branch(
    text: &mut Vec<u8>,
    names: &[NameText],
    condition: &TypedValue,
    accepted: Name,
    rejected: Name,
) -> Result<(), OutOfMemory>
    ensures { OnOk result (text.new.items ≡ text.old.items ++ written (op_phrase names.now (form.Branch condition.now accepted rejected))) }
{
    push_one_behind(text, names, "br", condition)?;
    push_target_behind(text, names, accepted)?;
    push_target_behind(text, names, rejected)
}

fn push_switch(
    text: &mut Vec<u8>,
    names: &[NameText],
    selector: &TypedValue,
    default: Name,
    cases: &[SwitchCase],
) -> Result<(), OutOfMemory>
    ensures { OnOk result (text.new.items ≡ text.old.items ++ written (op_phrase names.now (form.Switch selector.now default cases.now))) }
{
    push_one_behind(text, names, "switch", selector)?;
    push_target_behind(text, names, default)?;
    push_cases(text, names, cases)
}
