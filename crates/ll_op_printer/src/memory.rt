ghost use Rattle.std.specs.Prelude.{◌≡◌, ◌++◌, ◌∷◌, [], OnOk, codes};
ghost use Rattle.ll_tree.specs.declared.op.Op.TheVariants as form;
ghost use Rattle.ll_parser.specs.GrammarInsts.{rmw_word};
ghost use Rattle.ll_printed.specs.OpPhrases.{align_phrase, atomic_phrase, op_phrase, order_phrase, two_phrase};
ghost use Rattle.ll_phrases.specs.Phrases.{if_some, written};

use crate::bytes::{push_bytes, push_str};
use crate::operands::{
    push_align, push_alignment, push_atomic, push_order, push_pointed, push_two, push_two_behind,
};
use crate::values::{push_marked, push_values_behind};
use crate::words::rmw_word;
use kern_lanes::RmwOp;
use ll_tree::{LlType, NameText, Order, TypedValue};
use ports::OutOfMemory;
use sqlite_items::Items;

/// Writes a load (LLVM 14, `load`).
pub fn push_load(
    text: &mut Vec<u8>,
    names: &[NameText],
    volatile: bool,
    ty: &LlType,
    pointer: &TypedValue,
    align: Option<u64>,
) -> Result<(), OutOfMemory>
    ensures { OnOk result (text.new.items ≡ text.old.items ++ written (op_phrase names.now (form.Load volatile ty.now pointer.now align))) }
{
    push_marked(text, "load", "volatile", volatile)?;
    push_bytes(text, b" ")?;
    push_pointed(text, names, ty, pointer)?;
    push_align(text, align)
}

/// Writes a store (LLVM 14, `store`).
pub fn push_store(
    text: &mut Vec<u8>,
    names: &[NameText],
    volatile: bool,
    value: &TypedValue,
    pointer: &TypedValue,
    align: Option<u64>,
) -> Result<(), OutOfMemory>
    ensures { OnOk result (text.new.items ≡ text.old.items ++ written (op_phrase names.now (form.Store volatile value.now pointer.now align))) }
{
    push_marked(text, "store", "volatile", volatile)?;
    push_bytes(text, b" ")?;
    push_two(text, names, value, pointer)?;
    push_align(text, align)
}

/// Writes an atomic load.
pub fn push_atomic_load(
    text: &mut Vec<u8>,
    names: &[NameText],
    ty: &LlType,
    pointer: &TypedValue,
    scope: &Option<Items<u8>>,
    order: Order,
    align: u64,
) -> Result<(), OutOfMemory>
    ensures { OnOk result (text.new.items ≡ text.old.items ++ written (op_phrase names.now (form.AtomicLoad ty.now pointer.now scope.now order align))) }
{
    push_bytes(text, b"load atomic ")?;
    push_pointed(text, names, ty, pointer)?;
    push_atomic(text, scope, order)?;
    push_alignment(text, align)
}

/// Writes an atomic store.
pub fn push_atomic_store(
    text: &mut Vec<u8>,
    names: &[NameText],
    value: &TypedValue,
    pointer: &TypedValue,
    scope: &Option<Items<u8>>,
    order: Order,
    align: u64,
) -> Result<(), OutOfMemory>
    ensures { OnOk result (text.new.items ≡ text.old.items ++ written (op_phrase names.now (form.AtomicStore value.now pointer.now scope.now order align))) }
{
    push_two_behind(text, names, "store atomic", value, pointer)?;
    push_atomic(text, scope, order)?;
    push_alignment(text, align)
}

/// Writes what stands behind the operands of a `cmpxchg`.
pub fn push_exchange_end(
    text: &mut Vec<u8>,
    scope: &Option<Items<u8>>,
    equal: Order,
    unequal: Order,
    align: Option<u64>,
) -> Result<(), OutOfMemory>
    ensures { OnOk result (text.new.items ≡ text.old.items ++ (written (atomic_phrase scope.now equal) ++ (written (order_phrase unequal) ++ written (if_some align_phrase align)))) }
{
    push_atomic(text, scope, equal)?;
    push_order(text, unequal)?;
    push_align(text, align)
}

/// Writes an `atomicrmw` up to its operands.
pub fn push_rmw(
    text: &mut Vec<u8>,
    names: &[NameText],
    op: RmwOp,
    pointer: &TypedValue,
    value: &TypedValue,
) -> Result<(), OutOfMemory>
    ensures { OnOk result (text.new.items ≡ text.old.items ++ (codes "atomicrmw " ++ (rmw_word op ++ (32 ∷ written (two_phrase names.now pointer.now value.now))))) }
{
    push_bytes(text, b"atomicrmw ")?;
    push_two_behind(text, names, rmw_word(op), pointer, value)
}

/// Writes what stands behind the operands of an `atomicrmw`.
pub fn push_atomic_end(
    text: &mut Vec<u8>,
    scope: &Option<Items<u8>>,
    order: Order,
    align: Option<u64>,
) -> Result<(), OutOfMemory>
    ensures { OnOk result (text.new.items ≡ text.old.items ++ (written (atomic_phrase scope.now order) ++ written (if_some align_phrase align))) }
{
    push_atomic(text, scope, order)?;
    push_align(text, align)
}

/// Writes a fence (LLVM 14, `fence`).
pub fn push_fence(
    text: &mut Vec<u8>,
    scope: &Option<Items<u8>>,
    order: Order,
) -> Result<(), OutOfMemory>
    ensures { OnOk result (text.new.items ≡ text.old.items ++ (codes "fence" ++ written (atomic_phrase scope.now order))) }
{
    push_bytes(text, b"fence")?;
    push_atomic(text, scope, order)
}

/// Writes the steps to a part of what a pointer points at (LLVM 14, `getelementptr`).
pub fn push_path(
    text: &mut Vec<u8>,
    names: &[NameText],
    inbounds: bool,
    ty: &LlType,
    pointer: &TypedValue,
    indexes: &[TypedValue],
) -> Result<(), OutOfMemory>
    ensures { OnOk result (text.new.items ≡ text.old.items ++ written (op_phrase names.now (form.GetElementPtr inbounds ty.now pointer.now indexes.now))) }
{
    push_marked(text, "getelementptr", "inbounds", inbounds)?;
    push_bytes(text, b" ")?;
    push_pointed(text, names, ty, pointer)?;
    push_values_behind(text, names, indexes)
}
