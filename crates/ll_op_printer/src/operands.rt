ghost use Rattle.std.specs.Prelude.{◌≡◌, ◌++◌, ◌∷◌, [], OnOk, codes};
ghost use Rattle.ll_printed.specs.OpPhrases.{align_phrase, atomic_phrase, case_phrase, count_phrase, entry_phrase, flag_phrase, order_phrase, pair_phrase, scope_phrase, target_phrase, three_phrase, two_phrase};
ghost use Rattle.ll_phrases.specs.Phrases.{each_phrase, if_some, list_phrase, written};
ghost use Rattle.ll_phrases.specs.TypePhrases.{type_phrase};
ghost use Rattle.ll_phrases.specs.ValuePhrases.{typed_phrase};

use crate::bytes::{push_bytes, push_number, push_quoted, push_separator, push_signed, push_str};
use crate::names::push_local;
use crate::types::push_type;
use crate::values::{push_typed, push_value};
use crate::words::{flag_word, order_word};
use ll_tree::{
    AllocaCount, Flag, LlType, Name, NameText, Order, PhiEntry, SwitchCase, TypedValue, Value,
};
use ports::OutOfMemory;
use sqlite_items::Items;

/// Writes two operands with their types.
pub fn push_two(
    text: &mut Vec<u8>,
    names: &[NameText],
    first: &TypedValue,
    second: &TypedValue,
) -> Result<(), OutOfMemory>
    ensures { OnOk result (text.new.items ≡ text.old.items ++ written (two_phrase names.now first.now second.now)) }
{
    push_typed(text, names, first)?;
    push_bytes(text, b", ")?;
    push_typed(text, names, second)
}

/// Writes three operands with their types.
fn push_three(
    text: &mut Vec<u8>,
    names: &[NameText],
    first: &TypedValue,
    second: &TypedValue,
    third: &TypedValue,
) -> Result<(), OutOfMemory>
    ensures { OnOk result (text.new.items ≡ text.old.items ++ written (three_phrase names.now first.now second.now third.now)) }
{
    push_two(text, names, first, second)?;
    push_bytes(text, b", ")?;
    push_typed(text, names, third)
}

/// Writes a word and an operand.
pub fn push_one_behind(
    text: &mut Vec<u8>,
    names: &[NameText],
    word: &str,
    operand: &TypedValue,
) -> Result<(), OutOfMemory>
    ensures { OnOk result (text.new.items ≡ text.old.items ++ (word.now ++ (32 ∷ written (typed_phrase names.now operand.now)))) }
{
    push_str(text, word)?;
    push_bytes(text, b" ")?;
    push_typed(text, names, operand)
}

/// Writes a word and two operands.
pub fn push_two_behind(
    text: &mut Vec<u8>,
    names: &[NameText],
    word: &str,
    first: &TypedValue,
    second: &TypedValue,
) -> Result<(), OutOfMemory>
    ensures { OnOk result (text.new.items ≡ text.old.items ++ (word.now ++ (32 ∷ written (two_phrase names.now first.now second.now)))) }
{
    push_str(text, word)?;
    push_bytes(text, b" ")?;
    push_two(text, names, first, second)
}

/// Writes a word and three operands.
pub fn push_three_behind(
    text: &mut Vec<u8>,
    names: &[NameText],
    word: &str,
    first: &TypedValue,
    second: &TypedValue,
    third: &TypedValue,
) -> Result<(), OutOfMemory>
    ensures { OnOk result (text.new.items ≡ text.old.items ++ (word.now ++ (32 ∷ written (three_phrase names.now first.now second.now third.now)))) }
{
    push_str(text, word)?;
    push_bytes(text, b" ")?;
    push_three(text, names, first, second, third)
}

/// Writes two operands of one type.
pub fn push_pair(
    text: &mut Vec<u8>,
    names: &[NameText],
    ty: &LlType,
    left: &Value,
    right: &Value,
) -> Result<(), OutOfMemory>
    ensures { OnOk result (text.new.items ≡ text.old.items ++ written (pair_phrase names.now ty.now left.now right.now)) }
{
    push_type(text, names, ty)?;
    push_bytes(text, b" ")?;
    push_value(text, names, left)?;
    push_bytes(text, b", ")?;
    push_value(text, names, right)
}

/// Writes the type of what is read or stepped through, and a pointer to it.
pub fn push_pointed(
    text: &mut Vec<u8>,
    names: &[NameText],
    ty: &LlType,
    pointer: &TypedValue,
) -> Result<(), OutOfMemory>
    ensures { OnOk result (text.new.items ≡ text.old.items ++ (written (type_phrase names.now ty.now) ++ (44 ∷ 32 ∷ written (typed_phrase names.now pointer.now)))) }
{
    push_type(text, names, ty)?;
    push_bytes(text, b", ")?;
    push_typed(text, names, pointer)
}

/// Writes the flags, each behind a blank.
pub fn push_flags(text: &mut Vec<u8>, flags: &[Flag]) -> Result<(), OutOfMemory>
    ensures { OnOk result (text.new.items ≡ text.old.items ++ written (each_phrase flag_phrase flags.now)) }
{
    for flag in flags {
        push_flag(text, *flag)?;
    }
    Ok(())
}

fn push_flag(text: &mut Vec<u8>, flag: Flag) -> Result<(), OutOfMemory>
    ensures { OnOk result (text.new.items ≡ text.old.items ++ written (flag_phrase flag)) }
{
    push_bytes(text, b" ")?;
    push_str(text, flag_word(flag.word))
}

/// Writes the alignment behind a comma.
pub fn push_alignment(text: &mut Vec<u8>, bytes: u64) -> Result<(), OutOfMemory>
    ensures { OnOk result (text.new.items ≡ text.old.items ++ written (align_phrase bytes)) }
{
    push_bytes(text, b", align ")?;
    push_number(text, bytes)
}

/// Writes the alignment behind a comma, where there is one.
pub fn push_align(text: &mut Vec<u8>, align: Option<u64>) -> Result<(), OutOfMemory>
    ensures { OnOk result (text.new.items ≡ text.old.items ++ written (if_some align_phrase align)) }
{
    match align {
        Some(bytes) => push_alignment(text, bytes),
        None => Ok(()),
    }
}

/// Writes the scope, where there is one, and the order (LLVM 14, Atomic Memory Ordering Constraints).
pub fn push_atomic(
    text: &mut Vec<u8>,
    scope: &Option<Items<u8>>,
    order: Order,
) -> Result<(), OutOfMemory>
    ensures { OnOk result (text.new.items ≡ text.old.items ++ written (atomic_phrase scope.now order)) }
{
    push_scope_if(text, scope)?;
    push_order(text, order)
}

fn push_scope_if(text: &mut Vec<u8>, scope: &Option<Items<u8>>) -> Result<(), OutOfMemory>
    ensures { OnOk result (text.new.items ≡ text.old.items ++ written (if_some scope_phrase scope.now)) }
{
    match scope {
        Some(scope) => push_scope(text, scope.as_slice()),
        None => Ok(()),
    }
}

fn push_scope(text: &mut Vec<u8>, scope: &[u8]) -> Result<(), OutOfMemory>
    ensures { OnOk result (text.new.items ≡ text.old.items ++ written (scope_phrase scope.now)) }
{
    push_bytes(text, b" syncscope(")?;
    push_quoted(text, scope)?;
    push_bytes(text, b")")
}

/// Writes the order behind a blank.
pub fn push_order(text: &mut Vec<u8>, order: Order) -> Result<(), OutOfMemory>
    ensures { OnOk result (text.new.items ≡ text.old.items ++ written (order_phrase order)) }
{
    push_bytes(text, b" ")?;
    push_str(text, order_word(order))
}

/// Writes a block that control goes to.
pub fn push_target(text: &mut Vec<u8>, names: &[NameText], target: Name) -> Result<(), OutOfMemory>
    ensures { OnOk result (text.new.items ≡ text.old.items ++ written (target_phrase names.now target)) }
{
    push_bytes(text, b"label ")?;
    push_local(text, names, target)
}

/// Writes a block that control goes to, behind a comma.
pub fn push_target_behind(
    text: &mut Vec<u8>,
    names: &[NameText],
    target: Name,
) -> Result<(), OutOfMemory>
    ensures { OnOk result (text.new.items ≡ text.old.items ++ 44 ∷ 32 ∷ written (target_phrase names.now target)) }
{
    push_bytes(text, b", ")?;
    push_target(text, names, target)
}

/// Writes the entries of a phi with commas between them.
pub fn push_entries(
    text: &mut Vec<u8>,
    names: &[NameText],
    entries: &[PhiEntry],
) -> Result<(), OutOfMemory>
    ensures { OnOk result (text.new.items ≡ text.old.items ++ written (list_phrase (entry_phrase names.now) entries.now)) }
{
    for i in 0..entries.len() {
        push_separator(text, i)?;
        push_entry(text, names, &entries[i])?;
    }
    Ok(())
}

fn push_entry(text: &mut Vec<u8>, names: &[NameText], entry: &PhiEntry) -> Result<(), OutOfMemory>
    ensures { OnOk result (text.new.items ≡ text.old.items ++ written (entry_phrase names.now entry.now)) }
{
    push_bytes(text, b"[ ")?;
    push_value(text, names, &entry.value)?;
    push_bytes(text, b", ")?;
    push_local(text, names, entry.block)?;
    push_bytes(text, b" ]")
}

/// Writes how many values an `alloca` makes room for, where that is written.
pub fn push_count_if(
    text: &mut Vec<u8>,
    names: &[NameText],
    count: &Option<AllocaCount>,
) -> Result<(), OutOfMemory>
    ensures { OnOk result (text.new.items ≡ text.old.items ++ written (if_some (count_phrase names.now) count.now)) }
{
    match count {
        Some(count) => push_count(text, names, count),
        None => Ok(()),
    }
}

fn push_count(
    text: &mut Vec<u8>,
    names: &[NameText],
    count: &AllocaCount,
) -> Result<(), OutOfMemory>
    ensures { OnOk result (text.new.items ≡ text.old.items ++ written (count_phrase names.now count.now)) }
{
    push_bytes(text, b", ")?;
    push_type(text, names, &count.ty)?;
    push_bytes(text, b" ")?;
    push_signed(text, count.number)
}

/// Writes the cases of a switch between brackets.
pub fn push_cases(
    text: &mut Vec<u8>,
    names: &[NameText],
    cases: &[SwitchCase],
) -> Result<(), OutOfMemory>
    ensures { OnOk result (text.new.items ≡ text.old.items ++ 32 ∷ 91 ∷ (written (each_phrase (case_phrase names.now) cases.now) ++ 32 ∷ 93 ∷ [])) }
{
    push_bytes(text, b" [")?;
    push_each_case(text, names, cases)?;
    push_bytes(text, b" ]")
}

fn push_each_case(
    text: &mut Vec<u8>,
    names: &[NameText],
    cases: &[SwitchCase],
) -> Result<(), OutOfMemory>
    ensures { OnOk result (text.new.items ≡ text.old.items ++ written (each_phrase (case_phrase names.now) cases.now)) }
{
    for i in 0..cases.len() {
        push_case(text, names, &cases[i])?;
    }
    Ok(())
}

fn push_case(text: &mut Vec<u8>, names: &[NameText], case: &SwitchCase) -> Result<(), OutOfMemory>
    ensures { OnOk result (text.new.items ≡ text.old.items ++ written (case_phrase names.now case.now)) }
{
    push_bytes(text, b" ")?;
    push_typed(text, names, &case.value)?;
    push_target_behind(text, names, case.target)
}
