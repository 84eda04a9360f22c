ghost use Rattle.std.specs.Prelude.{◌≡◌, ◌+◌, length, IfOk};
ghost use Rattle.std.specs.Option.{option_map};
ghost use Rattle.rule_order.specs.Breaks.{first_refusal};
ghost use Rattle.spv_codec.specs.Instructions.{spellings};
ghost use Rattle.spv_names.specs.NameRules.{order_rules, id_rules, names_break, names_fault, fault_of};

use crate::definitions::Definitions;
use crate::functions::function_fault;
use crate::id_rules::{bound_fault, later_fault, twice_fault, unknown_fault};
use crate::role_rules::role_fault;
use crate::uses::all_uses;
use ports::{OutOfMemory, SpvFault};
use rule_order::{Break, FirstPlace, first_break};
use spv_codec::{RawInst, RawModule};
use spv_sections::section_fault;
use std::alloc::Global;

/// How many words a module's header has.
const HEADER_LEN: u64 = 5;

/// The fault of a decoded module in the order of its sections, rule 14, else the first one in its ids and functions, rules 20 to 25: that
/// at the least place, and of those there the one of the least number. `None` exactly where it breaks none of these rules (SPIR-V 1.2,
/// 2.4 and 2.16.1).
///
/// `OutOfMemory` comes for want of memory alone: also where there are more words than memory can have.
pub fn names_fault(alloc: Global, raw: &RawModule) -> Result<Option<SpvFault>, OutOfMemory>
    ensures { IfOk result (λ fault. fault ≡ names_fault raw.now) }
{
    let insts = raw.insts.as_slice();
    let words = word_count(insts)?;
    Ok(told_fault(told_break(alloc, insts, raw.bound, words)?))
}

/// The break that is told: that of section order where there is one.
fn told_break(
    alloc: Global,
    insts: &[RawInst],
    bound: u32,
    words: u64,
) -> Result<Option<Break>, OutOfMemory>
    ensures { IfOk result (λ told. told ≡ names_break insts.now bound words) }
{
    match order_break(insts, words) {
        Some(told) => Ok(Some(told)),
        None => id_break(alloc, insts, bound, words),
    }
}

/// How many words a module of these instructions has.
fn word_count(insts: &[RawInst]) -> Result<u64, OutOfMemory>
    ensures { IfOk result (λ count. count ≡ 5 + length (spellings insts.now)) }
{
    let mut count = HEADER_LEN;
    for inst in insts {
        count = count_behind(count, inst.operands.len())?;
    }
    Ok(count)
}

/// How many words there are behind an instruction with so many operands.
fn count_behind(count: u64, operands: usize) -> Result<u64, OutOfMemory>
    ensures { IfOk result (λ behind. behind ≡ count + (operands + 1)) }
{
    let Some(last) = count.checked_add(operands as u64) else {
        return Err(OutOfMemory);
    };
    match last.checked_add(1) {
        Some(behind) => Ok(behind),
        None => Err(OutOfMemory),
    }
}

/// The break of section order that is told.
fn order_break(insts: &[RawInst], words: u64) -> Option<Break>
    ensures { result ≡ first_refusal (order_rules insts.now words) }
{
    first_break(&[FirstPlace {
        rule: 14,
        place: section_fault(insts, words),
    }])
}

/// The break of the rules of ids and functions that is told.
fn id_break(
    alloc: Global,
    insts: &[RawInst],
    bound: u32,
    words: u64,
) -> Result<Option<Break>, OutOfMemory>
    ensures { IfOk result (λ told. told ≡ first_refusal (id_rules insts.now bound words)) }
{
    let definitions = Definitions::of(alloc, insts)?;
    let uses = all_uses(alloc, insts, &definitions)?;
    let role = role_fault(alloc, insts, &uses, &definitions)?;
    Ok(first_break(&[
        FirstPlace {
            rule: 20,
            place: bound_fault(insts, &uses, bound),
        },
        FirstPlace {
            rule: 21,
            place: twice_fault(insts, &definitions),
        },
        FirstPlace {
            rule: 22,
            place: unknown_fault(insts, &uses, &definitions),
        },
        FirstPlace {
            rule: 23,
            place: role,
        },
        FirstPlace {
            rule: 24,
            place: later_fault(insts, &uses, &definitions),
        },
        FirstPlace {
            rule: 25,
            place: function_fault(insts, words),
        },
    ]))
}

fn told_fault(told: Option<Break>) -> Option<SpvFault>
    ensures { result ≡ option_map fault_of told }
{
    match told {
        Some(told) => Some(SpvFault {
            rule: told.rule,
            word: told.place,
        }),
        None => None,
    }
}
