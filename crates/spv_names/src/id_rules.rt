ghost use Rattle.std.specs.Prelude.{◌≡◌, ℕ, nat_eq, take};
ghost use Rattle.std.specs.HashMap.{get};
ghost use Rattle.std.specs.List.{list_any};
ghost use Rattle.rule_order.specs.Breaks.{least};
ghost use Rattle.spv_names.specs.Definitions.{entry_of};
ghost use Rattle.spv_names.specs.IdRules.{is_outside, is_result, is_defined, are_apart, is_elsewhere, is_defined_later, is_declarations, ordered_ids, bound_places, twice_places, unknown_places, later_places};
ghost use Rattle.spv_names.specs.Uses.{all_uses};

use crate::definitions::{Definition, Definitions, function_behind, result_of};
use spv_codec::RawInst;
use spv_layout::Opcode;
use spv_sections::{Section, begins_functions, rank_in, standing_of, told};
use sqlite_items::Items;

/// The least place of an instruction with an id that is 0 or not below the bound (SPIR-V 1.2, 2.3 "Bound"), where it uses these.
pub fn bound_fault(insts: &[RawInst], uses: &[Items<u32>], bound: u32) -> Option<u64>
    requires { uses.now ≡ all_uses insts.now }
    ensures { result ≡ least (bound_places insts.now bound) }
{
    let mut least = None;
    for (index, inst) in insts.iter().enumerate() {
        let outside = is_outside_result(bound, result_of(inst))
            | has_outside(bound, uses[index].as_slice());
        least = told(least, outside, inst.place);
    }
    least
}

/// Whether an id is 0 or not below the bound.
fn is_outside(bound: u32, id: u32) -> bool
    ensures { result ≡ is_outside bound id }
{
    (id == 0) | (bound <= id)
}

fn is_outside_result(bound: u32, id: Option<u32>) -> bool
    ensures { result ≡ is_result (is_outside bound) id }
{
    match id {
        Some(id) => is_outside(bound, id),
        None => false,
    }
}

fn has_outside(bound: u32, ids: &[u32]) -> bool
    ensures { result ≡ list_any (is_outside bound) ids.now }
{
    ids.iter().any(|id| is_outside(bound, *id))
}

/// The least place of an instruction with the result of an earlier one (SPIR-V 1.2, 2.16.1).
pub fn twice_fault(insts: &[RawInst], definitions: &Definitions) -> Option<u64>
    requires { (id : ℕ) → get nat_eq definitions.now.first id ≡ entry_of insts.now id }
    ensures { result ≡ least (twice_places insts.now) }
{
    let mut least = None;
    for (index, inst) in insts.iter().enumerate() {
        let again = is_defined_result(insts, definitions, index, result_of(inst));
        least = told(least, again, inst.place);
    }
    least
}

/// Whether an id is the result of one of the first `before` instructions.
fn is_defined(insts: &[RawInst], definitions: &Definitions, before: usize, id: u32) -> bool
    requires { (id : ℕ) → get nat_eq definitions.now.first id ≡ entry_of insts.now id }
    ensures { result ≡ is_defined (take before insts.now) id }
{
    definitions.find(insts, before, id).is_some()
}

fn is_defined_result(
    insts: &[RawInst],
    definitions: &Definitions,
    before: usize,
    id: Option<u32>,
) -> bool
    requires { (id : ℕ) → get nat_eq definitions.now.first id ≡ entry_of insts.now id }
    ensures { result ≡ is_result (is_defined (take before insts.now)) id }
{
    match id {
        Some(id) => is_defined(insts, definitions, before, id),
        None => false,
    }
}

/// The least place of an instruction that uses an id that is defined nowhere or in another function (SPIR-V 1.2, 2.4).
pub fn unknown_fault(
    insts: &[RawInst],
    uses: &[Items<u32>],
    definitions: &Definitions,
) -> Option<u64>
    requires used { uses.now ≡ all_uses insts.now }
    requires defined { (id : ℕ) → get nat_eq definitions.now.first id ≡ entry_of insts.now id }
    ensures { result ≡ least (unknown_places insts.now) }
{
    let mut least = None;
    let mut function = None;
    for (index, inst) in insts.iter().enumerate() {
        let unknown = has_elsewhere(insts, definitions, function, uses[index].as_slice());
        least = told(least, unknown, inst.place);
        function = function_behind(index, function, inst);
    }
    least
}

/// Whether two instructions belong to two functions.
fn are_apart(function: Option<usize>, other: Option<usize>) -> bool
    ensures { result ≡ are_apart function other }
{
    match (function, other) {
        (Some(function), Some(other)) => function != other,
        _ => false,
    }
}

fn is_elsewhere(function: Option<usize>, definition: Option<Definition>) -> bool
    ensures { result ≡ is_elsewhere function definition }
{
    match definition {
        Some(definition) => are_apart(function, definition.function),
        None => true,
    }
}

/// Whether one of these ids is defined nowhere or in another function than this one.
fn has_elsewhere(
    insts: &[RawInst],
    definitions: &Definitions,
    function: Option<usize>,
    ids: &[u32],
) -> bool
    requires { (id : ℕ) → get nat_eq definitions.now.first id ≡ entry_of insts.now id }
    ensures { result ≡ list_any (λ id. is_elsewhere function (entry_of insts.now id)) ids.now }
{
    for id in ids {
        if is_elsewhere(function, definitions.entry(*id)) {
            return true;
        }
    }
    false
}

/// The least place of an instruction that uses an id before its definition: of a declaration, or of an OpSwitch by its selector
/// (SPIR-V 1.2, 2.4).
pub fn later_fault(insts: &[RawInst], uses: &[Items<u32>], definitions: &Definitions) -> Option<u64>
    requires used { uses.now ≡ all_uses insts.now }
    requires defined { (id : ℕ) → get nat_eq definitions.now.first id ≡ entry_of insts.now id }
    ensures { result ≡ least (later_places insts.now) }
{
    let mut least = None;
    let mut begun = false;
    for (index, inst) in insts.iter().enumerate() {
        let section = rank_in(begun, standing_of(inst));
        let ordered = ordered_ids(section, inst.op, uses[index].as_slice());
        least = told(
            least,
            has_later(insts, definitions, index, ordered),
            inst.place,
        );
        begun |= begins_functions(inst);
    }
    least
}

/// Which of the ids that an instruction of a section uses have to be defined before it: all of a declaration's, and the selector of an
/// OpSwitch.
fn ordered_ids(section: Option<u8>, op: u16, uses: &[u32]) -> &[u32]
    ensures { result.now ≡ ordered_ids section op uses.now }
{
    if is_declarations(section) {
        uses
    } else if op == Opcode::Switch.number() {
        &uses[..uses.len().min(1)]
    } else {
        &[]
    }
}

fn is_declarations(section: Option<u8>) -> bool
    ensures { result ≡ is_declarations section }
{
    match section {
        Some(rank) => rank == Section::Declarations.rank(),
        None => false,
    }
}

/// Whether one of these ids is defined, but not by the first `before` instructions.
fn has_later(insts: &[RawInst], definitions: &Definitions, before: usize, ids: &[u32]) -> bool
    requires { (id : ℕ) → get nat_eq definitions.now.first id ≡ entry_of insts.now id }
    ensures { result ≡ list_any (is_defined_later insts.now (take before insts.now)) ids.now }
{
    for id in ids {
        if is_defined_later(insts, definitions, before, *id) {
            return true;
        }
    }
    false
}

fn is_defined_later(insts: &[RawInst], definitions: &Definitions, before: usize, id: u32) -> bool
    requires { (id : ℕ) → get nat_eq definitions.now.first id ≡ entry_of insts.now id }
    ensures { result ≡ is_defined_later insts.now (take before insts.now) id }
{
    is_defined(insts, definitions, insts.len(), id) & !is_defined(insts, definitions, before, id)
}
