ghost use Rattle.std.specs.Prelude.{◌≡◌, ◌+◌, ◌*◌, ℕ, nat_eq, IfOk, OnOk};
ghost use Rattle.std.specs.Option.{option_or};
ghost use Rattle.std.specs.HashMap.{get};
ghost use Rattle.spv_types.specs.Numbers.{numbered_by, numbered, at_id, constant_number};

use ports::OutOfMemory;
use spv_codec::RawInst;
use spv_layout::Opcode;
use std::alloc::Global;
use std::collections::HashMap;

/// The numbers that constants are, by their ids.
pub fn constant_numbers(alloc: Global, insts: &[RawInst]) -> Result<HashMap<u32, u64>, OutOfMemory>
    ensures { IfOk result (λ numbers. (id : ℕ) → get nat_eq numbers id ≡ constant_number insts.now id) }
{
    let mut numbers = HashMap::new(alloc);
    for inst in insts {
        note(&mut numbers, numbered(inst))?;
    }
    Ok(numbers)
}

/// Notes the number of an id, unless an earlier one of it is known.
fn note(numbers: &mut HashMap<u32, u64>, numbered: Option<(u32, u64)>) -> Result<(), OutOfMemory>
    ensures { OnOk result ((id2 : ℕ) → get nat_eq numbers.new id2 ≡ option_or (get nat_eq numbers.old id2) (at_id id2 numbered)) }
{
    let Some((id, number)) = numbered else {
        return Ok(());
    };
    if numbers.contains_key(&id) {
        return Ok(());
    }
    numbers.insert(id, number)?;
    Ok(())
}

/// The id of a constant and its number, where an instruction is one.
fn numbered(inst: &RawInst) -> Option<(u32, u64)>
    ensures { result ≡ numbered inst.now }
{
    if inst.op == Opcode::Constant.number() {
        numbered_by(inst.operands.as_slice())
    } else {
        None
    }
}

fn numbered_by(operands: &[u32]) -> Option<(u32, u64)>
    ensures { result ≡ numbered_by operands.now }
{
    match operands {
        [_, id, low] => Some((*id, u64::from(*low))),
        [_, id, low, high] => Some((*id, wide_number(*low, *high))),
        _ => None,
    }
}

/// The number of two words.
fn wide_number(low: u32, high: u32) -> u64
    ensures { result ≡ low + 4294967296 * high }
{
    u64::from(low) + 4_294_967_296 * u64::from(high)
}
