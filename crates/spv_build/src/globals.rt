ghost use Rattle.std.specs.Prelude.{◌≡◌, IfOk};
ghost use Rattle.spv_build.specs.Items.{number_by, value_by, constant_by};

use crate::items::FromInst;
use ports::OutOfMemory;
use spv_codec::RawInst;
use spv_layout::Opcode;
use spv_module::{Constant, ConstantValue, Param, Variable};
use spv_types::class_of;
use sqlite_items::Items;
use std::alloc::Global;

impl FromInst for Constant {
    ghost use Rattle.spv_build.specs.Items.{constant_of};

    ghost said = { constant_of };

    fn read(alloc: Global, inst: &RawInst) -> Result<Option<Constant>, OutOfMemory> {
        let operands = inst.operands.as_slice();
        constant_by(alloc, Opcode::from_number(inst.op), inst.place, operands)
    }
}

fn constant_by(
    alloc: Global,
    opcode: Option<Opcode>,
    place: u64,
    operands: &[u32],
) -> Result<Option<Constant>, OutOfMemory>
    ensures { IfOk result (λ constant. constant ≡ constant_by opcode place operands.now) }
{
    let [ty, id, words @ ..] = operands else {
        return Ok(None);
    };
    match value_by(alloc, opcode, words)? {
        Some(value) => Ok(Some(Constant {
            id: *id,
            ty: *ty,
            value,
            place,
        })),
        None => Ok(None),
    }
}

/// What a constant is, by the words behind its type and its id.
fn value_by(
    alloc: Global,
    opcode: Option<Opcode>,
    words: &[u32],
) -> Result<Option<ConstantValue>, OutOfMemory>
    ensures { IfOk result (λ value. value ≡ value_by opcode words.now) }
{
    match opcode {
        Some(Opcode::ConstantTrue) => Ok(Some(ConstantValue::True)),
        Some(Opcode::ConstantFalse) => Ok(Some(ConstantValue::False)),
        Some(Opcode::Constant) => Ok(number_by(words)),
        Some(Opcode::ConstantComposite) => Ok(Some(ConstantValue::Composite(Items::from_slice(
            alloc, words,
        )?))),
        Some(Opcode::ConstantNull) => Ok(Some(ConstantValue::Null)),
        _ => Ok(None),
    }
}

/// The number of one word or two, the lower one first.
fn number_by(words: &[u32]) -> Option<ConstantValue>
    ensures { result ≡ number_by words.now }
{
    match words {
        [low] => Some(ConstantValue::Number {
            low: *low,
            high: None,
        }),
        [low, high, ..] => Some(ConstantValue::Number {
            low: *low,
            high: Some(*high),
        }),
        [] => None,
    }
}

impl FromInst for Variable {
    ghost use Rattle.spv_build.specs.Items.{variable_of};

    ghost said = { variable_of };

    fn read(_alloc: Global, inst: &RawInst) -> Result<Option<Variable>, OutOfMemory> {
        if inst.op != Opcode::Variable.number() {
            return Ok(None);
        }
        let [ty, id, class, words @ ..] = inst.operands.as_slice() else {
            return Ok(None);
        };
        match class_of(*class) {
            Some(class) => Ok(Some(Variable {
                id: *id,
                ty: *ty,
                class,
                initializer: words.first().copied(),
                place: inst.place,
            })),
            None => Ok(None),
        }
    }
}

impl FromInst for Param {
    ghost use Rattle.spv_build.specs.Items.{param_of};

    ghost said = { param_of };

    fn read(_alloc: Global, inst: &RawInst) -> Result<Option<Param>, OutOfMemory> {
        if inst.op != Opcode::FunctionParameter.number() {
            return Ok(None);
        }
        match inst.operands.as_slice() {
            [ty, id, ..] => Ok(Some(Param {
                id: *id,
                ty: *ty,
                place: inst.place,
            })),
            _ => Ok(None),
        }
    }
}
