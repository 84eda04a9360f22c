ghost use Rattle.std.specs.Prelude.{◌≡◌, ℕ, nat_eq, take, slice_get, OnOk, IfOk, None, if◌then◌else◌, Some};
ghost use Rattle.std.specs.Option.{option_or, option_copied};
ghost use Rattle.std.specs.HashMap.{get};
ghost use Rattle.spv_codec.specs.Ids.{is_id, result_id};
ghost use Rattle.spv_names.specs.Definitions.{result_of, definition_of, entry_of, function_behind, home_of};

use ports::OutOfMemory;
use spv_codec::RawInst;
use spv_layout::{Opcode, OperandKind, form_of};
use std::alloc::Global;
use std::collections::HashMap;

/// Where an id is defined.
#[derive(Clone, Copy, Debug, PartialEq, Eq)]
pub struct Definition {
    /// How many instructions stand before the one that defines it.
    pub index: usize,
    /// How many stand before the OpFunction of the function that it belongs to, where it belongs to one.
    pub function: Option<usize>,
}

/// Where each id of a module is defined first.
#[derive(Drop)]
pub struct Definitions {
    pub first: HashMap<u32, Definition>,
}

impl Definitions {
    /// The definitions of a module's instructions.
    pub fn of(alloc: Global, insts: &[RawInst]) -> Result<Definitions, OutOfMemory>
        ensures { IfOk result (λ definitions. (id : ℕ) → get nat_eq definitions.first id ≡ entry_of insts.now id) }
    {
        let mut definitions = Definitions {
            first: HashMap::new(alloc),
        };
        let mut function = None;
        for (index, inst) in insts.iter().enumerate() {
            let definition = Definition {
                index,
                function: home_of(function, inst),
            };
            definitions.note(result_of(inst), definition)?;
            function = function_behind(index, function, inst);
        }
        Ok(definitions)
    }

    /// Notes where an id is defined, unless an earlier definition of it is known.
    fn note(&mut self, id: Option<u32>, definition: Definition) -> Result<(), OutOfMemory>
        ensures { OnOk result ((id2 : ℕ) → get nat_eq self.new.first id2 ≡ option_or (get nat_eq self.old.first id2)
            (if is_id id2 id then Some definition else None)) }
    {
        let Some(id) = id else {
            return Ok(());
        };
        if self.first.contains_key(&id) {
            return Ok(());
        }
        self.first.insert(id, definition)?;
        Ok(())
    }

    /// Where an id is defined first.
    pub fn entry(&self, id: u32) -> Option<Definition>
        ensures { result ≡ get nat_eq self.now.first id }
    {
        self.first.get(&id).copied()
    }

    /// The first instruction that defines an id, where it is one of the first `before` of these.
    pub fn find<'a>(&self, insts: &'a [RawInst], before: usize, id: u32) -> Option<&'a RawInst>
        requires { (id : ℕ) → get nat_eq self.now.first id ≡ entry_of insts.now id }
        ensures { option_copied result ≡ definition_of (take before insts.now) id }
    {
        let definition = self.entry(id)?;
        if definition.index < before {
            at(insts, definition.index)
        } else {
            None
        }
    }
}

/// The instruction at an index.
fn at(insts: &[RawInst], index: usize) -> Option<&RawInst>
    ensures { option_copied result ≡ slice_get insts.now index }
{
    insts.get(index)
}

/// The id of an instruction's result, where its form has one.
#[tactic(auto, unfolding(crate::specs::Definitions::result_of))]
pub fn result_of(inst: &RawInst) -> Option<u32>
    ensures { result ≡ result_of inst.now }
{
    match form_of(inst.op) {
        Some(form) => result_id(form.operands, inst.operands.as_slice()),
        None => None,
    }
}

fn result_id(kinds: &[OperandKind], words: &[u32]) -> Option<u32>
    ensures { result ≡ result_id kinds.now words.now }
{
    match kinds {
        [OperandKind::T, OperandKind::R, ..] => words.get(1).copied(),
        [OperandKind::R, ..] => words.first().copied(),
        _ => None,
    }
}

/// The function that the instruction behind this one belongs to, by the number of instructions before its OpFunction.
pub fn function_behind(index: usize, function: Option<usize>, inst: &RawInst) -> Option<usize>
    ensures { result ≡ function_behind index function inst.now }
{
    if inst.op == Opcode::Function.number() {
        Some(index)
    } else if inst.op == Opcode::FunctionEnd.number() {
        None
    } else {
        function
    }
}

/// The function that an instruction's result belongs to: a function itself belongs to none.
fn home_of(function: Option<usize>, inst: &RawInst) -> Option<usize>
    ensures { result ≡ home_of function inst.now }
{
    if inst.op == Opcode::Function.number() {
        None
    } else {
        function
    }
}
