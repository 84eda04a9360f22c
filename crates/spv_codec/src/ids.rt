ghost use Rattle.std.specs.Prelude.{◌≡◌, ℕ, nat_eq, IfOk, OnOk, IsOk, None, if◌then◌else◌, Some};
ghost use Rattle.std.specs.Option.{option_or};
ghost use Rattle.std.specs.HashMap.{get};
ghost use Rattle.spv_codec.specs.Ids.{result_id, integer_of, value_of, id_kind, is_id, width_of, value_width, literal_width};

use ports::OutOfMemory;
use spv_layout::{Opcode, OperandKind};
use std::alloc::Global;
use std::collections::HashMap;

/// What an id is, as far as literal numbers ask.
#[derive(Clone, Copy, Debug, PartialEq, Eq, Hash)]
pub enum IdKind {
    /// An integer type of this width in bits.
    Integer(u32),
    /// A value of the type with this id.
    Value(u32),
    Other,
}

/// What the ids of the instructions so far are. The first definition of an id counts.
#[derive(Drop)]
pub struct Ids {
    pub kinds: HashMap<u32, IdKind>,
}

impl Ids {
    /// Ids that no instruction has defined.
    pub fn new(alloc: Global) -> Ids
        ensures { (id : ℕ) → get nat_eq result.kinds id ≡ None }
    {
        Ids {
            kinds: HashMap::new(alloc),
        }
    }

    /// Notes what an instruction defines.
    pub fn note(&mut self, op: u16, kinds: &[OperandKind], words: &[u32]) -> Result<(), OutOfMemory>
        ensures { OnOk result ((id : ℕ) → get nat_eq self.new.kinds id ≡ option_or (get nat_eq self.old.kinds id)
            (if is_id id (result_id kinds.now words.now) then Some (id_kind op kinds.now words.now) else None)) }
    {
        let Some(id) = result_id(kinds, words) else {
            return Ok(());
        };
        if self.kinds.contains_key(&id) {
            return Ok(());
        }
        self.kinds.insert(id, id_kind(op, kinds, words))?;
        Ok(())
    }

    /// The width of an instruction's literal numbers in bits, where their type is one of integers.
    pub fn literal_width(&self, op: u16, words: &[u32]) -> Option<u32>
        ensures { result ≡ literal_width (get nat_eq self.now.kinds) op words.now }
    {
        let first = words.first()?;
        if op == Opcode::Constant.number() {
            self.width(*first)
        } else if op == Opcode::Switch.number() {
            self.value_width(*first)
        } else {
            None
        }
    }

    /// The width of the integer type that an id is.
    fn width(&self, id: u32) -> Option<u32>
        ensures { result ≡ width_of (get nat_eq self.now.kinds id) }
    {
        match self.kinds.get(&id) {
            Some(IdKind::Integer(width)) => Some(*width),
            _ => None,
        }
    }

    /// The width of the integer type of the value that an id is.
    fn value_width(&self, id: u32) -> Option<u32>
        ensures { result ≡ value_width (get nat_eq self.now.kinds) (get nat_eq self.now.kinds id) }
    {
        match self.kinds.get(&id) {
            Some(IdKind::Value(value_type)) => self.width(*value_type),
            _ => None,
        }
    }
}

/// The id of an instruction's result, where its form has one.
fn result_id(kinds: &[OperandKind], words: &[u32]) -> Option<u32>
    ensures { result ≡ result_id kinds.now words.now }
{
    match kinds {
        [OperandKind::T, OperandKind::R, ..] => words.get(1).copied(),
        [OperandKind::R, ..] => words.first().copied(),
        _ => None,
    }
}

/// What the result of an instruction is.
fn id_kind(op: u16, kinds: &[OperandKind], words: &[u32]) -> IdKind
    ensures { result ≡ id_kind op kinds.now words.now }
{
    if op == Opcode::TypeInt.number() {
        integer_of(words)
    } else {
        value_of(kinds, words)
    }
}

fn integer_of(words: &[u32]) -> IdKind
    ensures { result ≡ integer_of words.now }
{
    match words {
        [_, width, ..] => IdKind::Integer(*width),
        _ => IdKind::Other,
    }
}

fn value_of(kinds: &[OperandKind], words: &[u32]) -> IdKind
    ensures { result ≡ value_of kinds.now words.now }
{
    match (kinds, words) {
        ([OperandKind::T, ..], [value_type, ..]) => IdKind::Value(*value_type),
        _ => IdKind::Other,
    }
}
