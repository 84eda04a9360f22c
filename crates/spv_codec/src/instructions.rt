ghost use Rattle.std.specs.Prelude.{◌≡◌, ◌<◌, ◌≤◌, ◌^◌, nat_eq, length, drop, [], ◌∷◌, MatchOption, IfOk, IfErr};
ghost use Rattle.std.specs.HashMap.{get};
ghost use Rattle.spv_codec.specs.Instructions.{spellings, first_rule, count_rule, AllFit, IsInstError, TellsRule, Splits, Reads, error_at};

use crate::ids::Ids;
use crate::module::RawInst;
use crate::operands::{OperandError, OperandFault, check_operands};
use ports::{OutOfMemory, SpvError, SpvFault};
use spv_layout::form_of;
use sqlite_items::Items;
use std::alloc::{AllocError, Global};

/// How many words a module's header has, which the instructions follow.
pub const HEADER_LEN: u64 = 5;

/// Why an instruction wasn't read.
#[derive(Clone, Copy, Debug, PartialEq, Eq, Hash)]
pub enum InstError {
    NoMemory,
    /// It breaks the rule of this number.
    Rule(u16),
}

impl From<OperandError> for InstError {
    ghost use Rattle.std.specs.Prelude.{◌≡◌};
    ghost use Rattle.spv_codec.specs.Instructions.{told_error};

    ghost from_gives = { λ error told. told ≡ told_error error };

    fn from(error: OperandError) -> InstError {
        match error {
            OperandError::NoMemory => InstError::NoMemory,
            OperandError::Fault(OperandFault::Misfit) => InstError::Rule(10),
            OperandError::Fault(OperandFault::Unknown) => InstError::Rule(11),
            OperandError::Fault(OperandFault::BadString) => InstError::Rule(12),
            OperandError::Fault(OperandFault::HighBits) => InstError::Rule(13),
        }
    }
}

impl From<OutOfMemory> for InstError {
    ghost use Rattle.std.specs.Prelude.{◌≡◌};
    ghost use Rattle.spv_codec.specs.declared.instructions.InstError.TheVariants.{NoMemory};

    ghost from_gives = { λ _ told. told ≡ NoMemory };

    fn from(_refused: OutOfMemory) -> InstError {
        InstError::NoMemory
    }
}

impl From<AllocError> for InstError {
    ghost use Rattle.std.specs.Prelude.{◌≡◌};
    ghost use Rattle.spv_codec.specs.declared.instructions.InstError.TheVariants.{NoMemory};

    ghost from_gives = { λ _ told. told ≡ NoMemory };

    fn from(_refused: AllocError) -> InstError {
        InstError::NoMemory
    }
}

impl InstError {
    /// The error of an instruction at this place.
    fn at(self, place: u64) -> SpvError
        ensures { result ≡ error_at self place }
    {
        match self {
            InstError::NoMemory => SpvError::NoMemory,
            InstError::Rule(rule) => SpvError::Fault(SpvFault { rule, word: place }),
        }
    }
}

/// Reads the instructions that words spell behind the header.
///
/// The fault is that of the first instruction that breaks a rule from S7 to S13.
pub fn read_instructions(alloc: Global, words: &[u32]) -> Result<Items<RawInst>, SpvError>
    requires { length words.now < 2 ^ 62 }
    ensures spelled { IfOk result (λ insts. words.now ≡ spellings insts) }
    ensures right { IfOk result (AllFit []) }
    ensures fault { IfErr result (IsInstError words.now) }
{
    let mut ids = Ids::new(alloc);
    let mut insts = Items::new(alloc);
    let mut rest = words;
    let mut place = HEADER_LEN;
    while let Some((first, behind)) = split_first(rest) {
        match read_instruction(alloc, &mut ids, first, behind, place) {
            Ok(inst) => {
                let len = inst.operands.len();
                rest = words_from(behind, len);
                place += len as u64 + 1;
                insts.push(inst)?;
            }
            Err(error) => return Err(error.at(place)),
        }
    }
    Ok(insts)
}

/// The first word and those behind it, where there are words.
fn split_first(words: &[u32]) -> Option<(u32, &[u32])>
    ensures { MatchOption result (words.now ≡ []) (λ split. words.now ≡ split.0 ∷ split.1.now) }
{
    match words {
        [first, behind @ ..] => Some((*first, behind)),
        [] => None,
    }
}

/// The words from an index on.
fn words_from(words: &[u32], index: usize) -> &[u32]
    requires { index ≤ length words.now }
    ensures { result.now ≡ drop index words.now }
{
    &words[index..]
}

/// Reads the instruction that begins with a word, where these follow up to the end, and notes what it defines.
fn read_instruction(
    alloc: Global,
    ids: &mut Ids,
    first: u32,
    behind: &[u32],
    place: u64,
) -> Result<RawInst, InstError>
    ensures inst { IfOk result (Reads (get nat_eq ids.old.kinds) (get nat_eq ids.new.kinds) first behind.now place) }
    ensures rule { IfErr result (TellsRule (first_rule (get nat_eq ids.old.kinds) first behind.now)) }
{
    let (op, operands) = split_instruction(first, behind)?;
    let Some(form) = form_of(op) else {
        return Err(InstError::Rule(9));
    };
    check_operands(
        alloc,
        form.operands,
        ids.literal_width(op, operands),
        operands,
    )?;
    ids.note(op, form.operands, operands)?;
    Ok(RawInst {
        op,
        place,
        operands: Items::from_slice(alloc, operands)?,
    })
}

/// The opcode and the operands of the instruction that begins with a word.
fn split_instruction(first: u32, behind: &[u32]) -> Result<(u16, &[u32]), InstError>
    ensures split { IfOk result (λ split. Splits first behind.now split.0 split.1.now) }
    ensures rule { IfErr result (TellsRule (count_rule first behind.now)) }
{
    let count = (first / 65536) as usize;
    if count == 0 {
        return Err(InstError::Rule(7));
    }
    if behind.len() + 1 < count {
        return Err(InstError::Rule(8));
    }
    Ok(((first % 65536) as u16, &behind[..count - 1]))
}
