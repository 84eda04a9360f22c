ghost use Rattle.std.specs.Prelude.{◌≡◌, MatchOption, MatchResult};
ghost use Rattle.ll_tokens.specs.Tokens.{lexemes_of};
ghost use Rattle.ll_parser.specs.NameReading.{ReadsWith};
ghost use Rattle.ll_parser.specs.Reading.{EndsNowhere};
ghost use Rattle.ll_operands.specs.Parts.{Refuses};
ghost use Rattle.ll_memory_ops.specs.MemoryOpcodes.{memory_word};
ghost use Rattle.ll_memory_ops.specs.MemoryOperations.{behind, behind_opcode, memory_operation, memory_operation_part};

use crate::accesses::{read_load, read_store};
use crate::addresses::read_address;
use crate::allocations::read_allocation;
use crate::atomics::{read_exchange, read_fence, read_update};
use crate::opcodes::{MemoryOpcode, take_opcode};
use ll_parser::{NameTable, ReadError};
use ll_tokens::Token;
use ll_tree::Op;
use std::alloc::Global;

/// The instruction on memory with which the tokens begin, with all that belongs to it, and the tokens behind it (LLVM 14,
/// Memory Access and Addressing Operations). Names are numbered by the table. None exactly where the tokens begin with the word
/// of no such instruction; the table then stays as it is. It fails for want of memory, and at the first token that can't stand
/// where it does: by rule 4 where that is a number out of its range or a name of digits whose number is 2^31 or more, else by
/// rule 3.
pub fn read_memory_operation<'t, 'a>(
    alloc: Global,
    tokens: &'t [Token<'a>],
    names: &mut NameTable,
) -> Result<Option<(Op, &'t [Token<'a>])>, ReadError>
    ensures { MatchResult result
        (λ found. MatchOption found ((names.new ≡ names.old) × EndsNowhere memory_word (lexemes_of tokens.now))
        (λ r. ReadsWith memory_operation names.old names.new r.0 (lexemes_of tokens.now) (lexemes_of r.1.now)))
        (Refuses memory_operation_part (lexemes_of tokens.now)) }
{
    match take_opcode(tokens) {
        Some((opcode, behind)) => {
            let (operation, rest) = read_behind(alloc, opcode, behind, names)?;
            Ok(Some((operation, rest)))
        }
        None => Ok(None),
    }
}

/// The instruction behind whose word the tokens begin, and the tokens behind it.
fn read_behind<'t, 'a>(
    alloc: Global,
    opcode: MemoryOpcode,
    tokens: &'t [Token<'a>],
    names: &mut NameTable,
) -> Result<(Op, &'t [Token<'a>]), ReadError>
    ensures { MatchResult result
        (λ r. ReadsWith (behind opcode) names.old names.new r.0 (lexemes_of tokens.now) (lexemes_of r.1.now))
        (Refuses (behind_opcode opcode) (lexemes_of tokens.now)) }
{
    match opcode {
        MemoryOpcode::Alloca => read_allocation(alloc, tokens, names),
        MemoryOpcode::Load => read_load(alloc, tokens, names),
        MemoryOpcode::Store => read_store(alloc, tokens, names),
        MemoryOpcode::Fence => read_fence(alloc, tokens, names),
        MemoryOpcode::CompareExchange => read_exchange(alloc, tokens, names),
        MemoryOpcode::AtomicRmw => read_update(alloc, tokens, names),
        MemoryOpcode::GetElementPtr => read_address(alloc, tokens, names),
    }
}
