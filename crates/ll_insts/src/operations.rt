ghost use Rattle.std.specs.Prelude.{MatchResult};
ghost use Rattle.ll_tokens.specs.Tokens.{lexemes_of};
ghost use Rattle.ll_parser.specs.NameReading.{ReadsWith};
ghost use Rattle.ll_operands.specs.Parts.{Refuses};
ghost use Rattle.ll_insts.specs.Operations.{operation_part, whole_operation};

use ll_calls::read_call;
use ll_flow_ops::read_flow_operation;
use ll_memory_ops::read_memory_operation;
use ll_parser::{NameTable, ReadError, unexpected};
use ll_tokens::Token;
use ll_tree::Op;
use ll_value_ops::read_value_operation;
use std::alloc::Global;

/// What the instruction does with whose word the tokens begin, with all that belongs to it, and the tokens behind it (LLVM 14,
/// Instruction Reference). Names are numbered by the table. It fails for want of memory, and at the first token that can't stand
/// where it does: by rule 4 where that is a number out of its range, or a name or a group of attributes of such digits, else by
/// rule 3.
pub fn read_operation<'t, 'a>(
    alloc: Global,
    tokens: &'t [Token<'a>],
    names: &mut NameTable,
) -> Result<(Op, &'t [Token<'a>]), ReadError>
    ensures { MatchResult result
        (λ r. ReadsWith whole_operation names.old names.new r.0 (lexemes_of tokens.now) (lexemes_of r.1.now))
        (Refuses operation_part (lexemes_of tokens.now)) }
{
    if let Some((op, rest)) = read_value_operation(alloc, tokens, names)? {
        return Ok((op, rest));
    }
    if let Some((op, rest)) = read_flow_operation(alloc, tokens, names)? {
        return Ok((op, rest));
    }
    if let Some((op, rest)) = read_memory_operation(alloc, tokens, names)? {
        return Ok((op, rest));
    }
    if let Some((op, rest)) = read_call(alloc, tokens, names)? {
        return Ok((op, rest));
    }
    Err(ReadError::Refused(unexpected(tokens)))
}
