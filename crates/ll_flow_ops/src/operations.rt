ghost use Rattle.std.specs.Prelude.{◌≡◌, MatchOption, MatchResult};
ghost use Rattle.ll_tokens.specs.Tokens.{lexemes_of};
ghost use Rattle.ll_tree.specs.declared.op.Op.TheVariants as op;
ghost use Rattle.ll_parser.specs.NameReading.{ReadsWith};
ghost use Rattle.ll_parser.specs.Reading.{EndsNowhere};
ghost use Rattle.ll_operands.specs.Operands.{label_part};
ghost use Rattle.ll_operands.specs.Parts.{Refuses, mark_part, ◌then◌};
ghost use Rattle.ll_flow_ops.specs.declared.opcodes.FlowOpcode.TheVariants as opcode;
ghost use Rattle.ll_flow_ops.specs.FlowOpcodes.{flow_word};
ghost use Rattle.ll_flow_ops.specs.FlowOperations.{behind, behind_opcode, flow_operation, flow_operation_part};
ghost use Rattle.ll_flow_ops.specs.FlowParts.{branch_part, return_part, target_part};

use crate::opcodes::{FlowOpcode, take_opcode};
use crate::phis::read_phi;
use crate::switches::read_switch;
use crate::targets::{Target, read_target};
use ll_operands::read_label;
use ll_parser::{NameTable, ReadError, take_mark, take_word};
use ll_tokens::Token;
use ll_tree::{Name, Op};
use ll_types::read_typed;
use std::alloc::Global;

/// The instruction of control flow with which the tokens begin, with all that belongs to it, and the tokens behind it (LLVM 14,
/// Terminator Instructions and `phi`). Names are numbered by the table. None exactly where the tokens begin with the word of no
/// such instruction; the table then stays as it is. It fails for want of memory, and at the first token that can't stand where
/// it does: by rule 4 where that is a number out of its range or a name of digits whose number is 2^31 or more, else by rule 3.
pub fn read_flow_operation<'t, 'a>(
    alloc: Global,
    tokens: &'t [Token<'a>],
    names: &mut NameTable,
) -> Result<Option<(Op, &'t [Token<'a>])>, ReadError>
    ensures { MatchResult result
        (λ found. MatchOption found ((names.new ≡ names.old) × EndsNowhere flow_word (lexemes_of tokens.now))
        (λ r. ReadsWith flow_operation names.old names.new r.0 (lexemes_of tokens.now) (lexemes_of r.1.now)))
        (Refuses flow_operation_part (lexemes_of tokens.now)) }
{
    match take_opcode(tokens) {
        Some((opcode, behind)) => {
            let (operation, rest) = read_behind(alloc, opcode, behind, names)?;
            Ok(Some((operation, rest)))
        }
        None => Ok(None),
    }
}

/// The instruction behind whose word the tokens begin, and the tokens behind it.
fn read_behind<'t, 'a>(
    alloc: Global,
    opcode: FlowOpcode,
    tokens: &'t [Token<'a>],
    names: &mut NameTable,
) -> Result<(Op, &'t [Token<'a>]), ReadError>
    ensures { MatchResult result
        (λ r. ReadsWith (behind opcode) names.old names.new r.0 (lexemes_of tokens.now) (lexemes_of r.1.now))
        (Refuses (behind_opcode opcode) (lexemes_of tokens.now)) }
{
    match opcode {
        FlowOpcode::Phi => read_phi(alloc, tokens, names),
        FlowOpcode::Return => read_return(alloc, tokens, names),
        FlowOpcode::Branch => read_branch(alloc, tokens, names),
        FlowOpcode::Switch => read_switch(alloc, tokens, names),
        FlowOpcode::Unreachable => Ok((Op::Unreachable, tokens)),
    }
}

/// A return, of nothing where `void` stands, and else of a value (LLVM 14, `ret`).
fn read_return<'t, 'a>(
    alloc: Global,
    tokens: &'t [Token<'a>],
    names: &mut NameTable,
) -> Result<(Op, &'t [Token<'a>]), ReadError>
    ensures { MatchResult result
        (λ r. ReadsWith (behind opcode.Return) names.old names.new r.0 (lexemes_of tokens.now) (lexemes_of r.1.now))
        (Refuses return_part (lexemes_of tokens.now)) }
{
    match take_word(tokens, "void") {
        Ok(rest) => Ok((Op::ReturnVoid, rest)),
        Err(_no_void) => {
            let (value, rest) = read_typed(alloc, tokens, names)?;
            Ok((Op::Return { value }, rest))
        }
    }
}

/// A branch, to one block where `label` stands, and else to one of two (LLVM 14, `br`).
fn read_branch<'t, 'a>(
    alloc: Global,
    tokens: &'t [Token<'a>],
    names: &mut NameTable,
) -> Result<(Op, &'t [Token<'a>]), ReadError>
    ensures { MatchResult result
        (λ r. ReadsWith (behind opcode.Branch) names.old names.new r.0 (lexemes_of tokens.now) (lexemes_of r.1.now))
        (Refuses branch_part (lexemes_of tokens.now)) }
{
    match take_word(tokens, "label") {
        Ok(_behind) => {
            let (target, rest) = read_label(alloc, tokens, names)?;
            Ok((Op::Jump { target }, rest))
        }
        Err(_no_label) => {
            let (operation, rest) = read_conditional(alloc, tokens, names)?;
            Ok((operation, rest))
        }
    }
}

/// A branch on a condition, to one of two blocks.
fn read_conditional<'t, 'a>(
    alloc: Global,
    tokens: &'t [Token<'a>],
    names: &mut NameTable,
) -> Result<(Op, &'t [Token<'a>]), ReadError>
    ensures { MatchResult result
        (λ r. ReadsWith (behind opcode.Branch) names.old names.new r.0 (lexemes_of tokens.now) (lexemes_of r.1.now))
        (Refuses (target_part then mark_part 44 then label_part) (lexemes_of tokens.now)) }
{
    let (accepted, behind) = read_target(alloc, tokens, names)?;
    let after = take_mark(behind, b',')?;
    let (rejected, rest) = read_label(alloc, after, names)?;
    Ok((branch_of(accepted, rejected), rest))
}

fn branch_of(accepted: Target, rejected: Name) -> Op
    ensures { result ≡ op.Branch accepted.value accepted.block rejected }
{
    let Target { value, block } = accepted;
    Op::Branch {
        condition: value,
        accepted: block,
        rejected,
    }
}
