ghost use Rattle.std.specs.Prelude.{◌≡◌, MatchOption, MatchResult};
ghost use Rattle.ll_tokens.specs.Tokens.{lexemes_of};
ghost use Rattle.ll_tree.specs.declared.op.Op.TheVariants as op;
ghost use Rattle.ll_parser.specs.NameReading.{ReadsWith};
ghost use Rattle.ll_parser.specs.Reading.{EndsNowhere};
ghost use Rattle.ll_operands.specs.Operands.{one_type_part};
ghost use Rattle.ll_operands.specs.Parts.{Refuses, ◌then◌};
ghost use Rattle.ll_value_ops.specs.declared.opcodes.ValueOpcode.TheVariants as opcode;
ghost use Rattle.ll_value_ops.specs.ValueOpcodes.{flags_part, predicate_part, value_word};
ghost use Rattle.ll_value_ops.specs.ValueOperations.{
  behind,
  behind_opcode,
  conversion_part,
  extraction_part,
  value_operation,
  value_operation_part,
};

use crate::opcodes::{ValueOpcode, take_flags, take_opcode, take_predicate};
use kern_lanes::BinOp;
use ll_operands::{OfOneType, Three, Two, read_of_one_type, read_three, read_two};
use ll_parser::{NameTable, ReadError, number, take_mark, take_word};
use ll_tokens::Token;
use ll_tree::{CastKind, Flag, Op};
use ll_types::{read_type, read_typed};
use sqlite_items::Items;
use std::alloc::Global;

/// The instruction on values with which the tokens begin, with all that belongs to it, and the tokens behind it (LLVM 14,
/// Instruction Reference). Names are numbered by the table. None exactly where the tokens begin with the word of no such
/// instruction; the table then stays as it is. It fails for want of memory, and at the first token that can't stand where it
/// does: by rule 4 where that is a number out of its range or a name of digits whose number is 2^31 or more, else by rule 3.
pub fn read_value_operation<'t, 'a>(
    alloc: Global,
    tokens: &'t [Token<'a>],
    names: &mut NameTable,
) -> Result<Option<(Op, &'t [Token<'a>])>, ReadError>
    ensures { MatchResult result
        (λ found. MatchOption found ((names.new ≡ names.old) × EndsNowhere value_word (lexemes_of tokens.now))
        (λ r. ReadsWith value_operation names.old names.new r.0 (lexemes_of tokens.now) (lexemes_of r.1.now)))
        (Refuses value_operation_part (lexemes_of tokens.now)) }
{
    match take_opcode(tokens) {
        Some((opcode, behind)) => {
            let (operation, rest) = read_behind(alloc, opcode, behind, names)?;
            Ok(Some((operation, rest)))
        }
        None => Ok(None),
    }
}

/// The instruction behind whose word the tokens begin, and the tokens behind it.
fn read_behind<'t, 'a>(
    alloc: Global,
    opcode: ValueOpcode,
    tokens: &'t [Token<'a>],
    names: &mut NameTable,
) -> Result<(Op, &'t [Token<'a>]), ReadError>
    ensures { MatchResult result
        (λ r. ReadsWith (behind opcode) names.old names.new r.0 (lexemes_of tokens.now) (lexemes_of r.1.now))
        (Refuses (behind_opcode opcode) (lexemes_of tokens.now)) }
{
    match opcode {
        ValueOpcode::Binary(op) => read_binary(alloc, op, tokens, names),
        ValueOpcode::Compare => read_comparison(alloc, tokens, names),
        ValueOpcode::Cast(kind) => read_conversion(alloc, kind, tokens, names),
        ValueOpcode::ExtractValue => read_extraction(alloc, tokens, names),
        ValueOpcode::ExtractElement => {
            let (operands, rest) = read_two(alloc, tokens, names)?;
            Ok((element_of(operands), rest))
        }
        ValueOpcode::Select => {
            let (operands, rest) = read_three(alloc, tokens, names)?;
            Ok((selection_of(operands), rest))
        }
        ValueOpcode::InsertElement => {
            let (operands, rest) = read_three(alloc, tokens, names)?;
            Ok((insertion_of(operands), rest))
        }
        ValueOpcode::ShuffleVector => {
            let (operands, rest) = read_three(alloc, tokens, names)?;
            Ok((shuffle_of(operands), rest))
        }
    }
}

/// A binary operation: flags, a type and two operands of it.
fn read_binary<'t, 'a>(
    alloc: Global,
    op: BinOp,
    tokens: &'t [Token<'a>],
    names: &mut NameTable,
) -> Result<(Op, &'t [Token<'a>]), ReadError>
    ensures { MatchResult result
        (λ r. ReadsWith (behind (opcode.Binary op)) names.old names.new r.0 (lexemes_of tokens.now) (lexemes_of r.1.now))
        (Refuses (flags_part then one_type_part) (lexemes_of tokens.now)) }
{
    let (flags, behind) = take_flags(alloc, tokens)?;
    let (operands, rest) = read_of_one_type(alloc, behind, names)?;
    Ok((binary_of(op, flags, operands), rest))
}

fn binary_of(kind: BinOp, flags: Items<Flag>, operands: OfOneType) -> Op
    ensures { result ≡ op.Binary kind flags operands.ty operands.left operands.right }
{
    let OfOneType { ty, left, right } = operands;
    Op::Binary {
        op: kind,
        flags,
        ty,
        left,
        right,
    }
}

/// A comparison: a predicate, a type and two operands of it.
fn read_comparison<'t, 'a>(
    alloc: Global,
    tokens: &'t [Token<'a>],
    names: &mut NameTable,
) -> Result<(Op, &'t [Token<'a>]), ReadError>
    ensures { MatchResult result
        (λ r. ReadsWith (behind opcode.Compare) names.old names.new r.0 (lexemes_of tokens.now) (lexemes_of r.1.now))
        (Refuses (predicate_part then one_type_part) (lexemes_of tokens.now)) }
{
    let (pred, behind) = take_predicate(tokens)?;
    let (operands, rest) = read_of_one_type(alloc, behind, names)?;
    let OfOneType { ty, left, right } = operands;
    Ok((
        Op::Compare {
            pred,
            ty,
            left,
            right,
        },
        rest,
    ))
}

/// A conversion: an operand, `to` and a type.
fn read_conversion<'t, 'a>(
    alloc: Global,
    kind: CastKind,
    tokens: &'t [Token<'a>],
    names: &mut NameTable,
) -> Result<(Op, &'t [Token<'a>]), ReadError>
    ensures { MatchResult result
        (λ r. ReadsWith (behind (opcode.Cast kind)) names.old names.new r.0 (lexemes_of tokens.now) (lexemes_of r.1.now))
        (Refuses conversion_part (lexemes_of tokens.now)) }
{
    let (operand, behind) = read_typed(alloc, tokens, names)?;
    let target = take_word(behind, "to")?;
    let (to, rest) = read_type(alloc, target, names)?;
    Ok((Op::Cast { kind, operand, to }, rest))
}

/// A part of an aggregate: the aggregate and the number of its part.
fn read_extraction<'t, 'a>(
    alloc: Global,
    tokens: &'t [Token<'a>],
    names: &mut NameTable,
) -> Result<(Op, &'t [Token<'a>]), ReadError>
    ensures { MatchResult result
        (λ r. ReadsWith (behind opcode.ExtractValue) names.old names.new r.0 (lexemes_of tokens.now) (lexemes_of r.1.now))
        (Refuses extraction_part (lexemes_of tokens.now)) }
{
    let (aggregate, behind) = read_typed(alloc, tokens, names)?;
    let after = take_mark(behind, b',')?;
    let (index, rest) = number(after)?;
    Ok((Op::ExtractValue { aggregate, index }, rest))
}

fn element_of(operands: Two) -> Op
    ensures { result ≡ op.ExtractElement operands.first operands.second }
{
    Op::ExtractElement {
        vector: operands.first,
        index: operands.second,
    }
}

fn selection_of(operands: Three) -> Op
    ensures { result ≡ op.Select operands.first operands.second operands.third }
{
    Op::Select {
        condition: operands.first,
        accepted: operands.second,
        rejected: operands.third,
    }
}

fn insertion_of(operands: Three) -> Op
    ensures { result ≡ op.InsertElement operands.first operands.second operands.third }
{
    Op::InsertElement {
        vector: operands.first,
        element: operands.second,
        index: operands.third,
    }
}

fn shuffle_of(operands: Three) -> Op
    ensures { result ≡ op.ShuffleVector operands.first operands.second operands.third }
{
    Op::ShuffleVector {
        left: operands.first,
        right: operands.second,
        mask: operands.third,
    }
}
