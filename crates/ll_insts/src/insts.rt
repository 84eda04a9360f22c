ghost use Rattle.std.specs.Prelude.{◌≡◌, ◌++◌, ◌∷◌, [], MatchResult, OnOk, Some};
ghost use Rattle.ll_tokens.specs.Tokens.{lexemes_of};
ghost use Rattle.ll_parser.specs.NameReading.{ReadsWith};
ghost use Rattle.ll_operands.specs.Parts.{Refuses};
ghost use Rattle.ll_insts.specs.InstParts.{inst_part, insts_part, named_operation_part};
ghost use Rattle.ll_insts.specs.Insts.{inst_here, insts_here, named_operation};

use crate::operations::read_operation;
use ll_attributes::skip_attachments;
use ll_bodies::{begins_terminator, begins_unnamed, name_left_out, number_behind, read_given_name};
use ll_heads::first_place;
use ll_parser::{NameTable, ReadError, last, unexpected};
use ll_tokens::Token;
use ll_tree::{Inst, LlInst, Name, Op};
use sqlite_items::Items;
use std::alloc::{AllocError, Global};

/// The instruction with which the tokens begin, at the place of their first one, with its attachments, of which none is kept, and
/// the tokens behind it (LLVM 14, Instruction Reference; Identifiers; Metadata). Where it is given no name and has a value, its
/// name is the next number. Names are numbered by the table, and the next number is then that behind the instruction's name. It
/// fails for want of memory, which is told too where there is no further number of 32 bits, and at the first token that can't
/// stand where it does: by rule 4 where that is a number out of its range, or a name, a node or a group of attributes of such
/// digits, else by rule 3.
pub fn read_inst<'t, 'a>(
    alloc: Global,
    tokens: &'t [Token<'a>],
    names: &mut NameTable,
    next: &mut u32,
) -> Result<(Inst, &'t [Token<'a>]), ReadError>
    ensures { MatchResult result
        (λ r. ReadsWith (inst_here next.old next.new) names.old names.new r.0 (lexemes_of tokens.now) (lexemes_of r.1.now))
        (Refuses inst_part (lexemes_of tokens.now)) }
{
    let byte = first_place(tokens);
    match read_given_name(alloc, tokens, names)? {
        Some((name, behind)) => {
            let (op, end) = read_named_operation(alloc, behind, names)?;
            let rest = skip_attachments(end)?;
            *next = number_behind(names, name.number, *next)?;
            Ok((named_inst(byte, name, op), rest))
        }
        None => {
            let (op, end) = read_operation(alloc, tokens, names)?;
            let rest = skip_attachments(end)?;
            let defines = name_left_out(&op, byte, names, next)?;
            Ok((Inst { byte, defines, op }, rest))
        }
    }
}

fn named_inst(byte: u64, name: Name, op: Op) -> Inst
    ensures { result ≡ record { byte = byte; defines = Some name; op = op } }
{
    Inst {
        byte,
        defines: Some(name),
        op,
    }
}

/// What an instruction does that is given a name, as `read_operation` reads it. It fails by rule 3 too where the first token is
/// the word of an instruction that is never given a name.
fn read_named_operation<'t, 'a>(
    alloc: Global,
    tokens: &'t [Token<'a>],
    names: &mut NameTable,
) -> Result<(Op, &'t [Token<'a>]), ReadError>
    ensures { MatchResult result
        (λ r. ReadsWith named_operation names.old names.new r.0 (lexemes_of tokens.now) (lexemes_of r.1.now))
        (Refuses named_operation_part (lexemes_of tokens.now)) }
{
    if begins_unnamed(tokens) {
        return Err(ReadError::Refused(unexpected(tokens)));
    }
    let (op, rest) = read_operation(alloc, tokens, names)?;
    Ok((op, rest))
}

/// The instructions of a block with which the tokens begin, up to the one that ends it, and the tokens behind that. It fails as
/// `read_inst` does.
pub fn read_insts<'t, 'a>(
    alloc: Global,
    tokens: &'t [Token<'a>],
    names: &mut NameTable,
    next: &mut u32,
) -> Result<(Items<LlInst>, &'t [Token<'a>]), ReadError>
    ensures { MatchResult result
        (λ r. ReadsWith (insts_here next.old next.new) names.old names.new r.0 (lexemes_of tokens.now) (lexemes_of r.1.now))
        (Refuses insts_part (lexemes_of tokens.now)) }
{
    let mut insts = Items::new(alloc);
    let mut left = tokens.len();
    while !begins_terminator(last(tokens, left)) {
        let (inst, behind) = read_inst(alloc, last(tokens, left), names, next)?;
        push_inst(alloc, &mut insts, inst)?;
        left = behind.len();
    }
    let (terminator, rest) = read_inst(alloc, last(tokens, left), names, next)?;
    push_inst(alloc, &mut insts, terminator)?;
    Ok((insts, rest))
}

/// Adds an instruction behind the others.
fn push_inst(alloc: Global, insts: &mut Items<LlInst>, inst: Inst) -> Result<(), AllocError>
    ensures { OnOk result (insts.new ≡ insts.old ++ inst ∷ []) }
{
    match LlInst::new(alloc, inst) {
        Ok(inst) => insts.push(inst),
        Err(_no_memory) => Err(AllocError),
    }
}
