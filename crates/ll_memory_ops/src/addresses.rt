ghost use Rattle.std.specs.Prelude.{◌≡◌, ◌++◌, ◌∷◌, [], MatchOption, MatchResult, OnOk};
ghost use Rattle.ll_tokens.specs.Tokens.{lexemes_of};
ghost use Rattle.ll_tree.specs.declared.op.Op.TheVariants as op;
ghost use Rattle.ll_parser.specs.NameReading.{ReadsWith};
ghost use Rattle.ll_parser.specs.Reading.{EndsNowhere};
ghost use Rattle.ll_operands.specs.Parts.{Refuses, operand_comma, optional, repeated};
ghost use Rattle.ll_memory_ops.specs.declared.opcodes.MemoryOpcode.TheVariants as opcode;
ghost use Rattle.ll_memory_ops.specs.AddressParts.{address_part, index, index_part, indexes, indexes_part, more_indexes};
ghost use Rattle.ll_memory_ops.specs.MemoryOperations.{behind};

use crate::accesses::{Pointee, read_pointee};
use ll_operands::{take_if_word, take_operand_comma};
use ll_parser::{NameTable, ReadError, last, take_mark};
use ll_tokens::Token;
use ll_tree::{Op, Parts, TypedValue};
use ll_types::read_typed;
use std::alloc::{AllocError, Global};

/// A `getelementptr`: `inbounds` where it stands, a type, a pointer, and indexes behind commas (LLVM 14, `getelementptr`).
pub fn read_address<'t, 'a>(
    alloc: Global,
    tokens: &'t [Token<'a>],
    names: &mut NameTable,
) -> Result<(Op, &'t [Token<'a>]), ReadError>
    ensures { MatchResult result
        (λ r. ReadsWith (behind opcode.GetElementPtr) names.old names.new r.0 (lexemes_of tokens.now) (lexemes_of r.1.now))
        (Refuses address_part (lexemes_of tokens.now)) }
{
    let (inbounds, behind) = take_if_word(tokens, "inbounds");
    let (base, after) = read_pointee(alloc, behind, names)?;
    let (indexes, rest) = read_indexes(alloc, after, names)?;
    Ok((address_of(inbounds, base, indexes), rest))
}

fn address_of(inbounds: bool, base: Pointee, indexes: Parts<TypedValue>) -> Op
    ensures { result ≡ op.GetElementPtr inbounds base.ty base.pointer indexes }
{
    let Pointee { ty, pointer } = base;
    Op::GetElementPtr {
        inbounds,
        ty,
        pointer,
        indexes,
    }
}

/// The indexes behind commas with which the tokens begin, one at least, and the tokens behind them.
fn read_indexes<'t, 'a>(
    alloc: Global,
    tokens: &'t [Token<'a>],
    names: &mut NameTable,
) -> Result<(Parts<TypedValue>, &'t [Token<'a>]), ReadError>
    ensures { MatchResult result
        (λ r. ReadsWith indexes names.old names.new r.0 (lexemes_of tokens.now) (lexemes_of r.1.now))
        (Refuses indexes_part (lexemes_of tokens.now)) }
{
    let (first, behind) = read_index(alloc, tokens, names)?;
    let mut indexes = Parts::new(alloc);
    push_index(&mut indexes, first)?;
    let (indexes, rest) = read_more_indexes(alloc, indexes, behind, names)?;
    Ok((indexes, rest))
}

/// The indexes with those behind commas with which the tokens begin behind them, as many as there are, and the tokens behind
/// those.
fn read_more_indexes<'t, 'a>(
    alloc: Global,
    mut indexes: Parts<TypedValue>,
    tokens: &'t [Token<'a>],
    names: &mut NameTable,
) -> Result<(Parts<TypedValue>, &'t [Token<'a>]), ReadError>
    ensures { MatchResult result
        (λ r. ReadsWith (more_indexes indexes) names.old names.new r.0 (lexemes_of tokens.now) (lexemes_of r.1.now))
        (Refuses (repeated operand_comma index_part) (lexemes_of tokens.now)) }
{
    let mut left = tokens.len();
    while let Some((index, behind)) = read_next_index(alloc, last(tokens, left), names)? {
        push_index(&mut indexes, index)?;
        left = behind.len();
    }
    Ok((indexes, last(tokens, left)))
}

/// Adds an index behind the others.
fn push_index(indexes: &mut Parts<TypedValue>, index: TypedValue) -> Result<(), AllocError>
    ensures { OnOk result (indexes.new ≡ indexes.old ++ index ∷ []) }
{
    match indexes.push(index) {
        Ok(()) => Ok(()),
        Err(_no_memory) => Err(AllocError),
    }
}

/// The index behind a comma with which the tokens begin, and the tokens behind it. None exactly where they begin with no comma,
/// or with one that an attachment's name follows.
fn read_next_index<'t, 'a>(
    alloc: Global,
    tokens: &'t [Token<'a>],
    names: &mut NameTable,
) -> Result<Option<(TypedValue, &'t [Token<'a>])>, ReadError>
    ensures { MatchResult result
        (λ found. MatchOption found ((names.new ≡ names.old) × EndsNowhere operand_comma (lexemes_of tokens.now))
        (λ r. ReadsWith index names.old names.new r.0 (lexemes_of tokens.now) (lexemes_of r.1.now)))
        (Refuses (optional operand_comma index_part) (lexemes_of tokens.now)) }
{
    match take_operand_comma(tokens) {
        Some(_inside) => {
            let (index, rest) = read_index(alloc, tokens, names)?;
            Ok(Some((index, rest)))
        }
        None => Ok(None),
    }
}

/// The index behind a comma with which the tokens begin, and the tokens behind it.
fn read_index<'t, 'a>(
    alloc: Global,
    tokens: &'t [Token<'a>],
    names: &mut NameTable,
) -> Result<(TypedValue, &'t [Token<'a>]), ReadError>
    ensures { MatchResult result
        (λ r. ReadsWith index names.old names.new r.0 (lexemes_of tokens.now) (lexemes_of r.1.now))
        (Refuses index_part (lexemes_of tokens.now)) }
{
    let inside = take_mark(tokens, b',')?;
    let (index, rest) = read_typed(alloc, inside, names)?;
    Ok((index, rest))
}
