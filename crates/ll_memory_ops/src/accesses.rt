ghost use Rattle.std.specs.Prelude.{◌≡◌, MatchResult};
ghost use Rattle.ll_tokens.specs.Tokens.{lexemes_of};
ghost use Rattle.ll_tree.specs.declared.op.Op.TheVariants as op;
ghost use Rattle.ll_parser.specs.NameReading.{ReadsWith};
ghost use Rattle.ll_operands.specs.Parts.{Refuses};
ghost use Rattle.ll_memory_ops.specs.declared.opcodes.MemoryOpcode.TheVariants as opcode;
ghost use Rattle.ll_memory_ops.specs.AccessParts.{
  atomic_load_part,
  atomic_store_part,
  load_part,
  plain_load_part,
  plain_store_part,
  pointee,
  pointee_part,
  store_part,
};
ghost use Rattle.ll_memory_ops.specs.MemoryOperations.{behind, behind_atomic};

use crate::alignments::{read_align, read_alignment};
use crate::orders::{ScopedOrder, read_scoped_order};
use ll_operands::{Two, read_two, take_if_word};
use ll_parser::{NameTable, ReadError, take_mark, take_word};
use ll_tokens::Token;
use ll_tree::{LlType, Op, TypedValue};
use ll_types::{read_type, read_typed};
use std::alloc::Global;

/// A pointer and the type that is written for what it points to.
#[derive(Drop)]
pub struct Pointee {
    pub ty: LlType,
    pub pointer: TypedValue,
}

/// The type with which the tokens begin, the pointer behind a comma, and the tokens behind that.
pub fn read_pointee<'t, 'a>(
    alloc: Global,
    tokens: &'t [Token<'a>],
    names: &mut NameTable,
) -> Result<(Pointee, &'t [Token<'a>]), ReadError>
    ensures { MatchResult result
        (λ r. ReadsWith pointee names.old names.new r.0 (lexemes_of tokens.now) (lexemes_of r.1.now))
        (Refuses pointee_part (lexemes_of tokens.now)) }
{
    let (ty, behind) = read_type(alloc, tokens, names)?;
    let after = take_mark(behind, b',')?;
    let (pointer, rest) = read_typed(alloc, after, names)?;
    Ok((Pointee { ty, pointer }, rest))
}

/// A load, atomic where that word stands (LLVM 14, `load`).
pub fn read_load<'t, 'a>(
    alloc: Global,
    tokens: &'t [Token<'a>],
    names: &mut NameTable,
) -> Result<(Op, &'t [Token<'a>]), ReadError>
    ensures { MatchResult result
        (λ r. ReadsWith (behind opcode.Load) names.old names.new r.0 (lexemes_of tokens.now) (lexemes_of r.1.now))
        (Refuses load_part (lexemes_of tokens.now)) }
{
    match take_word(tokens, "atomic") {
        Ok(behind) => {
            let (operation, rest) = read_atomic_load(alloc, behind, names)?;
            Ok((operation, rest))
        }
        Err(_no_atomic) => {
            let (operation, rest) = read_plain_load(alloc, tokens, names)?;
            Ok((operation, rest))
        }
    }
}

/// A load that isn't atomic: `volatile` where it stands, a type, a pointer and an alignment.
fn read_plain_load<'t, 'a>(
    alloc: Global,
    tokens: &'t [Token<'a>],
    names: &mut NameTable,
) -> Result<(Op, &'t [Token<'a>]), ReadError>
    ensures { MatchResult result
        (λ r. ReadsWith (behind opcode.Load) names.old names.new r.0 (lexemes_of tokens.now) (lexemes_of r.1.now))
        (Refuses plain_load_part (lexemes_of tokens.now)) }
{
    let (volatile, behind) = take_if_word(tokens, "volatile");
    let (source, after) = read_pointee(alloc, behind, names)?;
    let (align, rest) = read_align(after)?;
    Ok((load_of(volatile, source, align), rest))
}

fn load_of(volatile: bool, source: Pointee, align: Option<u64>) -> Op
    ensures { result ≡ op.Load volatile source.ty source.pointer align }
{
    let Pointee { ty, pointer } = source;
    Op::Load {
        volatile,
        ty,
        pointer,
        align,
    }
}

/// An atomic load: a type, a pointer, a scope where it stands, an order and an alignment.
fn read_atomic_load<'t, 'a>(
    alloc: Global,
    tokens: &'t [Token<'a>],
    names: &mut NameTable,
) -> Result<(Op, &'t [Token<'a>]), ReadError>
    ensures { MatchResult result
        (λ r. ReadsWith (behind_atomic opcode.Load) names.old names.new r.0 (lexemes_of tokens.now) (lexemes_of r.1.now))
        (Refuses atomic_load_part (lexemes_of tokens.now)) }
{
    let (source, behind) = read_pointee(alloc, tokens, names)?;
    let (ordered, after) = read_scoped_order(alloc, behind)?;
    let (align, rest) = read_alignment(after)?;
    Ok((atomic_load_of(source, ordered, align), rest))
}

fn atomic_load_of(source: Pointee, ordered: ScopedOrder, align: u64) -> Op
    ensures { result ≡ op.AtomicLoad source.ty source.pointer ordered.scope ordered.order align }
{
    let Pointee { ty, pointer } = source;
    let ScopedOrder { scope, order } = ordered;
    Op::AtomicLoad {
        ty,
        pointer,
        scope,
        order,
        align,
    }
}

/// A store, atomic where that word stands (LLVM 14, `store`).
pub fn read_store<'t, 'a>(
    alloc: Global,
    tokens: &'t [Token<'a>],
    names: &mut NameTable,
) -> Result<(Op, &'t [Token<'a>]), ReadError>
    ensures { MatchResult result
        (λ r. ReadsWith (behind opcode.Store) names.old names.new r.0 (lexemes_of tokens.now) (lexemes_of r.1.now))
        (Refuses store_part (lexemes_of tokens.now)) }
{
    match take_word(tokens, "atomic") {
        Ok(behind) => {
            let (operation, rest) = read_atomic_store(alloc, behind, names)?;
            Ok((operation, rest))
        }
        Err(_no_atomic) => {
            let (operation, rest) = read_plain_store(alloc, tokens, names)?;
            Ok((operation, rest))
        }
    }
}

/// A store that isn't atomic: `volatile` where it stands, a value, a pointer and an alignment.
fn read_plain_store<'t, 'a>(
    alloc: Global,
    tokens: &'t [Token<'a>],
    names: &mut NameTable,
) -> Result<(Op, &'t [Token<'a>]), ReadError>
    ensures { MatchResult result
        (λ r. ReadsWith (behind opcode.Store) names.old names.new r.0 (lexemes_of tokens.now) (lexemes_of r.1.now))
        (Refuses plain_store_part (lexemes_of tokens.now)) }
{
    let (volatile, behind) = take_if_word(tokens, "volatile");
    let (operands, after) = read_two(alloc, behind, names)?;
    let (align, rest) = read_align(after)?;
    Ok((store_of(volatile, operands, align), rest))
}

fn store_of(volatile: bool, operands: Two, align: Option<u64>) -> Op
    ensures { result ≡ op.Store volatile operands.first operands.second align }
{
    Op::Store {
        volatile,
        value: operands.first,
        pointer: operands.second,
        align,
    }
}

/// An atomic store: a value, a pointer, a scope where it stands, an order and an alignment.
fn read_atomic_store<'t, 'a>(
    alloc: Global,
    tokens: &'t [Token<'a>],
    names: &mut NameTable,
) -> Result<(Op, &'t [Token<'a>]), ReadError>
    ensures { MatchResult result
        (λ r. ReadsWith (behind_atomic opcode.Store) names.old names.new r.0 (lexemes_of tokens.now) (lexemes_of r.1.now))
        (Refuses atomic_store_part (lexemes_of tokens.now)) }
{
    let (operands, behind) = read_two(alloc, tokens, names)?;
    let (ordered, after) = read_scoped_order(alloc, behind)?;
    let (align, rest) = read_alignment(after)?;
    Ok((atomic_store_of(operands, ordered, align), rest))
}

fn atomic_store_of(operands: Two, ordered: ScopedOrder, align: u64) -> Op
    ensures { result ≡ op.AtomicStore operands.first operands.second ordered.scope ordered.order align }
{
    let ScopedOrder { scope, order } = ordered;
    Op::AtomicStore {
        value: operands.first,
        pointer: operands.second,
        scope,
        order,
        align,
    }
}
