ghost use Rattle.std.specs.Prelude.{◌≡◌, IfErr, MatchOption, MatchResult, length};
ghost use Rattle.kern_lanes.specs.declared.atomic.RmwOp.{RmwOp};
ghost use Rattle.ll_tokens.specs.Tokens.{lexemes_of};
ghost use Rattle.ll_tree.specs.declared.op.Op.TheVariants as op;
ghost use Rattle.ll_parser.specs.GrammarInsts.{rmw_word};
ghost use Rattle.ll_parser.specs.NameReading.{ReadsWith};
ghost use Rattle.ll_parser.specs.Productions.{word};
ghost use Rattle.ll_parser.specs.Reading.{DerivesNone};
ghost use Rattle.ll_operands.specs.Parts.{Refuses};
ghost use Rattle.ll_memory_ops.specs.declared.opcodes.MemoryOpcode.TheVariants as opcode;
ghost use Rattle.ll_memory_ops.specs.AtomicParts.{exchange_orders, exchange_orders_part, exchange_part, update_part};
ghost use Rattle.ll_memory_ops.specs.MemoryOperations.{behind};
ghost use Rattle.ll_memory_ops.specs.OrderParts.{scoped_order_part};

use crate::alignments::read_align;
use crate::orders::{ScopedOrder, read_scoped_order, take_order};
use kern_lanes::RmwOp;
use ll_operands::{Three, Two, read_three, read_two};
use ll_parser::{NameTable, ReadError, Refusal, split_first, unexpected};
use ll_tokens::{Token, TokenKind};
use ll_tree::{Op, Order};
use std::alloc::Global;

/// A fence: a scope where it stands, and an order (LLVM 14, `fence`).
pub fn read_fence<'t, 'a>(
    alloc: Global,
    tokens: &'t [Token<'a>],
    names: &mut NameTable,
) -> Result<(Op, &'t [Token<'a>]), ReadError>
    ensures { MatchResult result
        (λ r. ReadsWith (behind opcode.Fence) names.old names.new r.0 (lexemes_of tokens.now) (lexemes_of r.1.now))
        (Refuses scoped_order_part (lexemes_of tokens.now)) }
{
    let (ordered, rest) = read_scoped_order(alloc, tokens)?;
    Ok((fence_of(ordered), rest))
}

fn fence_of(ordered: ScopedOrder) -> Op
    ensures { result ≡ op.Fence ordered.scope ordered.order }
{
    let ScopedOrder { scope, order } = ordered;
    Op::Fence { scope, order }
}

/// The order of a `cmpxchg` with its scope, and its order where the values differ.
#[derive(Drop)]
pub struct ExchangeOrders {
    pub equal: ScopedOrder,
    pub unequal: Order,
}

/// A `cmpxchg`: a pointer, a comparator and a new value, a scope where it stands, two orders and an alignment (LLVM 14,
/// `cmpxchg`).
pub fn read_exchange<'t, 'a>(
    alloc: Global,
    tokens: &'t [Token<'a>],
    names: &mut NameTable,
) -> Result<(Op, &'t [Token<'a>]), ReadError>
    ensures { MatchResult result
        (λ r. ReadsWith (behind opcode.CompareExchange) names.old names.new r.0 (lexemes_of tokens.now) (lexemes_of r.1.now))
        (Refuses exchange_part (lexemes_of tokens.now)) }
{
    let (operands, behind) = read_three(alloc, tokens, names)?;
    let (orders, after) = read_exchange_orders(alloc, behind)?;
    let (align, rest) = read_align(after)?;
    Ok((exchange_of(operands, orders, align), rest))
}

fn exchange_of(operands: Three, orders: ExchangeOrders, align: Option<u64>) -> Op
    ensures { result ≡ op.CompareExchange operands.first operands.second operands.third orders.equal.scope orders.equal.order
        orders.unequal align }
{
    let ExchangeOrders { equal, unequal } = orders;
    let ScopedOrder { scope, order } = equal;
    Op::CompareExchange {
        pointer: operands.first,
        comparator: operands.second,
        value: operands.third,
        scope,
        equal: order,
        unequal,
        align,
    }
}

/// The scope, where it is written, and the two orders with which the tokens begin, and the tokens behind them.
fn read_exchange_orders<'t, 'a>(
    alloc: Global,
    tokens: &'t [Token<'a>],
) -> Result<(ExchangeOrders, &'t [Token<'a>]), ReadError>
    ensures { MatchResult result
        (λ r. exchange_orders r.0 (lexemes_of tokens.now) (lexemes_of r.1.now))
        (Refuses exchange_orders_part (lexemes_of tokens.now)) }
{
    let (equal, behind) = read_scoped_order(alloc, tokens)?;
    let (unequal, rest) = take_order(behind)?;
    Ok((ExchangeOrders { equal, unequal }, rest))
}

/// An `atomicrmw`: an operation, a pointer and an operand, a scope where it stands, an order and an alignment (LLVM 14,
/// `atomicrmw`).
pub fn read_update<'t, 'a>(
    alloc: Global,
    tokens: &'t [Token<'a>],
    names: &mut NameTable,
) -> Result<(Op, &'t [Token<'a>]), ReadError>
    ensures { MatchResult result
        (λ r. ReadsWith (behind opcode.AtomicRmw) names.old names.new r.0 (lexemes_of tokens.now) (lexemes_of r.1.now))
        (Refuses update_part (lexemes_of tokens.now)) }
{
    let (kind, inside) = take_update(tokens)?;
    let (operands, behind) = read_two(alloc, inside, names)?;
    let (ordered, after) = read_scoped_order(alloc, behind)?;
    let (align, rest) = read_align(after)?;
    Ok((update_of(kind, operands, ordered, align), rest))
}

fn update_of(kind: RmwOp, operands: Two, ordered: ScopedOrder, align: Option<u64>) -> Op
    ensures { result ≡ op.AtomicRmw kind operands.first operands.second ordered.scope ordered.order align }
{
    let ScopedOrder { scope, order } = ordered;
    Op::AtomicRmw {
        op: kind,
        pointer: operands.first,
        value: operands.second,
        scope,
        order,
        align,
    }
}

/// The operation of an `atomicrmw` with whose word the tokens begin, and the tokens behind it. It fails by rule 3 at the first
/// token.
fn take_update<'t, 'a>(tokens: &'t [Token<'a>]) -> Result<(RmwOp, &'t [Token<'a>]), Refusal>
    ensures read { MatchResult result
        (λ r. word (rmw_word r.0) (lexemes_of tokens.now) (lexemes_of r.1.now))
        (λ refusal. DerivesNone (λ kind. word (rmw_word kind)) (lexemes_of tokens.now)) }
    ensures place { IfErr result (λ refusal. refusal ≡ record { rule = 3; left = length tokens.now }) }
{
    match split_first(tokens) {
        Some((first, rest)) if first.kind == TokenKind::Word => match update_of_word(first.text) {
            Some(kind) => Ok((kind, rest)),
            None => Err(unexpected(tokens)),
        },
        _ => Err(unexpected(tokens)),
    }
}

/// The operation that a word names. None exactly where it names none.
fn update_of_word(word: &str) -> Option<RmwOp>
    ensures { MatchOption result
        ((kind : RmwOp) → word.now ≡ rmw_word kind → ⊥)
        (λ kind. word.now ≡ rmw_word kind) }
{
    match word {
        "xchg" => Some(RmwOp::Xchg),
        "add" => Some(RmwOp::Add),
        "sub" => Some(RmwOp::Sub),
        "and" => Some(RmwOp::And),
        "or" => Some(RmwOp::Or),
        "xor" => Some(RmwOp::Xor),
        "max" => Some(RmwOp::Max),
        "min" => Some(RmwOp::Min),
        "umax" => Some(RmwOp::UMax),
        "umin" => Some(RmwOp::UMin),
        _ => None,
    }
}
