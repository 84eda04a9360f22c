ghost use Rattle.std.specs.Prelude.{◌≡◌, IfErr, MatchOption, MatchResult, length};
ghost use Rattle.ll_tokens.specs.Tokens.{lexemes_of};
ghost use Rattle.ll_tree.specs.declared.op.Order.{Order};
ghost use Rattle.ll_parser.specs.GrammarInsts.{order_word, syncscope};
ghost use Rattle.ll_parser.specs.Productions.{word};
ghost use Rattle.ll_parser.specs.Reading.{DerivesNone};
ghost use Rattle.ll_operands.specs.Parts.{Refuses};
ghost use Rattle.ll_memory_ops.specs.OrderParts.{scope_here, scope_part, scoped_order, scoped_order_part, written_scope_part};

use ll_attributes::read_text;
use ll_parser::{ReadError, Refusal, split_first, take_mark, take_word, unexpected};
use ll_tokens::{Token, TokenKind};
use ll_tree::Order;
use sqlite_items::Items;
use std::alloc::Global;

/// The threads among which an atomic instruction is ordered, where they are written, and its order.
#[derive(Drop)]
pub struct ScopedOrder {
    pub scope: Option<Items<u8>>,
    pub order: Order,
}

/// The scope, where it is written, and the order with which the tokens begin, and the tokens behind them (LLVM 14, Atomic Memory
/// Ordering Constraints).
pub fn read_scoped_order<'t, 'a>(
    alloc: Global,
    tokens: &'t [Token<'a>],
) -> Result<(ScopedOrder, &'t [Token<'a>]), ReadError>
    ensures { MatchResult result
        (λ r. scoped_order r.0 (lexemes_of tokens.now) (lexemes_of r.1.now))
        (Refuses scoped_order_part (lexemes_of tokens.now)) }
{
    let (scope, behind) = read_scope(alloc, tokens)?;
    let (order, rest) = take_order(behind)?;
    Ok((ScopedOrder { scope, order }, rest))
}

/// What the text of a `syncscope` stands for, with which the tokens begin, and the tokens behind it. The text is None, and the
/// tokens are the same, where no `syncscope` begins them.
fn read_scope<'t, 'a>(
    alloc: Global,
    tokens: &'t [Token<'a>],
) -> Result<(Option<Items<u8>>, &'t [Token<'a>]), ReadError>
    ensures { MatchResult result
        (λ r. scope_here r.0 (lexemes_of tokens.now) (lexemes_of r.1.now))
        (Refuses scope_part (lexemes_of tokens.now)) }
{
    match take_word(tokens, "syncscope") {
        Ok(_behind) => {
            let (text, rest) = read_written_scope(alloc, tokens)?;
            Ok((Some(text), rest))
        }
        Err(_no_scope) => Ok((None, tokens)),
    }
}

/// What the text between brackets stands for, behind the word `syncscope` with which the tokens begin, and the tokens behind it.
fn read_written_scope<'t, 'a>(
    alloc: Global,
    tokens: &'t [Token<'a>],
) -> Result<(Items<u8>, &'t [Token<'a>]), ReadError>
    ensures { MatchResult result
        (λ r. syncscope r.0 (lexemes_of tokens.now) (lexemes_of r.1.now))
        (Refuses written_scope_part (lexemes_of tokens.now)) }
{
    let behind = take_word(tokens, "syncscope")?;
    let inside = take_mark(behind, b'(')?;
    let (text, end) = read_text(alloc, inside)?;
    let rest = take_mark(end, b')')?;
    Ok((text, rest))
}

/// The order with whose word the tokens begin, and the tokens behind it. It fails by rule 3 at the first token.
pub fn take_order<'t, 'a>(tokens: &'t [Token<'a>]) -> Result<(Order, &'t [Token<'a>]), Refusal>
    ensures read { MatchResult result
        (λ r. word (order_word r.0) (lexemes_of tokens.now) (lexemes_of r.1.now))
        (λ refusal. DerivesNone (λ order. word (order_word order)) (lexemes_of tokens.now)) }
    ensures place { IfErr result (λ refusal. refusal ≡ record { rule = 3; left = length tokens.now }) }
{
    match split_first(tokens) {
        Some((first, rest)) if first.kind == TokenKind::Word => match order_of_word(first.text) {
            Some(order) => Ok((order, rest)),
            None => Err(unexpected(tokens)),
        },
        _ => Err(unexpected(tokens)),
    }
}

/// The order that a word names. None exactly where it names none.
fn order_of_word(word: &str) -> Option<Order>
    ensures { MatchOption result
        ((order : Order) → word.now ≡ order_word order → ⊥)
        (λ order. word.now ≡ order_word order) }
{
    match word {
        "monotonic" => Some(Order::Monotonic),
        "acquire" => Some(Order::Acquire),
        "release" => Some(Order::Release),
        "acq_rel" => Some(Order::AcqRel),
        "seq_cst" => Some(Order::SeqCst),
        _ => None,
    }
}
