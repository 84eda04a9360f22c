ghost use Rattle.std.specs.Prelude.{◌≡◌, IfErr, IfOk, MatchOption, MatchResult, length};
ghost use Rattle.kern_lanes.specs.declared.binary.BinOp.{BinOp};
ghost use Rattle.kern_lanes.specs.declared.comparison.Pred.{Pred};
ghost use Rattle.ll_tokens.specs.Tokens.{lexemes_of};
ghost use Rattle.ll_tree.specs.declared.op.CastKind.{CastKind};
ghost use Rattle.ll_tree.specs.declared.op.FlagWord.{FlagWord};
ghost use Rattle.ll_parser.specs.GrammarInsts.{binary_word, flag, flag_word, predicate_word};
ghost use Rattle.ll_parser.specs.GrammarValues.{cast_word};
ghost use Rattle.ll_parser.specs.Productions.{word};
ghost use Rattle.ll_parser.specs.Reading.{DerivesNone, EndsNowhere};
ghost use Rattle.ll_value_ops.specs.declared.opcodes.ValueOpcode.{ValueOpcode};
ghost use Rattle.ll_value_ops.specs.ValueOpcodes.{any_flag, flags_here, opcode_word, value_word};

use kern_lanes::{BinOp, Pred};
use ll_parser::{Refusal, last, split_first, unexpected};
use ll_tokens::{Token, TokenKind};
use ll_tree::{CastKind, Flag, FlagWord};
use sqlite_items::Items;
use std::alloc::{AllocError, Global};

/// The instructions on values, by the words with which they begin (LLVM 14, Instruction Reference).
#[derive(Clone, Copy, Debug, PartialEq, Eq)]
pub enum ValueOpcode {
    Binary(BinOp),
    Compare,
    Select,
    Cast(CastKind),
    ExtractElement,
    InsertElement,
    ShuffleVector,
    ExtractValue,
}

/// The instruction with whose word the tokens begin, and the tokens behind it. None exactly where they begin with no such word.
pub fn take_opcode<'t, 'a>(tokens: &'t [Token<'a>]) -> Option<(ValueOpcode, &'t [Token<'a>])>
    ensures { MatchOption result (EndsNowhere value_word (lexemes_of tokens.now))
        (λ r. word (opcode_word r.0) (lexemes_of tokens.now) (lexemes_of r.1.now)) }
{
    match split_first(tokens) {
        Some((first, rest)) if first.kind == TokenKind::Word => match opcode_of_word(first.text) {
            Some(opcode) => Some((opcode, rest)),
            None => None,
        },
        _ => None,
    }
}

/// The instruction that begins with a word. None exactly where none does.
fn opcode_of_word(word: &str) -> Option<ValueOpcode>
    ensures { MatchOption result
        ((opcode : ValueOpcode) → word.now ≡ opcode_word opcode → ⊥)
        (λ opcode. word.now ≡ opcode_word opcode) }
{
    match word {
        "icmp" => Some(ValueOpcode::Compare),
        "select" => Some(ValueOpcode::Select),
        "extractelement" => Some(ValueOpcode::ExtractElement),
        "insertelement" => Some(ValueOpcode::InsertElement),
        "shufflevector" => Some(ValueOpcode::ShuffleVector),
        "extractvalue" => Some(ValueOpcode::ExtractValue),
        _ => match binary_of_word(word) {
            Some(op) => Some(ValueOpcode::Binary(op)),
            None => match cast_of_word(word) {
                Some(kind) => Some(ValueOpcode::Cast(kind)),
                None => None,
            },
        },
    }
}

/// The binary operation that a word names. None exactly where it names none.
fn binary_of_word(word: &str) -> Option<BinOp>
    ensures { MatchOption result
        ((op : BinOp) → word.now ≡ binary_word op → ⊥)
        (λ op. word.now ≡ binary_word op) }
{
    match word {
        "add" => Some(BinOp::Add),
        "sub" => Some(BinOp::Sub),
        "mul" => Some(BinOp::Mul),
        "udiv" => Some(BinOp::UDiv),
        "sdiv" => Some(BinOp::SDiv),
        "urem" => Some(BinOp::URem),
        "srem" => Some(BinOp::SRem),
        "shl" => Some(BinOp::Shl),
        "lshr" => Some(BinOp::LShr),
        "ashr" => Some(BinOp::AShr),
        "and" => Some(BinOp::And),
        "or" => Some(BinOp::Or),
        "xor" => Some(BinOp::Xor),
        _ => None,
    }
}

/// The conversion that a word names. None exactly where it names none.
fn cast_of_word(word: &str) -> Option<CastKind>
    ensures { MatchOption result
        ((kind : CastKind) → word.now ≡ cast_word kind → ⊥)
        (λ kind. word.now ≡ cast_word kind) }
{
    match word {
        "trunc" => Some(CastKind::Trunc),
        "zext" => Some(CastKind::Zext),
        "sext" => Some(CastKind::Sext),
        "ptrtoint" => Some(CastKind::PtrToInt),
        "inttoptr" => Some(CastKind::IntToPtr),
        "bitcast" => Some(CastKind::Bitcast),
        "addrspacecast" => Some(CastKind::AddrSpaceCast),
        _ => None,
    }
}

/// The predicate with whose word the tokens begin, and the tokens behind it (LLVM 14, `icmp`). It fails by rule 3 at the first
/// token.
pub fn take_predicate<'t, 'a>(tokens: &'t [Token<'a>]) -> Result<(Pred, &'t [Token<'a>]), Refusal>
    ensures read { MatchResult result
        (λ r. word (predicate_word r.0) (lexemes_of tokens.now) (lexemes_of r.1.now))
        (λ refusal. DerivesNone (λ predicate. word (predicate_word predicate)) (lexemes_of tokens.now)) }
    ensures place { IfErr result (λ refusal. refusal ≡ record { rule = 3; left = length tokens.now }) }
{
    match split_first(tokens) {
        Some((first, rest)) if first.kind == TokenKind::Word => {
            match predicate_of_word(first.text) {
                Some(predicate) => Ok((predicate, rest)),
                None => Err(unexpected(tokens)),
            }
        }
        _ => Err(unexpected(tokens)),
    }
}

/// The predicate that a word names. None exactly where it names none.
fn predicate_of_word(word: &str) -> Option<Pred>
    ensures { MatchOption result
        ((predicate : Pred) → word.now ≡ predicate_word predicate → ⊥)
        (λ predicate. word.now ≡ predicate_word predicate) }
{
    match word {
        "eq" => Some(Pred::Eq),
        "ne" => Some(Pred::Ne),
        "ugt" => Some(Pred::Ugt),
        "uge" => Some(Pred::Uge),
        "ult" => Some(Pred::Ult),
        "ule" => Some(Pred::Ule),
        "sgt" => Some(Pred::Sgt),
        "sge" => Some(Pred::Sge),
        "slt" => Some(Pred::Slt),
        "sle" => Some(Pred::Sle),
        _ => None,
    }
}

/// The flags with which the tokens begin, as many as there are, with their places, and the tokens behind them (LLVM 14, Binary
/// Operations).
pub fn take_flags<'t, 'a>(
    alloc: Global,
    tokens: &'t [Token<'a>],
) -> Result<(Items<Flag>, &'t [Token<'a>]), AllocError>
    ensures { IfOk result (λ r. flags_here r.0 (lexemes_of tokens.now) (lexemes_of r.1.now)) }
{
    let mut flags = Items::new(alloc);
    let mut left = tokens.len();
    while let Some((flag, behind)) = take_flag(last(tokens, left)) {
        flags.push(flag)?;
        left = behind.len();
    }
    Ok((flags, last(tokens, left)))
}

/// The flag with which the tokens begin, and the tokens behind it. None exactly where they begin with none.
fn take_flag<'t, 'a>(tokens: &'t [Token<'a>]) -> Option<(Flag, &'t [Token<'a>])>
    ensures { MatchOption result (EndsNowhere any_flag (lexemes_of tokens.now))
        (λ r. flag r.0 (lexemes_of tokens.now) (lexemes_of r.1.now)) }
{
    match split_first(tokens) {
        Some((first, rest)) if first.kind == TokenKind::Word => match flag_of_word(first.text) {
            Some(word) => Some((
                Flag {
                    word,
                    byte: first.byte,
                },
                rest,
            )),
            None => None,
        },
        _ => None,
    }
}

/// The flag that a word names. None exactly where it names none.
fn flag_of_word(word: &str) -> Option<FlagWord>
    ensures { MatchOption result
        ((flag : FlagWord) → word.now ≡ flag_word flag → ⊥)
        (λ flag. word.now ≡ flag_word flag) }
{
    match word {
        "nuw" => Some(FlagWord::Nuw),
        "nsw" => Some(FlagWord::Nsw),
        "exact" => Some(FlagWord::Exact),
        _ => None,
    }
}
