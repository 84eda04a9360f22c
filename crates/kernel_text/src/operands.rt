ghost use Rattle.std.specs.Prelude.{◌≡◌, MatchResult};
ghost use Rattle.ll_tokens.specs.Tokens.{lexemes_of};
ghost use Rattle.ll_parser.specs.NameReading.{ReadsWith};
ghost use Rattle.ll_parser.specs.Reading.{DerivesNone};
ghost use Rattle.kernel_text.specs.Parts.{access, align_here, load, pair, store_operands, operation};
ghost use Rattle.kernel_text.specs.Reading.{Fails};

use crate::error::KernelTextError;
use crate::name_sorts::NameSort;
use crate::names::written_name;
use crate::phrases::{Phrase, take};
use ll_parser::NameTable;
use ll_tokens::Token;
use ll_tree::Name;
use std::alloc::Global;

/// The address of a load or a store, and whether its alignment is written.
#[derive(Clone, Copy, Debug, PartialEq, Eq)]
pub struct Access {
    pub pointer: Name,
    pub is_aligned: bool,
}

/// What a store takes.
#[derive(Clone, Copy, Debug, PartialEq, Eq)]
pub struct StoreOperands {
    pub value: Name,
    pub access: Access,
}

/// What defines a value.
#[derive(Clone, Copy, Debug, PartialEq, Eq)]
pub enum Operation {
    Add { left: Name, right: Name },
    Load(Access),
}

/// Whether an alignment begins the tokens, as one does where a comma stands, and the tokens behind it.
fn align<'t, 'a>(tokens: &'t [Token<'a>]) -> Result<(bool, &'t [Token<'a>]), KernelTextError>
    ensures { MatchResult result
        (λ r. align_here r.0 (lexemes_of tokens.now) (lexemes_of r.1.now))
        (λ error. DerivesNone align_here (lexemes_of tokens.now)) }
{
    match take(tokens, Phrase::Comma) {
        Ok(_behind) => {
            let rest = take(tokens, Phrase::Align)?;
            Ok((true, rest))
        }
        Err(_no_comma) => Ok((false, tokens)),
    }
}

/// The pointer with which the tokens begin, with its alignment, and the tokens behind it.
fn read_access<'t, 'a>(
    alloc: Global,
    tokens: &'t [Token<'a>],
    names: &mut NameTable,
) -> Result<(Access, &'t [Token<'a>]), KernelTextError>
    ensures { MatchResult result
        (λ r. ReadsWith access names.old names.new r.0 (lexemes_of tokens.now) (lexemes_of r.1.now))
        (Fails access (lexemes_of tokens.now)) }
{
    let (pointer, behind) = written_name(alloc, tokens, NameSort::Value, names)?;
    let (is_aligned, rest) = align(behind)?;
    Ok((
        Access {
            pointer,
            is_aligned,
        },
        rest,
    ))
}

/// The two names with which the tokens begin, a comma between them, and the tokens behind them.
fn pair<'t, 'a>(
    alloc: Global,
    tokens: &'t [Token<'a>],
    names: &mut NameTable,
) -> Result<((Name, Name), &'t [Token<'a>]), KernelTextError>
    ensures { MatchResult result
        (λ r. ReadsWith pair names.old names.new r.0 (lexemes_of tokens.now) (lexemes_of r.1.now))
        (Fails pair (lexemes_of tokens.now)) }
{
    let (left, behind) = written_name(alloc, tokens, NameSort::Value, names)?;
    let second = take(behind, Phrase::Comma)?;
    let (right, rest) = written_name(alloc, second, NameSort::Value, names)?;
    Ok(((left, right), rest))
}

/// The operands of a store with which the tokens begin, and the tokens behind them.
pub fn store_operands<'t, 'a>(
    alloc: Global,
    tokens: &'t [Token<'a>],
    names: &mut NameTable,
) -> Result<(StoreOperands, &'t [Token<'a>]), KernelTextError>
    ensures { MatchResult result
        (λ r. ReadsWith store_operands names.old names.new r.0 (lexemes_of tokens.now) (lexemes_of r.1.now))
        (Fails store_operands (lexemes_of tokens.now)) }
{
    let (value, behind) = written_name(alloc, tokens, NameSort::Value, names)?;
    let second = take(behind, Phrase::PointerOperand)?;
    let (access, rest) = read_access(alloc, second, names)?;
    Ok((StoreOperands { value, access }, rest))
}

/// The operands of a load, behind its first words, with which the tokens begin, and the tokens behind them.
fn load<'t, 'a>(
    alloc: Global,
    tokens: &'t [Token<'a>],
    names: &mut NameTable,
) -> Result<(Access, &'t [Token<'a>]), KernelTextError>
    ensures { MatchResult result
        (λ r. ReadsWith load names.old names.new r.0 (lexemes_of tokens.now) (lexemes_of r.1.now))
        (Fails load (lexemes_of tokens.now)) }
{
    let behind = take(tokens, Phrase::LoadWords)?;
    read_access(alloc, behind, names)
}

/// What defines a value, behind the value's name, with which the tokens begin, and the tokens behind it.
pub fn read_operation<'t, 'a>(
    alloc: Global,
    tokens: &'t [Token<'a>],
    names: &mut NameTable,
) -> Result<(Operation, &'t [Token<'a>]), KernelTextError>
    ensures { MatchResult result
        (λ r. ReadsWith operation names.old names.new r.0 (lexemes_of tokens.now) (lexemes_of r.1.now))
        (Fails operation (lexemes_of tokens.now)) }
{
    match take(tokens, Phrase::AddWords) {
        Ok(behind) => {
            let ((left, right), rest) = pair(alloc, behind, names)?;
            Ok((Operation::Add { left, right }, rest))
        }
        Err(_no_sum) => {
            let (access, rest) = load(alloc, tokens, names)?;
            Ok((Operation::Load(access), rest))
        }
    }
}
