ghost use Rattle.std.specs.Prelude.{◌≡◌, ◌↔◌, IsTrue, MatchOption, MatchResult};
ghost use Rattle.ll_tokens.specs.Tokens.{lexemes_of};
ghost use Rattle.ll_parser.specs.NameReading.{ReadsWith};
ghost use Rattle.kernel_text.specs.Parts.{AtReturn, NextFails, all_of, defining, definition, inst_here, insts_end, storing};
ghost use Rattle.kernel_text.specs.Reading.{Fails};

use crate::error::KernelTextError;
use crate::name_sorts::NameSort;
use crate::names::written_name;
use crate::operands::{Operation, StoreOperands, read_operation, store_operands};
use crate::phrases::{Phrase, take};
use kernel_tree::KernelInst;
use ll_parser::{NameTable, last};
use ll_tokens::Token;
use ll_tree::Name;
use sqlite_items::Items;
use std::alloc::Global;

/// The instruction that defines a value of this name.
fn defining(name: Name, operation: Operation) -> KernelInst
    ensures { result ≡ defining name operation }
{
    match operation {
        Operation::Add { left, right } => KernelInst::Add {
            sum: name,
            left,
            right,
        },
        Operation::Load(access) => KernelInst::Load {
            loaded: name,
            pointer: access.pointer,
            is_aligned: access.is_aligned,
        },
    }
}

/// The definition of a value with which the tokens begin, and the tokens behind it.
fn definition<'t, 'a>(
    alloc: Global,
    tokens: &'t [Token<'a>],
    names: &mut NameTable,
) -> Result<((Name, Operation), &'t [Token<'a>]), KernelTextError>
    ensures { MatchResult result
        (λ r. ReadsWith definition names.old names.new r.0 (lexemes_of tokens.now) (lexemes_of r.1.now))
        (Fails definition (lexemes_of tokens.now)) }
{
    let (name, behind) = written_name(alloc, tokens, NameSort::Value, names)?;
    let (operation, rest) = read_operation(alloc, behind, names)?;
    Ok(((name, operation), rest))
}

/// The instruction with which the tokens begin, and the tokens behind it.
fn inst<'t, 'a>(
    alloc: Global,
    tokens: &'t [Token<'a>],
    names: &mut NameTable,
) -> Result<(KernelInst, &'t [Token<'a>]), KernelTextError>
    ensures { MatchResult result
        (λ r. ReadsWith inst_here names.old names.new r.0 (lexemes_of tokens.now) (lexemes_of r.1.now))
        (Fails inst_here (lexemes_of tokens.now)) }
{
    match take(tokens, Phrase::StoreWords) {
        Ok(behind) => {
            let (operands, rest) = store_operands(alloc, behind, names)?;
            Ok((store(operands), rest))
        }
        Err(_no_store) => {
            let ((name, operation), rest) = definition(alloc, tokens, names)?;
            Ok((defining(name, operation), rest))
        }
    }
}

/// The store with these operands.
fn store(operands: StoreOperands) -> KernelInst
    ensures { result ≡ storing operands }
{
    KernelInst::Store {
        value: operands.value,
        pointer: operands.access.pointer,
        is_aligned: operands.access.is_aligned,
    }
}

/// The instruction with which the tokens begin, and the tokens behind it. None exactly where they begin with `ret`.
fn next_inst<'t, 'a>(
    alloc: Global,
    tokens: &'t [Token<'a>],
    names: &mut NameTable,
) -> Result<Option<(KernelInst, &'t [Token<'a>])>, KernelTextError>
    ensures { MatchResult result
        (λ found. MatchOption found ((names.new ≡ names.old) × AtReturn (lexemes_of tokens.now))
        (λ r. ReadsWith inst_here names.old names.new r.0 (lexemes_of tokens.now) (lexemes_of r.1.now)))
        (NextFails inst_here AtReturn (lexemes_of tokens.now)) }
{
    match take(tokens, Phrase::Return) {
        Ok(_behind) => Ok(None),
        Err(_no_return) => Ok(Some(inst(alloc, tokens, names)?)),
    }
}

/// The instructions up to the first `ret`, and the tokens from it on.
fn insts<'t, 'a>(
    alloc: Global,
    tokens: &'t [Token<'a>],
    names: &mut NameTable,
) -> Result<(Items<KernelInst>, &'t [Token<'a>]), KernelTextError>
    ensures { MatchResult result
        (λ r. ReadsWith (all_of inst_here AtReturn) names.old names.new r.0 (lexemes_of tokens.now) (lexemes_of r.1.now))
        (Fails (all_of inst_here AtReturn) (lexemes_of tokens.now)) }
{
    let mut insts = Items::new(alloc);
    let mut left = tokens.len();
    while let Some((inst, behind)) = next_inst(alloc, last(tokens, left), names)? {
        insts.push(inst)?;
        left = behind.len();
    }
    Ok((insts, last(tokens, left)))
}

/// The instructions with which the tokens begin, the `ret void }` behind them, and the tokens behind that.
pub fn insts_end<'t, 'a>(
    alloc: Global,
    tokens: &'t [Token<'a>],
    names: &mut NameTable,
) -> Result<(Items<KernelInst>, &'t [Token<'a>]), KernelTextError>
    ensures { MatchResult result
        (λ r. ReadsWith insts_end names.old names.new r.0 (lexemes_of tokens.now) (lexemes_of r.1.now))
        (Fails insts_end (lexemes_of tokens.now)) }
{
    let (insts, behind) = insts(alloc, tokens, names)?;
    let rest = take(behind, Phrase::BodyEnd)?;
    Ok((insts, rest))
}
