ghost use Rattle.std.specs.Prelude.{◌≡◌, ℕ, slice_get, IfOk, MatchResult};
ghost use Rattle.ll_tokens.specs.Tokens.{lexemes_of};
ghost use Rattle.ll_parser.specs.NameReading.{ReadsWith};
ghost use Rattle.ll_parser.specs.GrammarFunctions.{next_behind};
ghost use Rattle.kernel_text.specs.Grammar.{number_behind};
ghost use Rattle.kernel_text.specs.Parts.{block, block_name_here};
ghost use Rattle.kernel_text.specs.Reading.{Fails};

use crate::error::KernelTextError;
use crate::insts::insts_end;
use crate::name_sorts::NameSort;
use crate::names::written_name;
use kernel_tree::{KernelInst, KernelParam};
use ll_parser::{NameTable, is_of_kind, split_first};
use ll_tokens::{Token, TokenKind};
use ll_tree::{Name, NameKind, NameText, Spelling};
use sqlite_items::Items;
use std::alloc::{AllocError, Global};

/// A block, up to its `ret void`.
#[derive(Drop)]
pub struct BlockText {
    pub name: Name,
    pub insts: Items<KernelInst>,
}

/// The next number behind those of the parameters. It fails only where there are 2^32 of these.
pub fn number_behind(names: &NameTable, params: &[KernelParam]) -> Result<u32, AllocError>
    ensures { IfOk result (λ number. number ≡ number_behind names.now params.now) }
{
    let mut number: u32 = 0;
    for param in params {
        number = next_behind(names, param.name.number, number)?;
    }
    Ok(number)
}

/// The next number behind a name, given the one before it.
fn next_behind(names: &NameTable, name: u32, number: u32) -> Result<u32, AllocError>
    ensures { IfOk result (λ next. next ≡ next_behind names.now (slice_get names.now name) number) }
{
    match names.name(name) {
        Some(entry) => match entry.spelling {
            Spelling::Number(_) => number.checked_add(1).ok_or(AllocError),
            Spelling::Text(_) => Ok(number),
        },
        None => Ok(number),
    }
}

/// The label with which the tokens begin, or the name of a block without one, which is this number, at the place of the
/// first token; and the tokens behind it.
fn block_name<'t, 'a>(
    alloc: Global,
    tokens: &'t [Token<'a>],
    number: u32,
    names: &mut NameTable,
) -> Result<(Name, &'t [Token<'a>]), KernelTextError>
    ensures { MatchResult result
        (λ r. ReadsWith (block_name_here number) names.old names.new r.0 (lexemes_of tokens.now) (lexemes_of r.1.now))
        (λ error. (next : ℕ) → Fails (block_name_here next) (lexemes_of tokens.now) error) }
{
    let Some((first, _)) = split_first(tokens) else {
        return Err(KernelTextError::Outside);
    };
    if is_of_kind(&first, TokenKind::Label) {
        return written_name(alloc, tokens, NameSort::Label, names);
    }
    let number = names.number_of(NameText {
        kind: NameKind::Local,
        spelling: Spelling::Number(number),
    })?;
    Ok((
        Name {
            number,
            byte: first.byte,
        },
        tokens,
    ))
}

/// The block with which the tokens begin, whose name is this number where it has no label, and the tokens behind it and its
/// `}`.
pub fn block<'t, 'a>(
    alloc: Global,
    tokens: &'t [Token<'a>],
    number: u32,
    names: &mut NameTable,
) -> Result<(BlockText, &'t [Token<'a>]), KernelTextError>
    ensures { MatchResult result
        (λ r. ReadsWith (block number) names.old names.new r.0 (lexemes_of tokens.now) (lexemes_of r.1.now))
        (λ error. (next : ℕ) → Fails (block next) (lexemes_of tokens.now) error) }
{
    let (name, behind) = block_name(alloc, tokens, number, names)?;
    let (insts, rest) = insts_end(alloc, behind, names)?;
    Ok((BlockText { name, insts }, rest))
}
