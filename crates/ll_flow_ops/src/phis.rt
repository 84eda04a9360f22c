ghost use Rattle.std.specs.Prelude.{◌≡◌, ◌++◌, ◌∷◌, [], false, IsTrue, MatchOption, MatchResult, OnOk};
ghost use Rattle.ll_tokens.specs.Tokens.{lexemes_of};
ghost use Rattle.ll_tree.specs.Types.{int_width};
ghost use Rattle.ll_parser.specs.NameReading.{ReadsWith};
ghost use Rattle.ll_parser.specs.Productions.{mark};
ghost use Rattle.ll_parser.specs.Reading.{EndsNowhere};
ghost use Rattle.ll_operands.specs.Parts.{Begins, Refuses, optional, repeated};
ghost use Rattle.ll_operands.specs.Whole.{entry_comma};
ghost use Rattle.ll_flow_ops.specs.declared.opcodes.FlowOpcode.TheVariants as opcode;
ghost use Rattle.ll_flow_ops.specs.FlowOperations.{behind};
ghost use Rattle.ll_flow_ops.specs.FlowParts.{
  entries_of,
  entries_part,
  entry_of,
  entry_part,
  more_entries_of,
  next_entry,
  next_entry_part,
  phi_part,
};

use ll_parser::{NameTable, ReadError, last, local, take_mark};
use ll_tokens::Token;
use ll_tree::{LlType, Op, Parts, PhiEntry};
use ll_types::{read_type, read_value};
use std::alloc::{AllocError, Global};

/// A phi: a type, and entries with commas between them (LLVM 14, `phi`).
pub fn read_phi<'t, 'a>(
    alloc: Global,
    tokens: &'t [Token<'a>],
    names: &mut NameTable,
) -> Result<(Op, &'t [Token<'a>]), ReadError>
    ensures { MatchResult result
        (λ r. ReadsWith (behind opcode.Phi) names.old names.new r.0 (lexemes_of tokens.now) (lexemes_of r.1.now))
        (Refuses phi_part (lexemes_of tokens.now)) }
{
    let (ty, behind) = read_type(alloc, tokens, names)?;
    let (entries, rest) = read_entries(alloc, behind, &ty, names)?;
    Ok((Op::Phi { ty, entries }, rest))
}

/// The entries of this type with which the tokens begin, one at least, and the tokens behind them.
fn read_entries<'t, 'a>(
    alloc: Global,
    tokens: &'t [Token<'a>],
    ty: &LlType,
    names: &mut NameTable,
) -> Result<(Parts<PhiEntry>, &'t [Token<'a>]), ReadError>
    ensures { MatchResult result
        (λ r. ReadsWith (entries_of ty.now) names.old names.new r.0 (lexemes_of tokens.now) (lexemes_of r.1.now))
        (Refuses (entries_part (int_width ty.now)) (lexemes_of tokens.now)) }
{
    let (first, behind) = read_entry(alloc, tokens, ty, names)?;
    let mut entries = Parts::new(alloc);
    push_entry(&mut entries, first)?;
    let (entries, rest) = read_more_entries(alloc, entries, behind, ty, names)?;
    Ok((entries, rest))
}

/// The entries with those behind commas with which the tokens begin behind them, as many as there are, and the tokens behind
/// those.
fn read_more_entries<'t, 'a>(
    alloc: Global,
    mut entries: Parts<PhiEntry>,
    tokens: &'t [Token<'a>],
    ty: &LlType,
    names: &mut NameTable,
) -> Result<(Parts<PhiEntry>, &'t [Token<'a>]), ReadError>
    ensures { MatchResult result
        (λ r. ReadsWith (more_entries_of ty.now entries) names.old names.new r.0 (lexemes_of tokens.now) (lexemes_of r.1.now))
        (Refuses (repeated entry_comma (next_entry_part (int_width ty.now))) (lexemes_of tokens.now)) }
{
    let mut left = tokens.len();
    while let Some((entry, behind)) = read_next_entry(alloc, last(tokens, left), ty, names)? {
        push_entry(&mut entries, entry)?;
        left = behind.len();
    }
    Ok((entries, last(tokens, left)))
}

/// Adds an entry behind the others.
fn push_entry(entries: &mut Parts<PhiEntry>, entry: PhiEntry) -> Result<(), AllocError>
    ensures { OnOk result (entries.new ≡ entries.old ++ entry ∷ []) }
{
    match entries.push(entry) {
        Ok(()) => Ok(()),
        Err(_no_memory) => Err(AllocError),
    }
}

/// The entry behind a comma with which the tokens begin, and the tokens behind it. None exactly where they begin with no comma
/// before a `[`.
fn read_next_entry<'t, 'a>(
    alloc: Global,
    tokens: &'t [Token<'a>],
    ty: &LlType,
    names: &mut NameTable,
) -> Result<Option<(PhiEntry, &'t [Token<'a>])>, ReadError>
    ensures { MatchResult result
        (λ found. MatchOption found ((names.new ≡ names.old) × EndsNowhere entry_comma (lexemes_of tokens.now))
        (λ r. ReadsWith (next_entry ty.now) names.old names.new r.0 (lexemes_of tokens.now) (lexemes_of r.1.now)))
        (Refuses (optional entry_comma (next_entry_part (int_width ty.now))) (lexemes_of tokens.now)) }
{
    match take_entry_comma(tokens) {
        Some(behind) => {
            let (entry, rest) = read_entry(alloc, behind, ty, names)?;
            Ok(Some((entry, rest)))
        }
        None => Ok(None),
    }
}

/// The tokens behind the comma with which the tokens begin, of which the first is a `[`. None exactly where there are no such.
fn take_entry_comma<'t, 'a>(tokens: &'t [Token<'a>]) -> Option<&'t [Token<'a>]>
    ensures { MatchOption result (EndsNowhere entry_comma (lexemes_of tokens.now))
        (λ behind. mark 44 (lexemes_of tokens.now) (lexemes_of behind.now) × Begins (mark 91) (lexemes_of behind.now)) }
{
    match take_mark(tokens, b',') {
        Ok(behind) => {
            if begins_with_bracket(behind) {
                Some(behind)
            } else {
                None
            }
        }
        Err(_no_comma) => None,
    }
}

/// Whether the tokens begin with `[`.
fn begins_with_bracket(tokens: &[Token<'_>]) -> bool
    ensures there { IsTrue result → Begins (mark 91) (lexemes_of tokens.now) }
    ensures absent { result ≡ false → EndsNowhere (mark 91) (lexemes_of tokens.now) }
{
    match take_mark(tokens, b'[') {
        Ok(_inside) => true,
        Err(_no_bracket) => false,
    }
}

/// The value of this type and the block with which the tokens begin between brackets, and the tokens behind them.
fn read_entry<'t, 'a>(
    alloc: Global,
    tokens: &'t [Token<'a>],
    ty: &LlType,
    names: &mut NameTable,
) -> Result<(PhiEntry, &'t [Token<'a>]), ReadError>
    ensures { MatchResult result
        (λ r. ReadsWith (entry_of ty.now) names.old names.new r.0 (lexemes_of tokens.now) (lexemes_of r.1.now))
        (Refuses (entry_part (int_width ty.now)) (lexemes_of tokens.now)) }
{
    let inside = take_mark(tokens, b'[')?;
    let (value, behind) = read_value(alloc, inside, ty, names)?;
    let after = take_mark(behind, b',')?;
    let (block, end) = local(alloc, after, names)?;
    let rest = take_mark(end, b']')?;
    Ok((PhiEntry { value, block }, rest))
}
