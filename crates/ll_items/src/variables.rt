ghost use Rattle.std.specs.Prelude.{MatchOption, MatchResult, codes};
ghost use Rattle.ll_tokens.specs.Tokens.{lexemes_of};
ghost use Rattle.ll_parser.specs.NameReading.{ReadsWith};
ghost use Rattle.ll_parser.specs.Productions.{word};
ghost use Rattle.ll_parser.specs.Reading.{EndsNowhere};
ghost use Rattle.ll_parser.specs.Spaces.{IsUnexpected};
ghost use Rattle.ll_operands.specs.Parts.{Refuses};
ghost use Rattle.ll_operands.specs.Whole.{align_comma};
ghost use Rattle.ll_items.specs.VariableParts.{align_here, alignment_part, contents, contents_part, variable_head, variable_head_part, variable_here, variable_item, variable_kind};

use ll_attributes::{read_linkage, skip_attachments, skip_unnamed, skip_word_if_there};
use ll_parser::{
    NameTable, ReadError, Refusal, global, number, space, take_mark, take_word, unexpected,
};
use ll_tokens::Token;
use ll_tree::{Linkage, LlType, Value, Variable};
use ll_types::{read_type, read_value};
use std::alloc::Global;

/// What a variable has behind its qualifiers: its type, its first value and its alignment in bytes.
#[derive(Drop)]
pub struct Contents {
    pub ty: LlType,
    pub init: Value,
    pub align: Option<u64>,
}

/// The variable of the module with which the tokens begin, and the tokens behind it and its attachments, of which none is kept
/// (LLVM 14, Global Variables). Names are numbered by the table. It fails for want of memory, and at the first token that can't
/// stand where it does: by rule 4 where that is a number out of its range or a name or a node of such digits, else by rule 3.
pub fn read_variable<'t, 'a>(
    alloc: Global,
    tokens: &'t [Token<'a>],
    names: &mut NameTable,
) -> Result<(Variable, &'t [Token<'a>]), ReadError>
    ensures { MatchResult result
        (λ r. ReadsWith variable_here names.old names.new r.0 (lexemes_of tokens.now) (lexemes_of r.1.now))
        (Refuses variable_item (lexemes_of tokens.now)) }
{
    let (name, behind) = global(alloc, tokens, names)?;
    let after = take_mark(behind, b'=')?;
    let (head, inside) = variable_head(after)?;
    let (contents, rest) = read_contents(alloc, inside, names)?;
    let Contents { ty, init, align } = contents;
    Ok((
        Variable {
            name,
            linkage: head.0,
            space: head.1,
            ty,
            init,
            align,
        },
        rest,
    ))
}

/// The linkage and the address space of a variable, and the tokens behind the `global` or `constant` that follows them. It fails at
/// the first token that can't stand where it does: by rule 4 where that is a number out of its range, else by rule 3.
fn variable_head<'t, 'a>(
    tokens: &'t [Token<'a>],
) -> Result<((Linkage, u64), &'t [Token<'a>]), Refusal>
    ensures { MatchResult result
        (λ r. variable_head r.0.0 r.0.1 (lexemes_of tokens.now) (lexemes_of r.1.now))
        (variable_head_part.stops (lexemes_of tokens.now)) }
{
    let (linkage, behind) = read_linkage(tokens);
    let after = skip_word_if_there(behind, "dso_local");
    let inside = skip_unnamed(after);
    let (value, end) = space(inside)?;
    let rest = take_variable_kind(end)?;
    Ok(((linkage, value), rest))
}

/// What is left behind the `global` or `constant` with which the tokens begin. It fails by rule 3 at the first token.
fn take_variable_kind<'t, 'a>(tokens: &'t [Token<'a>]) -> Result<&'t [Token<'a>], Refusal>
    ensures { MatchResult result
        (λ rest. variable_kind (lexemes_of tokens.now) (lexemes_of rest.now))
        (IsUnexpected variable_kind (lexemes_of tokens.now)) }
{
    if let Ok(rest) = take_word(tokens, "global") {
        return Ok(rest);
    }
    if let Ok(rest) = take_word(tokens, "constant") {
        return Ok(rest);
    }
    Err(unexpected(tokens))
}

/// The type, the first value and the alignment of a variable, and the tokens behind its attachments.
fn read_contents<'t, 'a>(
    alloc: Global,
    tokens: &'t [Token<'a>],
    names: &mut NameTable,
) -> Result<(Contents, &'t [Token<'a>]), ReadError>
    ensures { MatchResult result
        (λ r. ReadsWith contents names.old names.new r.0 (lexemes_of tokens.now) (lexemes_of r.1.now))
        (Refuses contents_part (lexemes_of tokens.now)) }
{
    let (ty, behind) = read_type(alloc, tokens, names)?;
    let (init, after) = read_value(alloc, behind, &ty, names)?;
    let (align, inside) = read_align(after)?;
    let rest = skip_attachments(inside)?;
    Ok((Contents { ty, init, align }, rest))
}

/// The alignment with which the tokens begin, and the tokens behind it. It is there where a comma and `align` begin them, and fails
/// behind these: by rule 4 at a number out of its range, else by rule 3.
fn read_align<'t, 'a>(tokens: &'t [Token<'a>]) -> Result<(Option<u64>, &'t [Token<'a>]), Refusal>
    ensures { MatchResult result
        (λ r. align_here r.0 (lexemes_of tokens.now) (lexemes_of r.1.now))
        (alignment_part.stops (lexemes_of tokens.now)) }
{
    match behind_align(tokens) {
        Some(behind) => {
            let (bytes, rest) = number(behind)?;
            Ok((Some(bytes), rest))
        }
        None => Ok((None, tokens)),
    }
}

/// The tokens behind a comma and `align`. None exactly where these don't begin the tokens.
fn behind_align<'t, 'a>(tokens: &'t [Token<'a>]) -> Option<&'t [Token<'a>]>
    ensures { MatchOption result (EndsNowhere align_comma (lexemes_of tokens.now))
        (λ rest. align_comma (lexemes_of tokens.now) (lexemes_of rest.now)) }
{
    match take_mark(tokens, b',') {
        Ok(behind) => behind_word(behind),
        Err(_no_comma) => None,
    }
}

/// The tokens behind `align`. None exactly where it doesn't begin the tokens.
fn behind_word<'t, 'a>(tokens: &'t [Token<'a>]) -> Option<&'t [Token<'a>]>
    ensures { MatchOption result (EndsNowhere (word (codes "align")) (lexemes_of tokens.now))
        (λ rest. word (codes "align") (lexemes_of tokens.now) (lexemes_of rest.now)) }
{
    match take_word(tokens, "align") {
        Ok(rest) => Some(rest),
        Err(_no_word) => None,
    }
}
