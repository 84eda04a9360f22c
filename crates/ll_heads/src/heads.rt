ghost use Rattle.std.specs.Prelude.{MatchResult};
ghost use Rattle.ll_tokens.specs.Tokens.{lexemes_of};
ghost use Rattle.ll_parser.specs.NameReading.{ReadsWith};
ghost use Rattle.ll_operands.specs.Parts.{Refuses};
ghost use Rattle.ll_heads.specs.HeadParts.{back_part, declaration_part, front_part, head_part};
ghost use Rattle.ll_heads.specs.Heads.{back_here, declaration_here, front_here, placed_head};

use crate::params::{first_place, read_params};
use ll_attributes::{
    is_kernel, read_attributes, read_linkage, skip_function_attributes, skip_unnamed,
    skip_word_if_there,
};
use ll_parser::{NameTable, ReadError, Refusal, global, take_mark, take_word};
use ll_tokens::Token;
use ll_tree::{Attribute, Head, Linkage, LlType, Name};
use ll_types::read_type;
use sqlite_items::Items;
use std::alloc::Global;

/// What stands before the parameters of a function, behind its first word.
#[derive(Drop)]
pub struct Front {
    pub linkage: Linkage,
    pub is_kernel: bool,
    pub attributes: Items<Attribute>,
    pub ty: LlType,
    pub name: Name,
}

/// The declaration with which the tokens begin, with all its attributes, and the tokens behind it (LLVM 14, Functions). Names are
/// numbered by the table. It fails for want of memory, and at the first token that can't stand where it does: by rule 4 where
/// that is a number out of its range or a name or a group of attributes of such digits, else by rule 3.
pub fn read_declaration<'t, 'a>(
    alloc: Global,
    tokens: &'t [Token<'a>],
    names: &mut NameTable,
) -> Result<(Head, &'t [Token<'a>]), ReadError>
    ensures { MatchResult result
        (λ r. ReadsWith declaration_here names.old names.new r.0 (lexemes_of tokens.now) (lexemes_of r.1.now))
        (Refuses declaration_part (lexemes_of tokens.now)) }
{
    let byte = first_place(tokens);
    let behind = take_word(tokens, "declare")?;
    let mut numbering = None;
    let (head, rest) = read_head(alloc, behind, byte, names, &mut numbering)?;
    Ok((head, rest))
}

/// The head behind its first word, which has this place. Parameters without a name are numbered where there is a numbering.
pub fn read_head<'t, 'a>(
    alloc: Global,
    tokens: &'t [Token<'a>],
    byte: u64,
    names: &mut NameTable,
    numbering: &mut Option<u32>,
) -> Result<(Head, &'t [Token<'a>]), ReadError>
    ensures { MatchResult result
        (λ r. ReadsWith (placed_head byte numbering.old numbering.new) names.old names.new r.0 (lexemes_of tokens.now) (lexemes_of r.1.now))
        (Refuses head_part (lexemes_of tokens.now)) }
{
    let (front, behind) = read_front(alloc, tokens, names)?;
    let inside = take_mark(behind, b'(')?;
    let (params, end) = read_params(alloc, inside, names, numbering)?;
    let rest = skip_back(end)?;
    let Front {
        linkage,
        is_kernel,
        attributes,
        ty,
        name,
    } = front;
    Ok((
        Head {
            byte,
            name,
            linkage,
            is_kernel,
            attributes,
            ty,
            params,
        },
        rest,
    ))
}

/// What stands before the parameters.
fn read_front<'t, 'a>(
    alloc: Global,
    tokens: &'t [Token<'a>],
    names: &mut NameTable,
) -> Result<(Front, &'t [Token<'a>]), ReadError>
    ensures { MatchResult result
        (λ r. ReadsWith front_here names.old names.new r.0 (lexemes_of tokens.now) (lexemes_of r.1.now))
        (Refuses front_part (lexemes_of tokens.now)) }
{
    let (linkage, behind_linkage) = read_linkage(tokens);
    let at_convention = skip_word_if_there(behind_linkage, "dso_local");
    let (is_kernel, behind_convention) = is_kernel(at_convention);
    let (attributes, at_type) = read_attributes(alloc, behind_convention, names)?;
    let (ty, at_name) = read_type(alloc, at_type, names)?;
    let (name, rest) = global(alloc, at_name, names)?;
    Ok((
        Front {
            linkage,
            is_kernel,
            attributes,
            ty,
            name,
        },
        rest,
    ))
}

/// What is left behind all that stands behind the parameters.
fn skip_back<'t, 'a>(tokens: &'t [Token<'a>]) -> Result<&'t [Token<'a>], Refusal>
    ensures { MatchResult result
        (λ rest. back_here (lexemes_of tokens.now) (lexemes_of rest.now))
        (back_part.stops (lexemes_of tokens.now)) }
{
    let behind = skip_unnamed(tokens);
    let rest = skip_function_attributes(behind)?;
    Ok(rest)
}
