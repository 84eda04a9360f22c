ghost use Rattle.std.specs.Prelude.{MatchResult};
ghost use Rattle.ll_tokens.specs.Tokens.{lexemes_of};
ghost use Rattle.ll_parser.specs.NameReading.{ReadsWith};
ghost use Rattle.ll_operands.specs.Parts.{Refuses};
ghost use Rattle.ll_calls.specs.CallParts.{callee, callee_part};

use ll_attributes::{read_attributes, skip_convention};
use ll_parser::{NameTable, ReadError, global};
use ll_tokens::Token;
use ll_tree::{LlType, Name};
use ll_types::read_type;
use std::alloc::Global;

/// The function that is called, and the type of its result as it is written at the call.
#[derive(Drop)]
pub struct Callee {
    pub ty: LlType,
    pub name: Name,
}

/// The function that is called behind its calling convention and the attributes and the type of its result, with which the
/// tokens begin, and the tokens behind it.
pub fn read_callee<'t, 'a>(
    alloc: Global,
    tokens: &'t [Token<'a>],
    names: &mut NameTable,
) -> Result<(Callee, &'t [Token<'a>]), ReadError>
    ensures { MatchResult result
        (λ r. ReadsWith callee names.old names.new r.0 (lexemes_of tokens.now) (lexemes_of r.1.now))
        (Refuses callee_part (lexemes_of tokens.now)) }
{
    let at_attributes = skip_convention(tokens);
    let (_dropped, at_type) = read_attributes(alloc, at_attributes, names)?;
    let (ty, at_name) = read_type(alloc, at_type, names)?;
    let (name, rest) = global(alloc, at_name, names)?;
    Ok((Callee { ty, name }, rest))
}
