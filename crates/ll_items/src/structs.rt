ghost use Rattle.std.specs.Prelude.{MatchResult};
ghost use Rattle.ll_tokens.specs.Tokens.{lexemes_of};
ghost use Rattle.ll_parser.specs.NameReading.{ReadsWith};
ghost use Rattle.ll_items.specs.ItemParts.{struct_here, struct_item};
ghost use Rattle.ll_operands.specs.Parts.{Refuses};

use ll_parser::{NameTable, ReadError, take_mark, take_word, type_name};
use ll_tokens::Token;
use ll_tree::Struct;
use ll_types::read_type;
use std::alloc::Global;

/// The definition of a struct type with which the tokens begin, with all pointers of the type, and the tokens behind it (LLVM 14,
/// Structure Type). Names are numbered by the table. It fails for want of memory, and at the first token that can't stand where
/// it does: by rule 4 where that is a number out of its range or a name of such digits, else by rule 3.
pub fn read_struct_type<'t, 'a>(
    alloc: Global,
    tokens: &'t [Token<'a>],
    names: &mut NameTable,
) -> Result<(Struct, &'t [Token<'a>]), ReadError>
    ensures { MatchResult result
        (λ r. ReadsWith struct_here names.old names.new r.0 (lexemes_of tokens.now) (lexemes_of r.1.now))
        (Refuses struct_item (lexemes_of tokens.now)) }
{
    let (name, behind) = type_name(alloc, tokens, names)?;
    let after = take_mark(behind, b'=')?;
    let inside = take_word(after, "type")?;
    let (ty, rest) = read_type(alloc, inside, names)?;
    Ok((Struct { name, ty }, rest))
}
