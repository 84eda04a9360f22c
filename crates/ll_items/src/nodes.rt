ghost use Rattle.std.specs.Prelude.{MatchResult};
ghost use Rattle.ll_tokens.specs.Tokens.{lexemes_of};
ghost use Rattle.ll_parser.specs.GrammarItems.{node};
ghost use Rattle.ll_parser.specs.NameReading.{ReadsWith};
ghost use Rattle.ll_items.specs.ItemParts.{node_item};
ghost use Rattle.ll_operands.specs.Parts.{Refuses};

use crate::lists::read_parts;
use crate::openings::take_open_list;
use ll_attributes::{node_name, skip_word_if_there};
use ll_parser::{NameTable, ReadError, take_mark};
use ll_tokens::Token;
use ll_tree::Node;
use std::alloc::Global;

/// The metadata node with which the tokens begin, behind its number, and the tokens behind it (LLVM 14, Metadata Nodes and
/// Metadata Strings). Names are numbered by the table. It fails for want of memory, and at the first token that can't stand where
/// it does: by rule 4 where that is a number out of its range or a name or a node of such digits, else by rule 3.
pub fn read_node<'t, 'a>(
    alloc: Global,
    tokens: &'t [Token<'a>],
    names: &mut NameTable,
) -> Result<(Node, &'t [Token<'a>]), ReadError>
    ensures { MatchResult result
        (λ r. ReadsWith node names.old names.new r.0 (lexemes_of tokens.now) (lexemes_of r.1.now))
        (Refuses node_item (lexemes_of tokens.now)) }
{
    let (name, behind) = node_name(tokens)?;
    let after = take_mark(behind, b'=')?;
    let inside = skip_word_if_there(after, "distinct");
    let opened = take_open_list(inside)?;
    let (parts, rest) = read_parts(alloc, opened, names)?;
    Ok((
        Node {
            number: name.number,
            parts,
            byte: name.byte,
        },
        rest,
    ))
}
