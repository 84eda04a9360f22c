ghost use Rattle.std.specs.Prelude.{◌≡◌, drop, IfOk, MatchResult};
ghost use Rattle.ll_tokens.specs.declared.kinds.TokenKind.TheVariants.{MdName};
ghost use Rattle.ll_tokens.specs.Tokens.{Lexeme, lexemes_of};
ghost use Rattle.ll_parser.specs.GrammarItems.{named_nodes};
ghost use Rattle.ll_parser.specs.NameReading.{any_of};
ghost use Rattle.ll_parser.specs.Productions.{token};
ghost use Rattle.ll_parser.specs.Spaces.{IsUnexpected};
ghost use Rattle.ll_types.specs.ValueRefusals.{Unless};
ghost use Rattle.ll_items.specs.ItemParts.{named_item};
ghost use Rattle.ll_operands.specs.Parts.{Refuses};

use crate::lists::read_node_names;
use crate::node_parts::behind_sign;
use crate::openings::take_open_list;
use ll_parser::{ReadError, is_of_kind, split_first, take_mark, unexpected};
use ll_tokens::{Token, TokenKind};
use ll_tree::NodeRef;
use sqlite_items::Items;
use std::alloc::Global;

/// Named metadata: its name, behind the `!`, and its nodes (LLVM 14, Named Metadata).
#[derive(Drop)]
pub struct NamedNodes {
    pub name: Items<u8>,
    pub nodes: Items<NodeRef>,
}

/// The named metadata with which the tokens begin, and the tokens behind it (LLVM 14, Named Metadata). It fails for want of
/// memory, and at the first token that can't stand where it does: by rule 4 where that is a node whose number is 2^31 or more,
/// else by rule 3.
pub fn read_named_nodes<'t, 'a>(
    alloc: Global,
    tokens: &'t [Token<'a>],
) -> Result<(NamedNodes, &'t [Token<'a>]), ReadError>
    ensures { MatchResult result
        (λ r. named_nodes r.0.name r.0.nodes (lexemes_of tokens.now) (lexemes_of r.1.now))
        (Refuses named_item (lexemes_of tokens.now)) }
{
    let (name, behind) = metadata_name(alloc, tokens)?;
    let after = take_mark(behind, b'=')?;
    let opened = take_open_list(after)?;
    let (nodes, rest) = read_node_names(alloc, opened)?;
    Ok((NamedNodes { name, nodes }, rest))
}

/// The name of metadata, behind its `!`, with which the tokens begin, and the tokens behind it. It fails for want of memory, and by
/// rule 3 at the first token.
fn metadata_name<'t, 'a>(
    alloc: Global,
    tokens: &'t [Token<'a>],
) -> Result<(Items<u8>, &'t [Token<'a>]), ReadError>
    ensures { MatchResult result
        (λ r. token MdName (λ (lexeme : Lexeme). drop 1 lexeme.text ≡ r.0) (lexemes_of tokens.now) (lexemes_of r.1.now))
        (Unless (IsUnexpected (any_of MdName) (lexemes_of tokens.now))) }
{
    match split_first(tokens) {
        Some((first, rest)) if is_of_kind(&first, TokenKind::MdName) => Ok((
            Items::from_slice(alloc, behind_sign(first.text.as_bytes()))?,
            rest,
        )),
        _ => Err(ReadError::Refused(unexpected(tokens))),
    }
}
