ghost use Rattle.std.specs.Prelude.{◌≡◌, ◌-◌, drop, length, take, IfOk, MatchOption, MatchResult};
ghost use Rattle.ll_tokens.specs.declared.kinds.TokenKind.TheVariants.{MdStr, Mdn};
ghost use Rattle.ll_tokens.specs.Tokens.{Lexeme, lexemes_of};
ghost use Rattle.ll_parser.specs.GrammarAttributes.{node_name};
ghost use Rattle.ll_parser.specs.GrammarItems.{node_part};
ghost use Rattle.ll_parser.specs.NameReading.{ReadsWith, any_of};
ghost use Rattle.ll_parser.specs.Productions.{token};
ghost use Rattle.ll_parser.specs.Reading.{EndsNowhere};
ghost use Rattle.ll_parser.specs.Spellings.{between_quotes};
ghost use Rattle.ll_items.specs.ItemParts.{metadata_part};
ghost use Rattle.ll_attributes.specs.Attachments.{IsNoNode};
ghost use Rattle.ll_operands.specs.Parts.{Begins, Refuses};

use ll_attributes::node_name;
use ll_parser::{NameTable, ReadError, Refusal, is_of_kind, split_first, take_word, unescaped};
use ll_tokens::{Token, TokenKind};
use ll_tree::{NodePart, NodeRef};
use ll_types::read_typed;
use sqlite_items::Items;
use std::alloc::{AllocError, Global};

/// The part of a metadata node with which the tokens begin, and the tokens behind it (LLVM 14, Metadata Nodes and Metadata
/// Strings). Names are numbered by the table. It fails for want of memory, and at the first token that can't stand where it does:
/// by rule 4 where that is a number out of its range or a name or a node of such digits, else by rule 3.
pub fn read_node_part<'t, 'a>(
    alloc: Global,
    tokens: &'t [Token<'a>],
    names: &mut NameTable,
) -> Result<(NodePart, &'t [Token<'a>]), ReadError>
    ensures { MatchResult result
        (λ r. ReadsWith node_part names.old names.new r.0 (lexemes_of tokens.now) (lexemes_of r.1.now))
        (Refuses metadata_part (lexemes_of tokens.now)) }
{
    if let Some((node, rest)) = node_if_there(tokens)? {
        return Ok((NodePart::Node(node), rest));
    }
    if let Some((text, rest)) = text_if_there(alloc, tokens)? {
        return Ok((NodePart::Text(text), rest));
    }
    if let Ok(rest) = take_word(tokens, "null") {
        return Ok((NodePart::Null, rest));
    }
    let (value, rest) = read_typed(alloc, tokens, names)?;
    Ok((NodePart::Value(value), rest))
}

/// The node that the tokens begin with, by its number, and the tokens behind it. None exactly where no `!` and digits begin them. It
/// fails by rule 4 at the first token where the number is 2^31 or more.
fn node_if_there<'t, 'a>(
    tokens: &'t [Token<'a>],
) -> Result<Option<(NodeRef, &'t [Token<'a>])>, Refusal>
    ensures { MatchResult result
        (λ found. MatchOption found (EndsNowhere (any_of Mdn) (lexemes_of tokens.now))
        (λ r. node_name r.0 (lexemes_of tokens.now) (lexemes_of r.1.now)))
        (λ refusal. Begins (any_of Mdn) (lexemes_of tokens.now) × IsNoNode (lexemes_of tokens.now) refusal) }
{
    match split_first(tokens) {
        Some((first, _behind)) if is_of_kind(&first, TokenKind::Mdn) => {
            Ok(Some(node_name(tokens)?))
        }
        _ => Ok(None),
    }
}

/// What a metadata string stands for, with which the tokens begin, and the tokens behind it. None exactly where none begins them. It
/// fails only for want of memory.
fn text_if_there<'t, 'a>(
    alloc: Global,
    tokens: &'t [Token<'a>],
) -> Result<Option<(Items<u8>, &'t [Token<'a>])>, AllocError>
    ensures { IfOk result (λ found. MatchOption found (EndsNowhere (any_of MdStr) (lexemes_of tokens.now))
        (λ r. token MdStr (λ (lexeme : Lexeme). between_quotes (drop 1 lexeme.text) ≡ r.0) (lexemes_of tokens.now) (lexemes_of r.1.now))) }
{
    match split_first(tokens) {
        Some((first, rest)) if is_of_kind(&first, TokenKind::MdStr) => Ok(Some((
            quoted(alloc, behind_sign(first.text.as_bytes()))?,
            rest,
        ))),
        _ => Ok(None),
    }
}

/// What a text stands for that has a quote at both ends.
fn quoted(alloc: Global, text: &[u8]) -> Result<Items<u8>, AllocError>
    ensures { IfOk result (λ bytes. between_quotes text.now ≡ bytes) }
{
    unescaped(alloc, between_ends(text))
}

/// A text without its first and its last byte.
fn between_ends(text: &[u8]) -> &[u8]
    ensures { result.now ≡ drop 1 (take (length text.now - 1) text.now) }
{
    match text {
        [_, inside @ .., _] => inside,
        _ => &[],
    }
}

/// A text without its first byte.
pub fn behind_sign(text: &[u8]) -> &[u8]
    ensures { result.now ≡ drop 1 text.now }
{
    match text {
        [_, behind @ ..] => behind,
        [] => &[],
    }
}
