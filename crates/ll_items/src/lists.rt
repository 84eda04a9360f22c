ghost use Rattle.std.specs.Prelude.{◌≡◌, List, MatchOption, MatchResult};
ghost use Rattle.ll_tokens.specs.Tokens.{Lexeme, lexemes_of};
ghost use Rattle.ll_parser.specs.GrammarAttributes.{node_name};
ghost use Rattle.ll_parser.specs.NameReading.{ReadsWith};
ghost use Rattle.ll_parser.specs.Productions.{mark};
ghost use Rattle.ll_parser.specs.Reading.{EndsNowhere};
ghost use Rattle.ll_types.specs.ValueRefusals.{Unless};
ghost use Rattle.ll_items.specs.ItemParts.{NextStops, braced, braced_part, braced_parts, metadata_part, next_node, next_part, node_name_part, some_listed, some_part, some_parts};
ghost use Rattle.ll_operands.specs.Parts.{Refuses};

use crate::node_parts::read_node_part;
use ll_attributes::node_name;
use ll_parser::{NameTable, ReadError, Refusal, last, take_mark};
use ll_tokens::Token;
use ll_tree::{NodePart, NodeRef};
use sqlite_items::Items;
use std::alloc::Global;

/// The parts of a metadata node between braces, behind the `{`, and the tokens behind the `}`. Names are numbered by the table. It
/// fails for want of memory, and at the first token that can't stand where it does, as `read_node_part` does.
pub fn read_parts<'t, 'a>(
    alloc: Global,
    tokens: &'t [Token<'a>],
    names: &mut NameTable,
) -> Result<(Items<NodePart>, &'t [Token<'a>]), ReadError>
    ensures { MatchResult result
        (λ r. ReadsWith braced_parts names.old names.new r.0 (lexemes_of tokens.now) (lexemes_of r.1.now))
        (Refuses (braced_part metadata_part) (lexemes_of tokens.now)) }
{
    if let Ok(rest) = take_mark(tokens, b'}') {
        return Ok((Items::new(alloc), rest));
    }
    let (parts, behind) = some_parts(alloc, tokens, names)?;
    let rest = take_mark(behind, b'}')?;
    Ok((parts, rest))
}

/// The parts of a metadata node with commas between them with which the tokens begin, one at least and as many as there are, and the
/// tokens behind them.
fn some_parts<'t, 'a>(
    alloc: Global,
    tokens: &'t [Token<'a>],
    names: &mut NameTable,
) -> Result<(Items<NodePart>, &'t [Token<'a>]), ReadError>
    ensures { MatchResult result
        (λ r. ReadsWith some_parts names.old names.new r.0 (lexemes_of tokens.now) (lexemes_of r.1.now) × EndsNowhere (mark 44) (lexemes_of r.1.now))
        (Refuses (some_part metadata_part) (lexemes_of tokens.now)) }
{
    let (first, behind) = read_node_part(alloc, tokens, names)?;
    let mut parts = Items::new(alloc);
    parts.push(first)?;
    let mut left = behind.len();
    while let Some((part, after)) = next_part(alloc, last(tokens, left), names)? {
        parts.push(part)?;
        left = after.len();
    }
    Ok((parts, last(tokens, left)))
}

/// The part of a metadata node behind a comma, and the tokens behind it. None exactly where no comma begins the tokens.
fn next_part<'t, 'a>(
    alloc: Global,
    tokens: &'t [Token<'a>],
    names: &mut NameTable,
) -> Result<Option<(NodePart, &'t [Token<'a>])>, ReadError>
    ensures { MatchResult result
        (λ found. MatchOption found ((names.new ≡ names.old) × EndsNowhere (mark 44) (lexemes_of tokens.now))
        (λ r. ReadsWith next_part names.old names.new r.0 (lexemes_of tokens.now) (lexemes_of r.1.now)))
        (Unless (NextStops metadata_part (lexemes_of tokens.now))) }
{
    match take_mark(tokens, b',') {
        Ok(behind) => {
            let (part, rest) = read_node_part(alloc, behind, names)?;
            Ok(Some((part, rest)))
        }
        Err(_no_comma) => Ok(None),
    }
}

/// Nodes by their numbers between braces, behind the `{`, and the tokens behind the `}`. It fails for want of memory, and at the first
/// token that can't stand where it does, by rule 4 where that is a node whose number is 2^31 or more, else by rule 3.
pub fn read_node_names<'t, 'a>(
    alloc: Global,
    tokens: &'t [Token<'a>],
) -> Result<(Items<NodeRef>, &'t [Token<'a>]), ReadError>
    ensures { MatchResult result
        (λ r. braced node_name r.0 (lexemes_of tokens.now) (lexemes_of r.1.now))
        (Refuses (braced_part node_name_part) (lexemes_of tokens.now)) }
{
    if let Ok(rest) = take_mark(tokens, b'}') {
        return Ok((Items::new(alloc), rest));
    }
    let (nodes, behind) = some_node_names(alloc, tokens)?;
    let rest = take_mark(behind, b'}')?;
    Ok((nodes, rest))
}

/// The nodes with commas between them with which the tokens begin, one at least and as many as there are, and the tokens behind
/// them.
fn some_node_names<'t, 'a>(
    alloc: Global,
    tokens: &'t [Token<'a>],
) -> Result<(Items<NodeRef>, &'t [Token<'a>]), ReadError>
    ensures { MatchResult result
        (λ r. some_listed node_name r.0 (lexemes_of tokens.now) (lexemes_of r.1.now) × EndsNowhere (mark 44) (lexemes_of r.1.now))
        (Refuses (some_part node_name_part) (lexemes_of tokens.now)) }
{
    let (first, behind) = node_name(tokens)?;
    let mut nodes = Items::new(alloc);
    nodes.push(first)?;
    let mut left = behind.len();
    while let Some((node, after)) = next_node_name(last(tokens, left))? {
        nodes.push(node)?;
        left = after.len();
    }
    Ok((nodes, last(tokens, left)))
}

/// The node behind a comma, and the tokens behind it. None exactly where no comma begins the tokens.
fn next_node_name<'t, 'a>(
    tokens: &'t [Token<'a>],
) -> Result<Option<(NodeRef, &'t [Token<'a>])>, Refusal>
    ensures { MatchResult result
        (λ found. MatchOption found (EndsNowhere (mark 44) (lexemes_of tokens.now))
        (λ r. next_node r.0 (lexemes_of tokens.now) (lexemes_of r.1.now)))
        (NextStops node_name_part (lexemes_of tokens.now)) }
{
    match take_mark(tokens, b',') {
        Ok(behind) => {
            let (node, rest) = node_name(behind)?;
            Ok(Some((node, rest)))
        }
        Err(_no_comma) => Ok(None),
    }
}
