ghost use Rattle.std.specs.Prelude.{◌≡◌, ◌↔◌, IsTrue, List, MatchOption, MatchResult, None, codes};
ghost use Rattle.ll_tokens.specs.Tokens.{lexemes_of};
ghost use Rattle.ll_tree.specs.declared.name.NameText.{NameText};
ghost use Rattle.ll_parser.specs.NameReading.{ReadsWith};
ghost use Rattle.ll_types.specs.ValueRefusals.{Unless};
ghost use Rattle.ll_operands.specs.Parts.{Refuses};
ghost use Rattle.ll_items.specs.ItemParts.{named_item};
ghost use Rattle.ll_items.specs.Starts.{SmallFails, item_part, small_here, start_of};

use crate::groups::{skip_attribute_group, skip_source_filename};
use crate::named_nodes::{NamedNodes, read_named_nodes};
use crate::nodes::read_node;
use crate::starts::{Start, start_of};
use crate::structs::read_struct_type;
use crate::targets::read_target;
use crate::variables::read_variable;
use ll_parser::{NameTable, ReadError};
use ll_tokens::Token;
use ll_tree::{Node, NodeRef, Struct, Target, Variable};
use sqlite_items::Items;
use std::alloc::Global;

/// An item of a module that is no function, as far as it is kept. `Versions` are the nodes of `opencl.ocl.version`.
#[derive(Drop)]
pub enum SmallItem {
    Target(Target),
    Struct(Struct),
    Variable(Variable),
    Node(Node),
    Versions(Items<NodeRef>),
    Dropped,
}

/// The item with which the tokens begin, and the tokens behind it (LLVM 14, Module Structure). None exactly where the first token
/// begins none, but perhaps a function. Names are numbered by the table. It fails for want of memory, and at the first token that
/// can't stand where it does: by rule 4 where that is a number out of its range or a name, a node or a group of such digits, else
/// by rule 3.
pub fn read_small_item<'t, 'a>(
    alloc: Global,
    tokens: &'t [Token<'a>],
    names: &mut NameTable,
) -> Result<Option<(SmallItem, &'t [Token<'a>])>, ReadError>
    ensures { MatchResult result
        (λ found. MatchOption found ((names.new ≡ names.old) × (start_of (lexemes_of tokens.now) ≡ None))
        (λ r. ReadsWith small_here names.old names.new r.0 (lexemes_of tokens.now) (lexemes_of r.1.now)))
        (Unless (SmallFails (lexemes_of tokens.now))) }
{
    match start_of(tokens) {
        Some(start) => {
            let (item, rest) = read_started(alloc, tokens, names, start)?;
            Ok(Some((item, rest)))
        }
        None => Ok(None),
    }
}

/// The item of this start with which the tokens begin, and the tokens behind it.
fn read_started<'t, 'a>(
    alloc: Global,
    tokens: &'t [Token<'a>],
    names: &mut NameTable,
    start: Start,
) -> Result<(SmallItem, &'t [Token<'a>]), ReadError>
    ensures { MatchResult result
        (λ r. ReadsWith small_here names.old names.new r.0 (lexemes_of tokens.now) (lexemes_of r.1.now))
        (Refuses (item_part start) (lexemes_of tokens.now)) }
{
    match start {
        Start::Target => {
            let (target, rest) = read_target(alloc, tokens)?;
            Ok((SmallItem::Target(target), rest))
        }
        Start::Source => {
            let rest = skip_source_filename(tokens)?;
            Ok((SmallItem::Dropped, rest))
        }
        Start::Group => {
            let rest = skip_attribute_group(tokens)?;
            Ok((SmallItem::Dropped, rest))
        }
        Start::Struct => {
            let (definition, rest) = read_struct_type(alloc, tokens, names)?;
            Ok((SmallItem::Struct(definition), rest))
        }
        Start::Variable => {
            let (variable, rest) = read_variable(alloc, tokens, names)?;
            Ok((SmallItem::Variable(variable), rest))
        }
        Start::Node => {
            let (node, rest) = read_node(alloc, tokens, names)?;
            Ok((SmallItem::Node(node), rest))
        }
        Start::Named => {
            let (item, rest) = read_versions(alloc, tokens)?;
            Ok((item, rest))
        }
    }
}

/// The named metadata with which the tokens begin, of which the nodes of `opencl.ocl.version` are kept, and the tokens behind it.
fn read_versions<'t, 'a>(
    alloc: Global,
    tokens: &'t [Token<'a>],
) -> Result<(SmallItem, &'t [Token<'a>]), ReadError>
    ensures { MatchResult result
        (λ r. (names : List NameText) → small_here names r.0 (lexemes_of tokens.now) (lexemes_of r.1.now))
        (Refuses named_item (lexemes_of tokens.now)) }
{
    let (named, rest) = read_named_nodes(alloc, tokens)?;
    let NamedNodes { name, nodes } = named;
    if is_version(name.as_slice()) {
        return Ok((SmallItem::Versions(nodes), rest));
    }
    Ok((SmallItem::Dropped, rest))
}

/// Whether the name is that of the versions of OpenCL.
fn is_version(name: &[u8]) -> bool
    ensures { IsTrue result ↔ (name.now ≡ codes "opencl.ocl.version") }
{
    name == "opencl.ocl.version".as_bytes()
}
