ghost use Rattle.std.specs.Prelude.{◌≡◌, MatchResult, find, option_map};
ghost use Rattle.std.specs.Str.{bytes_eq};
ghost use Rattle.ll_tokens.specs.Tokens.{lexemes_of};
ghost use Rattle.ll_parser.specs.NameReading.{ReadsWith};
ghost use Rattle.ll_operands.specs.Parts.{Refuses};
ghost use Rattle.ll_heads.specs.Definitions.{definition_start_here};
ghost use Rattle.ll_heads.specs.HeadParts.{definition_part};

use crate::heads::read_head;
use crate::params::first_place;
use ll_attributes::read_attachments;
use ll_parser::{NameTable, ReadError, take_mark, take_word};
use ll_tokens::Token;
use ll_tree::{Head, NodeRef};
use sqlite_items::Items;
use std::alloc::Global;

/// What stands before the body of a function that is defined: its head, the nodes of the three attachments that are kept, and
/// the next number behind its parameters, with which the names of its body go on (LLVM 14, Identifiers).
#[derive(Drop)]
pub struct DefinitionStart {
    pub head: Head,
    pub kernel_arg_type: Option<NodeRef>,
    pub reqd_work_group_size: Option<NodeRef>,
    pub work_group_size_hint: Option<NodeRef>,
    pub next: u32,
}

/// The definition up to its `{` with which the tokens begin, and the tokens behind that (LLVM 14, Functions; Metadata). Names are
/// numbered by the table, and parameters that are given no name have the next numbers from 0 on. Of attachments of one name the
/// first is kept. It fails for want of memory, which is told too where there are 2^32 numbered parameters, and at the first
/// token that can't stand where it does: by rule 4 where that is a number out of its range, or a name, a node or a group of
/// attributes of such digits, else by rule 3.
pub fn read_definition_start<'t, 'a>(
    alloc: Global,
    tokens: &'t [Token<'a>],
    names: &mut NameTable,
) -> Result<(DefinitionStart, &'t [Token<'a>]), ReadError>
    ensures { MatchResult result
        (λ r. ReadsWith definition_start_here names.old names.new r.0 (lexemes_of tokens.now) (lexemes_of r.1.now))
        (Refuses definition_part (lexemes_of tokens.now)) }
{
    let byte = first_place(tokens);
    let behind = take_word(tokens, "define")?;
    let mut numbering = Some(0);
    let (head, at_attachments) = read_head(alloc, behind, byte, names, &mut numbering)?;
    let (attachments, end) = read_attachments(alloc, at_attachments)?;
    let rest = take_mark(end, b'{')?;
    let given = attachments.as_slice();
    let kernel_arg_type = first_named(given, "kernel_arg_type");
    let reqd_work_group_size = first_named(given, "reqd_work_group_size");
    let work_group_size_hint = first_named(given, "work_group_size_hint");
    let next = numbering.unwrap_or(0);
    Ok((
        DefinitionStart {
            head,
            kernel_arg_type,
            reqd_work_group_size,
            work_group_size_hint,
            next,
        },
        rest,
    ))
}

/// The node of the first attachment of this name.
fn first_named(attachments: &[(Items<u8>, NodeRef)], name: &str) -> Option<NodeRef>
    ensures { result ≡ option_map (λ a. a.1) (find (λ a. bytes_eq a.0 name.now) attachments.now) }
{
    attachments
        .iter()
        .find(|attachment| attachment.0.as_slice() == name.as_bytes())
        .map(|attachment| attachment.1)
}
