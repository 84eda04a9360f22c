ghost use Rattle.std.specs.Prelude.{ℕ, List, MatchOption, MatchResult};
ghost use Rattle.ll_tokens.specs.declared.kinds.TokenKind.TheVariants.{MdName};
ghost use Rattle.ll_tokens.specs.Tokens.{lexemes_of};
ghost use Rattle.ll_tree.specs.declared.module.NodeRef.{NodeRef};
ghost use Rattle.ll_parser.specs.GrammarAttributes.{attachment, node_name};
ghost use Rattle.ll_parser.specs.NameReading.{any_of};
ghost use Rattle.ll_parser.specs.Productions.{mark};
ghost use Rattle.ll_parser.specs.Reading.{DerivesNone, EndsNowhere};
ghost use Rattle.ll_types.specs.ValueRefusals.{Unless};
ghost use Rattle.ll_attributes.specs.Attachments.{AttachmentFails, AttachmentsFail, BehindCommaFails, IsNoAttachment, IsNoNode, SkippedFail, attachments_here, behind_comma, skipped_attachments};

use crate::numbers::{behind_sign, number_behind_sign, out_of_range};
use ll_parser::{ReadError, Refusal, is_of_kind, last, split_first, take_mark, unexpected};
use ll_tokens::{Token, TokenKind};
use ll_tree::NodeRef;
use sqlite_items::Items;
use std::alloc::Global;

/// The metadata node with which the tokens begin, by its number, and the tokens behind it (LLVM 14, Metadata). It fails at
/// the first token: by rule 4 where its number is 2^31 or more, by rule 3 where it is no such node.
pub fn node_name<'t, 'a>(tokens: &'t [Token<'a>]) -> Result<(NodeRef, &'t [Token<'a>]), Refusal>
    ensures { MatchResult result
        (λ r. node_name r.0 (lexemes_of tokens.now) (lexemes_of r.1.now))
        (IsNoNode (lexemes_of tokens.now)) }
{
    match split_first(tokens) {
        Some((first, rest)) if is_of_kind(&first, TokenKind::Mdn) => {
            match number_behind_sign(first.text.as_bytes()) {
                Some(number) => Ok((
                    NodeRef {
                        number,
                        byte: first.byte,
                    },
                    rest,
                )),
                None => Err(out_of_range(tokens)),
            }
        }
        _ => Err(unexpected(tokens)),
    }
}

/// The attachments with which the tokens begin, as many as there are, each with the name behind its `!` and its node, and
/// the tokens behind them (LLVM 14, Metadata). It fails for want of memory, and where no node stands behind a name, as
/// `node_name` does.
pub fn read_attachments<'t, 'a>(
    alloc: Global,
    tokens: &'t [Token<'a>],
) -> Result<(Items<(Items<u8>, NodeRef)>, &'t [Token<'a>]), ReadError>
    ensures { MatchResult result
        (λ r. attachments_here r.0 (lexemes_of tokens.now) (lexemes_of r.1.now))
        (Unless (λ refusal. DerivesNone attachments_here (lexemes_of tokens.now) × AttachmentsFail (lexemes_of tokens.now) refusal)) }
{
    let mut attachments = Items::new(alloc);
    let mut left = tokens.len();
    while let Some((attachment, behind)) = next_attachment(alloc, last(tokens, left))? {
        attachments.push(attachment)?;
        left = behind.len();
    }
    Ok((attachments, last(tokens, left)))
}

/// The attachment with which the tokens begin, and the tokens behind it. None exactly where none begins.
fn next_attachment<'t, 'a>(
    alloc: Global,
    tokens: &'t [Token<'a>],
) -> Result<Option<((Items<u8>, NodeRef), &'t [Token<'a>])>, ReadError>
    ensures { MatchResult result
        (λ found. MatchOption found (EndsNowhere (any_of MdName) (lexemes_of tokens.now))
        (λ r. attachment r.0 (lexemes_of tokens.now) (lexemes_of r.1.now)))
        (Unless (AttachmentFails (lexemes_of tokens.now))) }
{
    match split_first(tokens) {
        Some((first, behind)) if is_of_kind(&first, TokenKind::MdName) => {
            let (node, rest) = node_name(behind)?;
            let name = Items::from_slice(alloc, behind_sign(first.text.as_bytes()))?;
            Ok(Some(((name, node), rest)))
        }
        _ => Ok(None),
    }
}

/// What is left behind the attachments of an instruction with which the tokens begin, each behind a comma, as many as there
/// are (LLVM 14, Metadata). It fails behind a comma: where no name follows by rule 3, and where no node stands behind the
/// name, as `node_name` does.
pub fn skip_attachments<'t, 'a>(tokens: &'t [Token<'a>]) -> Result<&'t [Token<'a>], Refusal>
    ensures { MatchResult result
        (λ rest. skipped_attachments (lexemes_of tokens.now) (lexemes_of rest.now))
        (λ refusal. EndsNowhere skipped_attachments (lexemes_of tokens.now) × SkippedFail (lexemes_of tokens.now) refusal) }
{
    let mut left = tokens.len();
    while let Some(behind) = skip_behind_comma(last(tokens, left))? {
        left = behind.len();
    }
    Ok(last(tokens, left))
}

/// What is left behind a comma and an attachment, where a comma begins the tokens. None exactly where none does.
fn skip_behind_comma<'t, 'a>(tokens: &'t [Token<'a>]) -> Result<Option<&'t [Token<'a>]>, Refusal>
    ensures { MatchResult result
        (λ found. MatchOption found (EndsNowhere (mark 44) (lexemes_of tokens.now))
        (λ rest. (a : List ℕ × NodeRef) × behind_comma a (lexemes_of tokens.now) (lexemes_of rest.now)))
        (BehindCommaFails (lexemes_of tokens.now)) }
{
    match take_mark(tokens, b',') {
        Ok(behind) => Ok(Some(skip_attachment(behind)?)),
        Err(_no_comma) => Ok(None),
    }
}

/// What is left behind the attachment with which the tokens begin.
fn skip_attachment<'t, 'a>(tokens: &'t [Token<'a>]) -> Result<&'t [Token<'a>], Refusal>
    ensures { MatchResult result
        (λ rest. (a : List ℕ × NodeRef) × attachment a (lexemes_of tokens.now) (lexemes_of rest.now))
        (IsNoAttachment (lexemes_of tokens.now)) }
{
    match split_first(tokens) {
        Some((first, behind)) if is_of_kind(&first, TokenKind::MdName) => {
            let (_node, rest) = node_name(behind)?;
            Ok(rest)
        }
        _ => Err(unexpected(tokens)),
    }
}
