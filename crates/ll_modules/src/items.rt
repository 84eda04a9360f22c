ghost use Rattle.std.specs.Prelude.{◌≡◌, IsTrue, MatchResult, false};
ghost use Rattle.ll_tokens.specs.Tokens.{lexemes_of};
ghost use Rattle.ll_parser.specs.NameReading.{ReadsWith};
ghost use Rattle.ll_parser.specs.Productions.{word};
ghost use Rattle.ll_parser.specs.Reading.{EndsNowhere};
ghost use Rattle.ll_operands.specs.Parts.{Begins, Refuses};
ghost use Rattle.ll_items.specs.Starts.{small_here};
ghost use Rattle.ll_modules.specs.ModuleItems.{item_here, module_item_part, small_part};

use crate::definitions::{Definition, read_definition};
use ll_heads::read_declaration;
use ll_items::{SmallItem, read_small_item};
use ll_parser::{NameTable, ReadError, take_word, unexpected};
use ll_tokens::Token;
use ll_tree::Head;
use std::alloc::Global;

/// An item of a module, as far as it is kept.
#[derive(Drop)]
pub enum ModuleItem {
    Small(SmallItem),
    Declaration(Head),
    Definition(Definition),
}

/// The item with which the tokens begin, with all that belongs to it, and the tokens behind it (LLVM 14, Module Structure). Names
/// are numbered by the table. It fails for want of memory, and at the first token that can't stand where it does: by rule 4 where
/// that is a number out of its range, or a name, a node or a group of attributes of such digits, else by rule 3.
pub fn read_item<'t, 'a>(
    alloc: Global,
    tokens: &'t [Token<'a>],
    names: &mut NameTable,
) -> Result<(ModuleItem, &'t [Token<'a>]), ReadError>
    ensures { MatchResult result
        (λ r. ReadsWith item_here names.old names.new r.0 (lexemes_of tokens.now) (lexemes_of r.1.now))
        (Refuses module_item_part (lexemes_of tokens.now)) }
{
    if begins_with_word(tokens, "define") {
        let (definition, rest) = read_definition(alloc, tokens, names)?;
        return Ok((ModuleItem::Definition(definition), rest));
    }
    if begins_with_word(tokens, "declare") {
        let (head, rest) = read_declaration(alloc, tokens, names)?;
        return Ok((ModuleItem::Declaration(head), rest));
    }
    let (item, rest) = read_other_item(alloc, tokens, names)?;
    Ok((ModuleItem::Small(item), rest))
}

/// Whether the tokens begin with this word of the language.
fn begins_with_word(tokens: &[Token<'_>], text: &str) -> bool
    ensures there { IsTrue result → Begins (word text.now) (lexemes_of tokens.now) }
    ensures absent { result ≡ false → EndsNowhere (word text.now) (lexemes_of tokens.now) }
{
    match take_word(tokens, text) {
        Ok(_behind) => true,
        Err(_no_word) => false,
    }
}

/// The item that is no function with which the tokens begin, and the tokens behind it.
fn read_other_item<'t, 'a>(
    alloc: Global,
    tokens: &'t [Token<'a>],
    names: &mut NameTable,
) -> Result<(SmallItem, &'t [Token<'a>]), ReadError>
    ensures { MatchResult result
        (λ r. ReadsWith small_here names.old names.new r.0 (lexemes_of tokens.now) (lexemes_of r.1.now))
        (Refuses small_part (lexemes_of tokens.now)) }
{
    match read_small_item(alloc, tokens, names)? {
        Some((item, rest)) => Ok((item, rest)),
        None => Err(ReadError::Refused(unexpected(tokens))),
    }
}
