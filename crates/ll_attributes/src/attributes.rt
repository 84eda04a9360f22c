ghost use Rattle.std.specs.Prelude.{◌≡◌, MatchOption, MatchResult};
ghost use Rattle.ll_tokens.specs.Tokens.{lexemes_of};
ghost use Rattle.ll_parser.specs.NameReading.{ReadsWith};
ghost use Rattle.ll_types.specs.ValueRefusals.{NoneAnd, Unless};
ghost use Rattle.ll_attributes.specs.AttributeParts.{NoAttribute, attribute_here, attributes_here};
ghost use Rattle.ll_attributes.specs.AttributeRefusals.{AttributeFails, AttributesFail};

use crate::attribute_kinds::kind_behind;
use ll_parser::{NameTable, ReadError, is_of_kind, last, split_first};
use ll_tokens::{Token, TokenKind};
use ll_tree::Attribute;
use sqlite_items::Items;
use std::alloc::Global;

/// The attributes of a parameter or a result with which the tokens begin, as many as there are, and the tokens behind them
/// (LLVM 14, Parameter Attributes). A type behind `byval` or `sret` belongs to it where a `(` follows. Names of struct types
/// are numbered by the table. It fails for want of memory, and behind the word of an attribute at the first token that can't
/// stand where it does: by rule 4 where that is a number out of its range or a name of such digits, else by rule 3.
pub fn read_attributes<'t, 'a>(
    alloc: Global,
    tokens: &'t [Token<'a>],
    names: &mut NameTable,
) -> Result<(Items<Attribute>, &'t [Token<'a>]), ReadError>
    ensures { MatchResult result
        (λ r. ReadsWith attributes_here names.old names.new r.0 (lexemes_of tokens.now) (lexemes_of r.1.now))
        (NoneAnd attributes_here AttributesFail (lexemes_of tokens.now)) }
{
    let mut attributes = Items::new(alloc);
    let mut left = tokens.len();
    while let Some((attribute, behind)) = next_attribute(alloc, last(tokens, left), names)? {
        attributes.push(attribute)?;
        left = behind.len();
    }
    Ok((attributes, last(tokens, left)))
}

/// The attribute with which the tokens begin, and the tokens behind it. None exactly where no attribute's word begins them.
fn next_attribute<'t, 'a>(
    alloc: Global,
    tokens: &'t [Token<'a>],
    names: &mut NameTable,
) -> Result<Option<(Attribute, &'t [Token<'a>])>, ReadError>
    ensures { MatchResult result
        (λ found. MatchOption found ((names.new ≡ names.old) × NoAttribute (lexemes_of tokens.now))
        (λ r. ReadsWith attribute_here names.old names.new r.0 (lexemes_of tokens.now) (lexemes_of r.1.now)))
        (Unless (AttributeFails (lexemes_of tokens.now))) }
{
    match split_first(tokens) {
        Some((first, behind)) if is_of_kind(&first, TokenKind::Word) => {
            match kind_behind(alloc, first.text, behind, names)? {
                Some((kind, rest)) => Ok(Some((
                    Attribute {
                        kind,
                        byte: first.byte,
                    },
                    rest,
                ))),
                None => Ok(None),
            }
        }
        _ => Ok(None),
    }
}
