ghost use Rattle.std.specs.Prelude.{MatchResult};
ghost use Rattle.ll_tokens.specs.Tokens.{lexemes_of};
ghost use Rattle.ll_parser.specs.NameReading.{ReadsWith};
ghost use Rattle.ll_operands.specs.Parts.{Refuses};
ghost use Rattle.ll_flow_ops.specs.FlowParts.{target, target_part};

use ll_operands::read_label;
use ll_parser::{NameTable, ReadError, take_mark};
use ll_tokens::Token;
use ll_tree::{Name, TypedValue};
use ll_types::read_typed;
use std::alloc::Global;

/// A value and a block: a condition and where it leads, a switch's selector and its default, or a case and where that leads.
#[derive(Drop)]
pub struct Target {
    pub value: TypedValue,
    pub block: Name,
}

/// The value with which the tokens begin, the block behind a comma, and the tokens behind that.
pub fn read_target<'t, 'a>(
    alloc: Global,
    tokens: &'t [Token<'a>],
    names: &mut NameTable,
) -> Result<(Target, &'t [Token<'a>]), ReadError>
    ensures { MatchResult result
        (λ r. ReadsWith target names.old names.new r.0 (lexemes_of tokens.now) (lexemes_of r.1.now))
        (Refuses target_part (lexemes_of tokens.now)) }
{
    let (value, behind) = read_typed(alloc, tokens, names)?;
    let after = take_mark(behind, b',')?;
    let (block, rest) = read_label(alloc, after, names)?;
    Ok((Target { value, block }, rest))
}
