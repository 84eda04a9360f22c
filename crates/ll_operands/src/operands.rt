ghost use Rattle.std.specs.Prelude.{MatchResult};
ghost use Rattle.ll_tokens.specs.Tokens.{lexemes_of};
ghost use Rattle.ll_parser.specs.NameReading.{ReadsWith};
ghost use Rattle.ll_operands.specs.Operands.{label, label_part, of_one_type, one_type_part, three, three_part, two, two_part};
ghost use Rattle.ll_operands.specs.Parts.{Refuses};

use ll_parser::{NameTable, ReadError, local, take_mark, take_word};
use ll_tokens::Token;
use ll_tree::{LlType, Name, TypedValue, Value};
use ll_types::{read_type, read_typed, read_value};
use std::alloc::Global;

/// Two operands.
#[derive(Drop)]
pub struct Two {
    pub first: TypedValue,
    pub second: TypedValue,
}

/// Three operands.
#[derive(Drop)]
pub struct Three {
    pub first: TypedValue,
    pub second: TypedValue,
    pub third: TypedValue,
}

/// Two operands of one type.
#[derive(Drop)]
pub struct OfOneType {
    pub ty: LlType,
    pub left: Value,
    pub right: Value,
}

/// The two operands with a comma between them with which the tokens begin, and the tokens behind them. Names are numbered by the
/// table. It fails for want of memory, and at the first token that can't stand where it does: by rule 4 where that is a
/// number out of its range or a name of digits whose number is 2^31 or more, else by rule 3.
pub fn read_two<'t, 'a>(
    alloc: Global,
    tokens: &'t [Token<'a>],
    names: &mut NameTable,
) -> Result<(Two, &'t [Token<'a>]), ReadError>
    ensures { MatchResult result
        (λ r. ReadsWith two names.old names.new r.0 (lexemes_of tokens.now) (lexemes_of r.1.now))
        (Refuses two_part (lexemes_of tokens.now)) }
{
    let (first, behind) = read_typed(alloc, tokens, names)?;
    let after = take_mark(behind, b',')?;
    let (second, rest) = read_typed(alloc, after, names)?;
    Ok((Two { first, second }, rest))
}

/// The three operands with commas between them with which the tokens begin, and the tokens behind them, as `read_two` reads
/// two.
pub fn read_three<'t, 'a>(
    alloc: Global,
    tokens: &'t [Token<'a>],
    names: &mut NameTable,
) -> Result<(Three, &'t [Token<'a>]), ReadError>
    ensures { MatchResult result
        (λ r. ReadsWith three names.old names.new r.0 (lexemes_of tokens.now) (lexemes_of r.1.now))
        (Refuses three_part (lexemes_of tokens.now)) }
{
    let (first, behind) = read_typed(alloc, tokens, names)?;
    let after = take_mark(behind, b',')?;
    let (two, rest) = read_two(alloc, after, names)?;
    let Two {
        first: second,
        second: third,
    } = two;
    Ok((
        Three {
            first,
            second,
            third,
        },
        rest,
    ))
}

/// The type and the two operands of it, with a comma between them, with which the tokens begin, and the tokens behind them, as
/// `read_two` reads two.
pub fn read_of_one_type<'t, 'a>(
    alloc: Global,
    tokens: &'t [Token<'a>],
    names: &mut NameTable,
) -> Result<(OfOneType, &'t [Token<'a>]), ReadError>
    ensures { MatchResult result
        (λ r. ReadsWith of_one_type names.old names.new r.0 (lexemes_of tokens.now) (lexemes_of r.1.now))
        (Refuses one_type_part (lexemes_of tokens.now)) }
{
    let (ty, inside) = read_type(alloc, tokens, names)?;
    let (left, behind) = read_value(alloc, inside, &ty, names)?;
    let after = take_mark(behind, b',')?;
    let (right, rest) = read_value(alloc, after, &ty, names)?;
    Ok((OfOneType { ty, left, right }, rest))
}

/// The name of a block behind the word `label` with which the tokens begin, numbered by the table, and the tokens behind it. It
/// fails for want of memory, and at the first token that can't stand where it does: by rule 4 where that is a name of digits
/// whose number is 2^31 or more, else by rule 3.
pub fn read_label<'t, 'a>(
    alloc: Global,
    tokens: &'t [Token<'a>],
    names: &mut NameTable,
) -> Result<(Name, &'t [Token<'a>]), ReadError>
    ensures { MatchResult result
        (λ r. ReadsWith label names.old names.new r.0 (lexemes_of tokens.now) (lexemes_of r.1.now))
        (Refuses label_part (lexemes_of tokens.now)) }
{
    let behind = take_word(tokens, "label")?;
    let (name, rest) = local(alloc, behind, names)?;
    Ok((name, rest))
}
