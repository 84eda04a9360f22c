ghost use Rattle.std.specs.Prelude.{◌≡◌, IfOk, MatchOption, MatchResult};
ghost use Rattle.ll_tokens.specs.Tokens.{lexemes_of};
ghost use Rattle.ll_tree.specs.declared.ty.TypeBase.{Array, Vector};
ghost use Rattle.ll_parser.specs.GrammarTypes.{type_base};
ghost use Rattle.ll_parser.specs.NameReading.{ReadsWith};
ghost use Rattle.ll_parser.specs.Productions.{mark};
ghost use Rattle.ll_parser.specs.Reading.{EndsNowhere};
ghost use Rattle.ll_types.specs.TypeParts.{counted, members, next_type, ty_here};
ghost use Rattle.ll_types.specs.TypeRefusals.{CountedStops, MembersStop, NextStops, TypeRefused, TypeStops};

use crate::openings::{TypeOpening, type_opening};
use ll_parser::{
    NameTable, ReadError, last, number, pointers, take_mark, take_word, type_name, word_type,
};
use ll_tokens::Token;
use ll_tree::{LlType, TypeBase};
use sqlite_items::{Boxed, Items};
use std::alloc::{AllocError, Global};

/// What stands between the brackets of an array type or a vector type.
#[derive(Drop)]
pub struct Counted {
    pub count: u64,
    pub part: LlType,
}

/// The type with which the tokens begin, with all its pointers, and the tokens behind it (LLVM 14, Type System). Names of
/// struct types are numbered by the table. It fails for want of memory, and at the first token that can't stand where it
/// does: by rule 4 where that is a number out of its range or a name of such digits, else by rule 3.
pub fn read_type<'t, 'a>(
    alloc: Global,
    tokens: &'t [Token<'a>],
    names: &mut NameTable,
) -> Result<(LlType, &'t [Token<'a>]), ReadError>
    ensures { MatchResult result
        (λ r. ReadsWith ty_here names.old names.new r.0 (lexemes_of tokens.now) (lexemes_of r.1.now))
        (TypeRefused (lexemes_of tokens.now)) }
{
    whole_type(alloc, tokens, names)
}

/// The same, with the place of a refusal alone.
#[cycle(types)]
fn whole_type<'t, 'a>(
    alloc: Global,
    tokens: &'t [Token<'a>],
    names: &mut NameTable,
) -> Result<(LlType, &'t [Token<'a>]), ReadError>
    ensures { MatchResult result
        (λ r. ReadsWith ty_here names.old names.new r.0 (lexemes_of tokens.now) (lexemes_of r.1.now))
        (TypeStops (lexemes_of tokens.now)) }
{
    let (base, behind) = base_type(alloc, tokens, names)?;
    let (pointers, rest) = pointers(alloc, behind)?;
    Ok((LlType { base, pointers }, rest))
}

/// A type without its pointers.
#[cycle(types)]
fn base_type<'t, 'a>(
    alloc: Global,
    tokens: &'t [Token<'a>],
    names: &mut NameTable,
) -> Result<(TypeBase, &'t [Token<'a>]), ReadError>
    ensures { MatchResult result
        (λ r. ReadsWith type_base names.old names.new r.0 (lexemes_of tokens.now) (lexemes_of r.1.now))
        (TypeStops (lexemes_of tokens.now)) }
{
    match type_opening(tokens) {
        (TypeOpening::Array, inside) => {
            let (counted, rest) = counted_part(alloc, inside, b']', names)?;
            Ok((array_of(alloc, counted)?, rest))
        }
        (TypeOpening::Vector, inside) => {
            let (counted, rest) = counted_part(alloc, inside, b'>', names)?;
            Ok((vector_of(alloc, counted)?, rest))
        }
        (TypeOpening::Struct, inside) => {
            let (members, rest) = members(alloc, inside, names)?;
            Ok((TypeBase::Struct(members), rest))
        }
        (TypeOpening::Packed, inside) => {
            let (members, behind) = members(alloc, inside, names)?;
            let rest = take_mark(behind, b'>')?;
            Ok((TypeBase::Packed(members), rest))
        }
        (TypeOpening::Named, _) => {
            let (name, rest) = type_name(alloc, tokens, names)?;
            Ok((TypeBase::Named(name), rest))
        }
        (TypeOpening::Plain, _) => {
            let (base, rest) = word_type(tokens)?;
            Ok((base, rest))
        }
    }
}

fn array_of(alloc: Global, counted: Counted) -> Result<TypeBase, AllocError>
    ensures { IfOk result (λ base. base ≡ Array counted.count counted.part) }
{
    let Counted { count, part } = counted;
    Ok(TypeBase::Array(count, Boxed::new(alloc, part)?))
}

fn vector_of(alloc: Global, counted: Counted) -> Result<TypeBase, AllocError>
    ensures { IfOk result (λ base. base ≡ Vector counted.count counted.part) }
{
    let Counted { count, part } = counted;
    Ok(TypeBase::Vector(count, Boxed::new(alloc, part)?))
}

/// A number, `x` and a type, with the bracket that closes them, and the tokens behind that.
#[cycle(types)]
fn counted_part<'t, 'a>(
    alloc: Global,
    tokens: &'t [Token<'a>],
    close: u8,
    names: &mut NameTable,
) -> Result<(Counted, &'t [Token<'a>]), ReadError>
    ensures { MatchResult result
        (λ r. ReadsWith (counted close) names.old names.new r.0 (lexemes_of tokens.now) (lexemes_of r.1.now))
        (CountedStops close (lexemes_of tokens.now)) }
{
    let (count, behind) = number(tokens)?;
    let inside = take_word(behind, "x")?;
    let (part, end) = whole_type(alloc, inside, names)?;
    let rest = take_mark(end, close)?;
    Ok((Counted { count, part }, rest))
}

/// Types with commas between them, with the `}` behind them, and the tokens behind that.
#[cycle(types)]
fn members<'t, 'a>(
    alloc: Global,
    tokens: &'t [Token<'a>],
    names: &mut NameTable,
) -> Result<(Items<LlType>, &'t [Token<'a>]), ReadError>
    ensures { MatchResult result
        (λ r. ReadsWith members names.old names.new r.0 (lexemes_of tokens.now) (lexemes_of r.1.now))
        (MembersStop (lexemes_of tokens.now)) }
{
    match take_mark(tokens, b'}') {
        Ok(rest) => Ok((Items::new(alloc), rest)),
        Err(_some) => some_members(alloc, tokens, names),
    }
}

/// The same where there is one type at least.
#[cycle(types)]
fn some_members<'t, 'a>(
    alloc: Global,
    tokens: &'t [Token<'a>],
    names: &mut NameTable,
) -> Result<(Items<LlType>, &'t [Token<'a>]), ReadError>
    requires { EndsNowhere (mark 125) (lexemes_of tokens.now) }
    ensures { MatchResult result
        (λ r. ReadsWith members names.old names.new r.0 (lexemes_of tokens.now) (lexemes_of r.1.now))
        (MembersStop (lexemes_of tokens.now)) }
{
    let mut members = Items::new(alloc);
    let (first, behind) = whole_type(alloc, tokens, names)?;
    members.push(first)?;
    let mut left = behind.len();
    while let Some((member, behind)) = next_member(alloc, last(tokens, left), names)? {
        members.push(member)?;
        left = behind.len();
    }
    let rest = take_mark(last(tokens, left), b'}')?;
    Ok((members, rest))
}

/// The type behind the comma with which the tokens begin, and the tokens behind it. None exactly where no comma begins them.
#[cycle(types)]
fn next_member<'t, 'a>(
    alloc: Global,
    tokens: &'t [Token<'a>],
    names: &mut NameTable,
) -> Result<Option<(LlType, &'t [Token<'a>])>, ReadError>
    ensures { MatchResult result
        (λ found. MatchOption found ((names.new ≡ names.old) × EndsNowhere (mark 44) (lexemes_of tokens.now))
        (λ r. ReadsWith next_type names.old names.new r.0 (lexemes_of tokens.now) (lexemes_of r.1.now)))
        (NextStops (lexemes_of tokens.now)) }
{
    match take_mark(tokens, b',') {
        Ok(behind) => Ok(Some(whole_type(alloc, behind, names)?)),
        Err(_no_comma) => Ok(None),
    }
}
