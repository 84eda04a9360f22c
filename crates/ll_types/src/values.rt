ghost use Rattle.std.specs.Prelude.{◌≡◌, ◌++◌, ◌∷◌, [], List, codes, drop, false, IsTrue, IfOk, MatchResult, OnOk};
ghost use Rattle.ll_tokens.specs.Tokens.{Lexeme, lexemes_of};
ghost use Rattle.ll_tree.specs.declared.ty.LlType.{LlType};
ghost use Rattle.ll_tree.specs.declared.value.Value.{Cast, GetElementPtr};
ghost use Rattle.ll_parser.specs.GrammarValues.{if_word, typed};
ghost use Rattle.ll_parser.specs.NameReading.{ReadsWith};
ghost use Rattle.ll_parser.specs.Productions.{mark};
ghost use Rattle.ll_parser.specs.Reading.{EndsNowhere};
ghost use Rattle.ll_parser.specs.Tables.{Extends};
ghost use Rattle.ll_types.specs.TypeParts.{ty_here};
ghost use Rattle.ll_types.specs.TypeRefusals.{TypeFails, TypeRefused};
ghost use Rattle.ll_types.specs.ValueParts.{EndsMember, IsLane, angle, conversion, grown, operands, parts, path, value_of};
ghost use Rattle.ll_types.specs.ValueRefusals.{
  AngleFails,
  CastFails,
  MoreFail,
  NoneAnd,
  OperandsFail,
  PartsFail,
  PathFails,
  TypedFails,
  Unless,
  ValueFails,
  behind_inbounds,
};

use crate::singles::single_value;
use crate::types::read_type;
use crate::value_openings::{ValueOpening, value_opening};
use ll_parser::{NameTable, ReadError, last, take_mark, take_word, unexpected};
use ll_tokens::Token;
use ll_tree::{CastKind, Child, LlType, Parts, TypedValue, Value};
use std::alloc::{AllocError, Global};

/// What stands behind `getelementptr`.
#[derive(Drop)]
pub struct Path {
    pub inbounds: bool,
    pub through: LlType,
    pub operands: Parts<TypedValue>,
}

/// What stands behind the word of a conversion.
#[derive(Drop)]
pub struct Conversion {
    pub operand: TypedValue,
    pub to: LlType,
}

/// The value of a type with which the tokens begin, and the tokens behind it (LLVM 14, Constants). Names are numbered by the
/// table. It fails for want of memory, and at the first token that can't stand where it does: by rule 4 where that is a
/// number out of its range or a name of digits whose number is 2^31 or more, else by rule 3.
pub fn read_value<'t, 'a>(
    alloc: Global,
    tokens: &'t [Token<'a>],
    ty: &LlType,
    names: &mut NameTable,
) -> Result<(Value, &'t [Token<'a>]), ReadError>
    ensures { MatchResult result
        (λ r. ReadsWith (value_of ty.now) names.old names.new r.0 (lexemes_of tokens.now) (lexemes_of r.1.now))
        (NoneAnd (value_of ty.now) (ValueFails ty.now) (lexemes_of tokens.now)) }
{
    whole_value(alloc, tokens, ty, names)
}

/// The value behind its type with which the tokens begin, and the tokens behind it, as `read_value` reads it.
pub fn read_typed<'t, 'a>(
    alloc: Global,
    tokens: &'t [Token<'a>],
    names: &mut NameTable,
) -> Result<(TypedValue, &'t [Token<'a>]), ReadError>
    ensures { MatchResult result
        (λ r. ReadsWith typed names.old names.new r.0 (lexemes_of tokens.now) (lexemes_of r.1.now))
        (NoneAnd typed TypedFails (lexemes_of tokens.now)) }
{
    typed_value(alloc, tokens, names)
}

#[cycle(values)]
fn typed_value<'t, 'a>(
    alloc: Global,
    tokens: &'t [Token<'a>],
    names: &mut NameTable,
) -> Result<(TypedValue, &'t [Token<'a>]), ReadError>
    ensures { MatchResult result
        (λ r. ReadsWith typed names.old names.new r.0 (lexemes_of tokens.now) (lexemes_of r.1.now))
        (Unless (TypedFails (lexemes_of tokens.now))) }
{
    let (ty, behind) = read_type(alloc, tokens, names)?;
    let (value, rest) = whole_value(alloc, behind, &ty, names)?;
    Ok((TypedValue { ty, value }, rest))
}

#[cycle(values)]
fn whole_value<'t, 'a>(
    alloc: Global,
    tokens: &'t [Token<'a>],
    ty: &LlType,
    names: &mut NameTable,
) -> Result<(Value, &'t [Token<'a>]), ReadError>
    ensures { MatchResult result
        (λ r. ReadsWith (value_of ty.now) names.old names.new r.0 (lexemes_of tokens.now) (lexemes_of r.1.now))
        (Unless (ValueFails ty.now (lexemes_of tokens.now))) }
{
    match value_opening(tokens) {
        (ValueOpening::Array, inside) => {
            let (parts, rest) = parts_before(alloc, inside, b']', names)?;
            Ok((Value::Array(parts), rest))
        }
        (ValueOpening::Struct, inside) => {
            let (parts, rest) = parts_before(alloc, inside, b'}', names)?;
            Ok((Value::Struct(parts), rest))
        }
        (ValueOpening::Vector, inside) => {
            let (parts, rest) = parts_before(alloc, inside, b'>', names)?;
            Ok((Value::Vector(parts), rest))
        }
        (ValueOpening::Angle, behind) => {
            let (value, rest) = angle_value(alloc, behind, behind_first(behind), names)?;
            Ok((value, rest))
        }
        (ValueOpening::Path, behind) => {
            let (path, rest) = path_behind(alloc, behind, names)?;
            Ok((path_of(path), rest))
        }
        (ValueOpening::Cast(kind), behind) => {
            let (conversion, rest) = conversion_behind(alloc, behind, names)?;
            Ok((cast_of(alloc, kind, conversion)?, rest))
        }
        (ValueOpening::Single, _) => {
            let (value, rest) = single_value(alloc, tokens, ty, names)?;
            Ok((value, rest))
        }
    }
}

fn path_of(path: Path) -> Value
    ensures { result ≡ GetElementPtr path.inbounds path.through path.operands }
{
    let Path {
        inbounds,
        through,
        operands,
    } = path;
    Value::GetElementPtr {
        inbounds,
        ty: through,
        operands,
    }
}

fn cast_of(alloc: Global, kind: CastKind, conversion: Conversion) -> Result<Value, AllocError>
    ensures { IfOk result (λ value. value ≡ Cast kind conversion.operand conversion.to) }
{
    let Conversion { operand, to } = conversion;
    match Child::new(alloc, operand) {
        Ok(operand) => Ok(Value::Cast { kind, operand, to }),
        Err(_no_memory) => Err(AllocError),
    }
}

/// Adds a part behind the others.
fn push_part(parts: &mut Parts<TypedValue>, part: TypedValue) -> Result<(), AllocError>
    ensures { OnOk result (parts.new ≡ parts.old ++ part ∷ []) }
{
    match parts.push(part) {
        Ok(()) => Ok(()),
        Err(_no_memory) => Err(AllocError),
    }
}

/// Values with commas between them, with the closing mark behind them, and the tokens behind that.
#[cycle(values)]
fn parts_before<'t, 'a>(
    alloc: Global,
    tokens: &'t [Token<'a>],
    close: u8,
    names: &mut NameTable,
) -> Result<(Parts<TypedValue>, &'t [Token<'a>]), ReadError>
    ensures { MatchResult result
        (λ r. ReadsWith (parts close) names.old names.new r.0 (lexemes_of tokens.now) (lexemes_of r.1.now))
        (Unless (PartsFail close (lexemes_of tokens.now))) }
{
    match take_mark(tokens, close) {
        Ok(rest) => Ok((Parts::new(alloc), rest)),
        Err(_some) => some_parts(alloc, tokens, close, names),
    }
}

/// The same where there is one value at least.
#[cycle(values)]
fn some_parts<'t, 'a>(
    alloc: Global,
    tokens: &'t [Token<'a>],
    close: u8,
    names: &mut NameTable,
) -> Result<(Parts<TypedValue>, &'t [Token<'a>]), ReadError>
    requires { EndsNowhere (mark close) (lexemes_of tokens.now) }
    ensures { MatchResult result
        (λ r. ReadsWith (parts close) names.old names.new r.0 (lexemes_of tokens.now) (lexemes_of r.1.now))
        (Unless (PartsFail close (lexemes_of tokens.now))) }
{
    let (first, behind) = typed_value(alloc, tokens, names)?;
    let mut parts = Parts::new(alloc);
    push_part(&mut parts, first)?;
    let (parts, end) = more_parts(alloc, parts, behind, names)?;
    let rest = take_mark(end, close)?;
    Ok((parts, rest))
}

/// The parts with the values behind commas with which the tokens begin behind them, as many as there are, and the tokens
/// behind those.
#[cycle(values)]
fn more_parts<'t, 'a>(
    alloc: Global,
    mut parts: Parts<TypedValue>,
    tokens: &'t [Token<'a>],
    names: &mut NameTable,
) -> Result<(Parts<TypedValue>, &'t [Token<'a>]), ReadError>
    ensures { MatchResult result
        (λ r. ReadsWith (grown parts) names.old names.new r.0 (lexemes_of tokens.now) (lexemes_of r.1.now))
        (Unless (MoreFail (lexemes_of tokens.now))) }
{
    let mut left = tokens.len();
    while let Ok(inside) = take_mark(last(tokens, left), b',') {
        let (part, behind) = typed_value(alloc, inside, names)?;
        push_part(&mut parts, part)?;
        left = behind.len();
    }
    Ok((parts, last(tokens, left)))
}

/// The packed struct or the vector behind whose `<` the tokens begin, with a `{`, and the tokens behind it.
#[cycle(values)]
fn angle_value<'t, 'a>(
    alloc: Global,
    tokens: &'t [Token<'a>],
    inside: &'t [Token<'a>],
    names: &mut NameTable,
) -> Result<(Value, &'t [Token<'a>]), ReadError>
    requires { mark 123 (lexemes_of tokens.now) (lexemes_of inside.now) }
    ensures { MatchResult result
        (λ r. ReadsWith angle names.old names.new r.0 (lexemes_of tokens.now) (lexemes_of r.1.now))
        (Unless (AngleFails (lexemes_of tokens.now) (lexemes_of inside.now))) }
{
    if begins_with_lane(alloc, inside, names)? {
        let (parts, rest) = parts_before(alloc, tokens, b'>', names)?;
        return Ok((Value::Vector(parts), rest));
    }
    let (parts, behind) = parts_before(alloc, inside, b'}', names)?;
    let rest = take_mark(behind, b'>')?;
    Ok((Value::Packed(parts), rest))
}

/// The tokens behind the first one.
fn behind_first<'t, 'a>(tokens: &'t [Token<'a>]) -> &'t [Token<'a>]
    ensures { result.now ≡ drop 1 tokens.now }
{
    match tokens {
        [_, behind @ ..] => behind,
        [] => &[],
    }
}

/// Whether a struct type goes on behind a `<{`, which is that of a vector's first lane, and not a packed struct.
fn begins_with_lane(
    alloc: Global,
    tokens: &[Token<'_>],
    names: &mut NameTable,
) -> Result<bool, ReadError>
    ensures { MatchResult result
        (λ lane. Extends names.old names.new × (IsTrue lane → IsLane (lexemes_of tokens.now)) × (lane ≡ false → IsLane (lexemes_of tokens.now) → ⊥))
        (Unless (λ refusal. EndsNowhere (mark 125) (lexemes_of tokens.now) × TypeFails (lexemes_of tokens.now) refusal)) }
{
    match take_mark(tokens, b'}') {
        Ok(behind) => Ok(!begins_with(behind, b'>')),
        Err(_no_brace) => {
            let end = behind_type(alloc, tokens, names)?;
            Ok(ends_member(end))
        }
    }
}

/// The tokens behind the type with which the tokens begin.
fn behind_type<'t, 'a>(
    alloc: Global,
    tokens: &'t [Token<'a>],
    names: &mut NameTable,
) -> Result<&'t [Token<'a>], ReadError>
    ensures { MatchResult result
        (λ rest. (t : LlType) × ReadsWith ty_here names.old names.new t (lexemes_of tokens.now) (lexemes_of rest.now))
        (TypeRefused (lexemes_of tokens.now)) }
{
    let (_first, end) = read_type(alloc, tokens, names)?;
    Ok(end)
}

/// Whether the tokens begin with what stands behind a member of a struct type: a comma, or the closing brace.
fn ends_member(tokens: &[Token<'_>]) -> bool
    ensures there { IsTrue result → EndsMember (lexemes_of tokens.now) }
    ensures absent { result ≡ false → EndsMember (lexemes_of tokens.now) → ⊥ }
{
    if begins_with(tokens, b',') {
        return true;
    }
    begins_with(tokens, b'}')
}

/// What stands behind `getelementptr`, and the tokens behind that.
#[cycle(values)]
fn path_behind<'t, 'a>(
    alloc: Global,
    tokens: &'t [Token<'a>],
    names: &mut NameTable,
) -> Result<(Path, &'t [Token<'a>]), ReadError>
    ensures { MatchResult result
        (λ r. ReadsWith path names.old names.new r.0 (lexemes_of tokens.now) (lexemes_of r.1.now))
        (Unless (PathFails (lexemes_of tokens.now))) }
{
    let (inbounds, bracket) = take_inbounds(tokens);
    let inside = take_mark(bracket, b'(')?;
    let (through, behind) = read_type(alloc, inside, names)?;
    let (operands, rest) = operands_behind(alloc, behind, names)?;
    Ok((
        Path {
            inbounds,
            through,
            operands,
        },
        rest,
    ))
}

/// Whether the tokens begin with `inbounds`, and the tokens behind it.
fn take_inbounds<'t, 'a>(tokens: &'t [Token<'a>]) -> (bool, &'t [Token<'a>])
    ensures word { if_word (codes "inbounds") result.0 (lexemes_of tokens.now) (lexemes_of result.1.now) }
    ensures behind { behind_inbounds (lexemes_of tokens.now) (lexemes_of result.1.now) }
{
    match take_word(tokens, "inbounds") {
        Ok(behind) => (true, behind),
        Err(_no_word) => (false, tokens),
    }
}

/// Two operands or more, each behind a comma, with the `)` behind them, and the tokens behind that.
#[cycle(values)]
fn operands_behind<'t, 'a>(
    alloc: Global,
    tokens: &'t [Token<'a>],
    names: &mut NameTable,
) -> Result<(Parts<TypedValue>, &'t [Token<'a>]), ReadError>
    ensures { MatchResult result
        (λ r. ReadsWith operands names.old names.new r.0 (lexemes_of tokens.now) (lexemes_of r.1.now))
        (Unless (OperandsFail (lexemes_of tokens.now))) }
{
    let (operands, end) = more_parts(alloc, Parts::new(alloc), tokens, names)?;
    if operands.as_slice().len() < 2 {
        return Err(ReadError::Refused(unexpected(end)));
    }
    let rest = take_mark(end, b')')?;
    Ok((operands, rest))
}

/// What stands behind the word of a conversion, and the tokens behind that.
#[cycle(values)]
fn conversion_behind<'t, 'a>(
    alloc: Global,
    tokens: &'t [Token<'a>],
    names: &mut NameTable,
) -> Result<(Conversion, &'t [Token<'a>]), ReadError>
    ensures { MatchResult result
        (λ r. ReadsWith conversion names.old names.new r.0 (lexemes_of tokens.now) (lexemes_of r.1.now))
        (Unless (CastFails (lexemes_of tokens.now))) }
{
    let inside = take_mark(tokens, b'(')?;
    let (operand, behind) = typed_value(alloc, inside, names)?;
    let target = take_word(behind, "to")?;
    let (to, end) = read_type(alloc, target, names)?;
    let rest = take_mark(end, b')')?;
    Ok((Conversion { operand, to }, rest))
}

/// Whether the tokens begin with this mark.
fn begins_with(tokens: &[Token<'_>], code: u8) -> bool
    ensures there { IsTrue result → (rest : List Lexeme) × mark code (lexemes_of tokens.now) rest }
    ensures absent { result ≡ false → EndsNowhere (mark code) (lexemes_of tokens.now) }
{
    match take_mark(tokens, code) {
        Ok(_behind) => true,
        Err(_no_mark) => false,
    }
}
