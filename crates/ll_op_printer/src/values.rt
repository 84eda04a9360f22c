ghost use Rattle.std.specs.Prelude.{◌≡◌, ◌++◌, ◌∷◌, [], OnOk, codes};
ghost use Rattle.std.specs.Fmt.{signed_decimal};
ghost use Rattle.ll_parser.specs.GrammarValues.{cast_word};
ghost use Rattle.ll_phrases.specs.Phrases.{each_behind, list_phrase, written};
ghost use Rattle.ll_phrases.specs.Texts.{quoted};
ghost use Rattle.ll_phrases.specs.TypePhrases.{type_phrase};
ghost use Rattle.ll_phrases.specs.ValuePhrases.{typed_phrase, value_phrase, word_behind};
ghost use Rattle.ll_op_printer.specs.Parts.{spaced_phrase};

use crate::bytes::{push_bytes, push_quoted, push_separator, push_signed, push_str};
use crate::names::{push_global, push_local};
use crate::types::push_type;
use crate::words::cast_word;
use ll_tree::{CastKind, LlType, NameText, TypedValue, Value};
use ports::OutOfMemory;

/// Writes the value with its type.
#[cycle(values)]
pub fn push_typed(
    text: &mut Vec<u8>,
    names: &[NameText],
    typed: &TypedValue,
) -> Result<(), OutOfMemory>
    ensures { OnOk result (text.new.items ≡ text.old.items ++ written (typed_phrase names.now typed.now)) }
{
    push_type(text, names, &typed.ty)?;
    push_bytes(text, b" ")?;
    push_value(text, names, &typed.value)
}

/// Writes the value (LLVM 14, Constants).
#[cycle(values)]
#[tactic(auto, using(crate::proofs::ValueShapes::vector_written, crate::proofs::ValueShapes::array_written, crate::proofs::ValueShapes::struct_written, crate::proofs::ValueShapes::packed_written))]
pub fn push_value(text: &mut Vec<u8>, names: &[NameText], value: &Value) -> Result<(), OutOfMemory>
    ensures { OnOk result (text.new.items ≡ text.old.items ++ written (value_phrase names.now value.now)) }
{
    match value {
        Value::Local(name) => push_local(text, names, *name),
        Value::Global(name) => push_global(text, names, *name),
        Value::Int(number) => push_signed(text, *number),
        Value::Bytes(bytes) => push_byte_array(text, bytes.as_slice()),
        Value::Bool(true) => push_bytes(text, b"true"),
        Value::Bool(false) => push_bytes(text, b"false"),
        Value::Null => push_bytes(text, b"null"),
        Value::Zero => push_bytes(text, b"zeroinitializer"),
        Value::Undef => push_bytes(text, b"undef"),
        Value::Poison => push_bytes(text, b"poison"),
        Value::Vector(parts) => push_vector(text, names, parts.as_slice()),
        Value::Array(parts) => push_array(text, names, parts.as_slice()),
        Value::Struct(parts) => push_struct(text, names, parts.as_slice()),
        Value::Packed(parts) => push_packed(text, names, parts.as_slice()),
        Value::GetElementPtr {
            inbounds,
            ty,
            operands,
        } => push_path(text, names, *inbounds, operands.as_slice(), ty),
        Value::Cast { kind, operand, to } => push_cast(text, names, *kind, operand.get(), to),
    }
}

fn push_byte_array(text: &mut Vec<u8>, bytes: &[u8]) -> Result<(), OutOfMemory>
    ensures { OnOk result (text.new.items ≡ text.old.items ++ 99 ∷ quoted bytes.now) }
{
    push_bytes(text, b"c")?;
    push_quoted(text, bytes)
}

#[cycle(values)]
fn push_vector(
    text: &mut Vec<u8>,
    names: &[NameText],
    parts: &[TypedValue],
) -> Result<(), OutOfMemory>
    ensures { OnOk result (text.new.items ≡ text.old.items ++ 60 ∷ (written (list_phrase (typed_phrase names.now) parts.now) ++ 62 ∷ [])) }
{
    push_bytes(text, b"<")?;
    push_values(text, names, parts)?;
    push_bytes(text, b">")
}

#[cycle(values)]
fn push_array(
    text: &mut Vec<u8>,
    names: &[NameText],
    parts: &[TypedValue],
) -> Result<(), OutOfMemory>
    ensures { OnOk result (text.new.items ≡ text.old.items ++ 91 ∷ (written (list_phrase (typed_phrase names.now) parts.now) ++ 93 ∷ [])) }
{
    push_bytes(text, b"[")?;
    push_values(text, names, parts)?;
    push_bytes(text, b"]")
}

#[cycle(values)]
fn push_struct(
    text: &mut Vec<u8>,
    names: &[NameText],
    parts: &[TypedValue],
) -> Result<(), OutOfMemory>
    ensures { OnOk result (text.new.items ≡ text.old.items ++ 123 ∷ (written (spaced_phrase (typed_phrase names.now) parts.now) ++ 125 ∷ [])) }
{
    push_bytes(text, b"{")?;
    push_fields(text, names, parts)?;
    push_bytes(text, b"}")
}

#[cycle(values)]
fn push_packed(
    text: &mut Vec<u8>,
    names: &[NameText],
    parts: &[TypedValue],
) -> Result<(), OutOfMemory>
    ensures { OnOk result (text.new.items ≡ text.old.items ++ 60 ∷ 123 ∷ (written (spaced_phrase (typed_phrase names.now) parts.now) ++ 125 ∷ 62 ∷ [])) }
{
    push_bytes(text, b"<{")?;
    push_fields(text, names, parts)?;
    push_bytes(text, b"}>")
}

/// Writes the values with commas between them, and with blanks around them where there are any.
#[cycle(values)]
#[tactic(auto, using(crate::proofs::Lists::spaced_written))]
fn push_fields(
    text: &mut Vec<u8>,
    names: &[NameText],
    parts: &[TypedValue],
) -> Result<(), OutOfMemory>
    ensures { OnOk result (text.new.items ≡ text.old.items ++ written (spaced_phrase (typed_phrase names.now) parts.now)) }
{
    if parts.is_empty() {
        return Ok(());
    }
    push_bytes(text, b" ")?;
    push_values(text, names, parts)?;
    push_bytes(text, b" ")
}

/// Writes the values with commas between them.
#[cycle(values)]
pub fn push_values(
    text: &mut Vec<u8>,
    names: &[NameText],
    values: &[TypedValue],
) -> Result<(), OutOfMemory>
    ensures { OnOk result (text.new.items ≡ text.old.items ++ written (list_phrase (typed_phrase names.now) values.now)) }
{
    for i in 0..values.len() {
        push_separator(text, i)?;
        push_typed(text, names, &values[i])?;
    }
    Ok(())
}

/// Writes the values, each behind a comma.
#[cycle(values)]
pub fn push_values_behind(
    text: &mut Vec<u8>,
    names: &[NameText],
    values: &[TypedValue],
) -> Result<(), OutOfMemory>
    ensures { OnOk result (text.new.items ≡ text.old.items ++ written (each_behind (typed_phrase names.now) values.now)) }
{
    for i in 0..values.len() {
        push_bytes(text, b", ")?;
        push_typed(text, names, &values[i])?;
    }
    Ok(())
}

#[cycle(values)]
fn push_path(
    text: &mut Vec<u8>,
    names: &[NameText],
    inbounds: bool,
    operands: &[TypedValue],
    ty: &LlType,
) -> Result<(), OutOfMemory>
    ensures { OnOk result (text.new.items ≡ text.old.items ++ (codes "getelementptr" ++ (written (word_behind (codes "inbounds") inbounds) ++ (32 ∷ 40 ∷ (written (type_phrase names.now ty.now) ++ (written (each_behind (typed_phrase names.now) operands.now) ++ 41 ∷ [])))))) }
{
    push_path_type(text, names, inbounds, ty)?;
    push_values_behind(text, names, operands)?;
    push_bytes(text, b")")
}

fn push_path_type(
    text: &mut Vec<u8>,
    names: &[NameText],
    inbounds: bool,
    ty: &LlType,
) -> Result<(), OutOfMemory>
    ensures { OnOk result (text.new.items ≡ text.old.items ++ (codes "getelementptr" ++ (written (word_behind (codes "inbounds") inbounds) ++ (32 ∷ 40 ∷ written (type_phrase names.now ty.now))))) }
{
    push_marked(text, "getelementptr", "inbounds", inbounds)?;
    push_bytes(text, b" (")?;
    push_type(text, names, ty)?;
    Ok(())
}

#[cycle(values)]
fn push_cast(
    text: &mut Vec<u8>,
    names: &[NameText],
    kind: CastKind,
    operand: &TypedValue,
    to: &LlType,
) -> Result<(), OutOfMemory>
    ensures { OnOk result (text.new.items ≡ text.old.items ++ (cast_word kind ++ (32 ∷ 40 ∷ (written (typed_phrase names.now operand.now) ++ (codes " to " ++ (written (type_phrase names.now to.now) ++ 41 ∷ [])))))) }
{
    push_str(text, cast_word(kind))?;
    push_bytes(text, b" (")?;
    push_typed(text, names, operand)?;
    push_bytes(text, b" to ")?;
    push_type(text, names, to)?;
    push_bytes(text, b")")
}

/// Writes the word, and behind it the mark where it stands.
pub fn push_marked(
    text: &mut Vec<u8>,
    word: &str,
    mark: &str,
    stands: bool,
) -> Result<(), OutOfMemory>
    ensures { OnOk result (text.new.items ≡ text.old.items ++ (word.now ++ written (word_behind mark.now stands))) }
{
    push_str(text, word)?;
    push_word_behind(text, mark, stands)
}

/// Writes the word behind a blank, where it stands.
fn push_word_behind(text: &mut Vec<u8>, word: &str, stands: bool) -> Result<(), OutOfMemory>
    ensures { OnOk result (text.new.items ≡ text.old.items ++ written (word_behind word.now stands)) }
{
    if stands {
        push_bytes(text, b" ")?;
        push_str(text, word)
    } else {
        Ok(())
    }
}
