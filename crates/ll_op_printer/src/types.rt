ghost use Rattle.std.specs.Prelude.{◌≡◌, ◌++◌, ◌∷◌, [], OnOk, decimal};
ghost use Rattle.ll_tree.specs.declared.ty.TypeBase.{Array, Packed, Struct, Vector};
ghost use Rattle.ll_phrases.specs.Phrases.{each_behind, each_phrase, list_phrase, written};
ghost use Rattle.ll_phrases.specs.TypePhrases.{base_phrase, pointer_phrase, space_phrase, type_phrase};
ghost use Rattle.ll_op_printer.specs.Parts.{counted_phrase, spaced_phrase};

use crate::bytes::{push_bytes, push_number, push_separator};
use crate::names::push_local;
use ll_tree::{LlType, NameText, TypeBase};
use ports::OutOfMemory;

/// Writes the type (LLVM 14, Type System).
#[cycle(types)]
pub fn push_type(text: &mut Vec<u8>, names: &[NameText], ty: &LlType) -> Result<(), OutOfMemory>
    ensures { OnOk result (text.new.items ≡ text.old.items ++ written (type_phrase names.now ty.now)) }
{
    push_base(text, names, &ty.base)?;
    push_pointers(text, ty.pointers.as_slice())
}

#[cycle(types)]
#[tactic(auto, using(crate::proofs::TypeShapes::array_written, crate::proofs::TypeShapes::vector_written, crate::proofs::TypeShapes::struct_written, crate::proofs::TypeShapes::packed_written))]
fn push_base(text: &mut Vec<u8>, names: &[NameText], base: &TypeBase) -> Result<(), OutOfMemory>
    ensures { OnOk result (text.new.items ≡ text.old.items ++ written (base_phrase names.now base.now)) }
{
    match base {
        TypeBase::Void => push_bytes(text, b"void"),
        TypeBase::Int(bits) => push_int(text, *bits),
        TypeBase::Half => push_bytes(text, b"half"),
        TypeBase::Float => push_bytes(text, b"float"),
        TypeBase::Double => push_bytes(text, b"double"),
        TypeBase::Named(name) => push_local(text, names, *name),
        TypeBase::Array(count, part) => push_array(text, names, *count, part.get()),
        TypeBase::Vector(lanes, part) => push_vector(text, names, *lanes, part.get()),
        TypeBase::Struct(members) => push_struct(text, names, members.as_slice()),
        TypeBase::Packed(members) => push_packed(text, names, members.as_slice()),
    }
}

fn push_int(text: &mut Vec<u8>, bits: u64) -> Result<(), OutOfMemory>
    ensures { OnOk result (text.new.items ≡ text.old.items ++ 105 ∷ decimal bits) }
{
    push_bytes(text, b"i")?;
    push_number(text, bits)
}

#[cycle(types)]
fn push_array(
    text: &mut Vec<u8>,
    names: &[NameText],
    count: u64,
    part: &LlType,
) -> Result<(), OutOfMemory>
    ensures { OnOk result (text.new.items ≡ text.old.items ++ 91 ∷ (written (counted_phrase names.now count part.now) ++ 93 ∷ [])) }
{
    push_bytes(text, b"[")?;
    push_counted(text, names, count, part)?;
    push_bytes(text, b"]")
}

#[cycle(types)]
fn push_vector(
    text: &mut Vec<u8>,
    names: &[NameText],
    lanes: u64,
    part: &LlType,
) -> Result<(), OutOfMemory>
    ensures { OnOk result (text.new.items ≡ text.old.items ++ 60 ∷ (written (counted_phrase names.now lanes part.now) ++ 62 ∷ [])) }
{
    push_bytes(text, b"<")?;
    push_counted(text, names, lanes, part)?;
    push_bytes(text, b">")
}

#[cycle(types)]
fn push_counted(
    text: &mut Vec<u8>,
    names: &[NameText],
    count: u64,
    part: &LlType,
) -> Result<(), OutOfMemory>
    ensures { OnOk result (text.new.items ≡ text.old.items ++ written (counted_phrase names.now count part.now)) }
{
    push_number(text, count)?;
    push_bytes(text, b" x ")?;
    push_type(text, names, part)
}

#[cycle(types)]
fn push_struct(
    text: &mut Vec<u8>,
    names: &[NameText],
    members: &[LlType],
) -> Result<(), OutOfMemory>
    ensures { OnOk result (text.new.items ≡ text.old.items ++ 123 ∷ (written (spaced_phrase (type_phrase names.now) members.now) ++ 125 ∷ [])) }
{
    push_bytes(text, b"{")?;
    push_members(text, names, members)?;
    push_bytes(text, b"}")
}

#[cycle(types)]
fn push_packed(
    text: &mut Vec<u8>,
    names: &[NameText],
    members: &[LlType],
) -> Result<(), OutOfMemory>
    ensures { OnOk result (text.new.items ≡ text.old.items ++ 60 ∷ 123 ∷ (written (spaced_phrase (type_phrase names.now) members.now) ++ 125 ∷ 62 ∷ [])) }
{
    push_bytes(text, b"<{")?;
    push_members(text, names, members)?;
    push_bytes(text, b"}>")
}

/// Writes the types with commas between them, and with blanks around them where there are any.
#[cycle(types)]
#[tactic(auto, using(crate::proofs::Lists::spaced_written))]
fn push_members(
    text: &mut Vec<u8>,
    names: &[NameText],
    members: &[LlType],
) -> Result<(), OutOfMemory>
    ensures { OnOk result (text.new.items ≡ text.old.items ++ written (spaced_phrase (type_phrase names.now) members.now)) }
{
    if members.is_empty() {
        return Ok(());
    }
    push_bytes(text, b" ")?;
    push_types(text, names, members)?;
    push_bytes(text, b" ")
}

/// Writes the types with commas between them.
#[cycle(types)]
fn push_types(text: &mut Vec<u8>, names: &[NameText], types: &[LlType]) -> Result<(), OutOfMemory>
    ensures { OnOk result (text.new.items ≡ text.old.items ++ written (list_phrase (type_phrase names.now) types.now)) }
{
    for i in 0..types.len() {
        push_separator(text, i)?;
        push_type(text, names, &types[i])?;
    }
    Ok(())
}

fn push_pointers(text: &mut Vec<u8>, spaces: &[u64]) -> Result<(), OutOfMemory>
    ensures { OnOk result (text.new.items ≡ text.old.items ++ written (each_phrase pointer_phrase spaces.now)) }
{
    for space in spaces {
        push_pointer(text, *space)?;
    }
    Ok(())
}

fn push_pointer(text: &mut Vec<u8>, space: u64) -> Result<(), OutOfMemory>
    ensures { OnOk result (text.new.items ≡ text.old.items ++ written (pointer_phrase space)) }
{
    if space != 0 {
        push_bytes(text, b" ")?;
        push_space(text, space)?;
    }
    push_bytes(text, b"*")
}

/// Writes the address space.
pub fn push_space(text: &mut Vec<u8>, space: u64) -> Result<(), OutOfMemory>
    ensures { OnOk result (text.new.items ≡ text.old.items ++ written (space_phrase space)) }
{
    push_bytes(text, b"addrspace(")?;
    push_number(text, space)?;
    push_bytes(text, b")")
}
