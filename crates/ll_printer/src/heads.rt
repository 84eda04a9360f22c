ghost use Rattle.std.specs.Prelude.{◌≡◌, ◌++◌, ◌∷◌, [], OnOk};
ghost use Rattle.std.specs.Fmt.{decimal};
ghost use Rattle.ll_printed.specs.FunctionPhrases.{attribute_phrase, behind_word_phrase, convention_phrase, enclosed_phrase, head_phrase, linkage_phrase, param_name_phrase, param_phrase};
ghost use Rattle.ll_phrases.specs.Phrases.{each_phrase, if_some, list_phrase, written};
ghost use Rattle.ll_phrases.specs.Texts.{global_phrase};
ghost use Rattle.ll_phrases.specs.TypePhrases.{type_phrase};

use ll_op_printer::{
    attribute_word, can_be_written, push_bytes, push_global, push_local, push_number,
    push_separator, push_str, push_type,
};
use ll_tree::{Attribute, AttributeKind, Head, Linkage, LlType, Name, NameText, Param};
use ports::OutOfMemory;

/// Writes a function's head behind its first word (LLVM 14, Functions).
pub fn push_head(text: &mut Vec<u8>, names: &[NameText], head: &Head) -> Result<(), OutOfMemory>
    ensures { OnOk result (text.new.items ≡ text.old.items ++ written (head_phrase names.now head.now)) }
{
    push_linkage(text, head.linkage)?;
    push_convention(text, head.is_kernel)?;
    push_attributes(text, names, head.attributes.as_slice())?;
    push_signature(text, names, &head.ty, head.name, head.params.as_slice())
}

/// Writes a linkage behind a blank, where it isn't the external one (LLVM 14, Linkage Types).
pub fn push_linkage(text: &mut Vec<u8>, linkage: Linkage) -> Result<(), OutOfMemory>
    ensures { OnOk result (text.new.items ≡ text.old.items ++ written (linkage_phrase linkage)) }
{
    match linkage {
        Linkage::External => Ok(()),
        Linkage::Internal => push_bytes(text, b" internal"),
        Linkage::Private => push_bytes(text, b" private"),
    }
}

fn push_convention(text: &mut Vec<u8>, is_kernel: bool) -> Result<(), OutOfMemory>
    ensures { OnOk result (text.new.items ≡ text.old.items ++ written (convention_phrase is_kernel)) }
{
    if is_kernel {
        push_bytes(text, b" spir_kernel")
    } else {
        push_bytes(text, b" spir_func")
    }
}

fn push_attributes(
    text: &mut Vec<u8>,
    names: &[NameText],
    attributes: &[Attribute],
) -> Result<(), OutOfMemory>
    ensures { OnOk result (text.new.items ≡ text.old.items ++ written (each_phrase (attribute_phrase names.now) attributes.now)) }
{
    for i in 0..attributes.len() {
        push_attribute(text, names, &attributes[i])?;
    }
    Ok(())
}

fn push_attribute(
    text: &mut Vec<u8>,
    names: &[NameText],
    attribute: &Attribute,
) -> Result<(), OutOfMemory>
    ensures { OnOk result (text.new.items ≡ text.old.items ++ written (attribute_phrase names.now attribute.now)) }
{
    push_bytes(text, b" ")?;
    push_str(text, attribute_word(&attribute.kind))?;
    push_behind_word(text, names, &attribute.kind)
}

/// Writes the type or the number that an attribute has.
fn push_behind_word(
    text: &mut Vec<u8>,
    names: &[NameText],
    kind: &AttributeKind,
) -> Result<(), OutOfMemory>
    ensures { OnOk result (text.new.items ≡ text.old.items ++ written (behind_word_phrase names.now kind.now)) }
{
    match kind {
        AttributeKind::ByVal(ty) | AttributeKind::SRet(ty) => push_enclosed_if(text, names, ty),
        AttributeKind::Align(bytes) => push_spaced_number(text, *bytes),
        AttributeKind::Dereferenceable(bytes) | AttributeKind::DereferenceableOrNull(bytes) => {
            push_enclosed_number(text, *bytes)
        }
        _ => Ok(()),
    }
}

fn push_enclosed_if(
    text: &mut Vec<u8>,
    names: &[NameText],
    ty: &Option<LlType>,
) -> Result<(), OutOfMemory>
    ensures { OnOk result (text.new.items ≡ text.old.items ++ written (if_some (enclosed_phrase names.now) ty.now)) }
{
    match ty {
        Some(ty) => push_enclosed(text, names, ty),
        None => Ok(()),
    }
}

fn push_enclosed(text: &mut Vec<u8>, names: &[NameText], ty: &LlType) -> Result<(), OutOfMemory>
    ensures { OnOk result (text.new.items ≡ text.old.items ++ written (enclosed_phrase names.now ty.now)) }
{
    push_bytes(text, b"(")?;
    push_type(text, names, ty)?;
    push_bytes(text, b")")
}

fn push_spaced_number(text: &mut Vec<u8>, number: u64) -> Result<(), OutOfMemory>
    ensures { OnOk result (text.new.items ≡ text.old.items ++ 32 ∷ decimal number) }
{
    push_bytes(text, b" ")?;
    push_number(text, number)
}

fn push_enclosed_number(text: &mut Vec<u8>, number: u64) -> Result<(), OutOfMemory>
    ensures { OnOk result (text.new.items ≡ text.old.items ++ 40 ∷ (decimal number ++ 41 ∷ [])) }
{
    push_bytes(text, b"(")?;
    push_number(text, number)?;
    push_bytes(text, b")")
}

/// Writes a function's type, its name, and its parameters.
fn push_signature(
    text: &mut Vec<u8>,
    names: &[NameText],
    ty: &LlType,
    name: Name,
    params: &[Param],
) -> Result<(), OutOfMemory>
    ensures { OnOk result (text.new.items ≡ text.old.items ++ 32 ∷ (written (type_phrase names.now ty.now) ++ 32 ∷ (written (global_phrase names.now name) ++ 40 ∷ (written (list_phrase (param_phrase names.now) params.now) ++ 41 ∷ [])))) }
{
    push_bytes(text, b" ")?;
    push_type(text, names, ty)?;
    push_bytes(text, b" ")?;
    push_global(text, names, name)?;
    push_bytes(text, b"(")?;
    push_params(text, names, params)?;
    push_bytes(text, b")")
}

/// Writes the parameters with commas between them.
fn push_params(text: &mut Vec<u8>, names: &[NameText], params: &[Param]) -> Result<(), OutOfMemory>
    ensures { OnOk result (text.new.items ≡ text.old.items ++ written (list_phrase (param_phrase names.now) params.now)) }
{
    for i in 0..params.len() {
        push_separator(text, i)?;
        push_param(text, names, &params[i])?;
    }
    Ok(())
}

fn push_param(text: &mut Vec<u8>, names: &[NameText], param: &Param) -> Result<(), OutOfMemory>
    ensures { OnOk result (text.new.items ≡ text.old.items ++ written (param_phrase names.now param.now)) }
{
    push_type(text, names, &param.ty)?;
    push_attributes(text, names, param.attributes.as_slice())?;
    push_param_name_if(text, names, param.name)
}

fn push_param_name_if(
    text: &mut Vec<u8>,
    names: &[NameText],
    name: Option<Name>,
) -> Result<(), OutOfMemory>
    ensures { OnOk result (text.new.items ≡ text.old.items ++ written (if_some (param_name_phrase names.now) name)) }
{
    match name {
        Some(name) => push_param_name(text, names, name),
        None => Ok(()),
    }
}

/// Writes the name of a parameter behind a blank, where it may be written.
fn push_param_name(text: &mut Vec<u8>, names: &[NameText], name: Name) -> Result<(), OutOfMemory>
    ensures { OnOk result (text.new.items ≡ text.old.items ++ written (param_name_phrase names.now name)) }
{
    if can_be_written(names, name.number) {
        push_bytes(text, b" ")?;
        push_local(text, names, name)
    } else {
        Ok(())
    }
}
