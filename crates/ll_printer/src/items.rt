ghost use Rattle.std.specs.Prelude.{◌≡◌, ◌++◌, ◌∷◌, [], OnOk};
ghost use Rattle.ll_printed.specs.ModulePhrases.{declaration_line, struct_line, target_line};
ghost use Rattle.ll_phrases.specs.Phrases.{each_phrase, written};
ghost use Rattle.ll_phrases.specs.Texts.{quoted};

use crate::heads::push_head;
use ll_op_printer::{push_bytes, push_local, push_quoted, push_str, push_type, target_word};
use ll_tree::{Head, NameText, Struct, Target};
use ports::OutOfMemory;

/// Writes the target lines (LLVM 14, Data Layout; Target Triple).
pub fn push_targets(text: &mut Vec<u8>, targets: &[Target]) -> Result<(), OutOfMemory>
    ensures { OnOk result (text.new.items ≡ text.old.items ++ written (each_phrase target_line targets.now)) }
{
    for i in 0..targets.len() {
        push_target(text, &targets[i])?;
    }
    Ok(())
}

fn push_target(text: &mut Vec<u8>, target: &Target) -> Result<(), OutOfMemory>
    ensures { OnOk result (text.new.items ≡ text.old.items ++ written (target_line target.now)) }
{
    push_bytes(text, b"target ")?;
    push_str(text, target_word(target.kind))?;
    push_target_text(text, target.text.as_slice())
}

fn push_target_text(text: &mut Vec<u8>, bytes: &[u8]) -> Result<(), OutOfMemory>
    ensures { OnOk result (text.new.items ≡ text.old.items ++ 32 ∷ 61 ∷ 32 ∷ (quoted bytes.now ++ 10 ∷ [])) }
{
    push_bytes(text, b" = ")?;
    push_quoted(text, bytes)?;
    push_bytes(text, b"\n")
}

/// Writes the line of each struct type (LLVM 14, Structure Types).
pub fn push_structs(
    text: &mut Vec<u8>,
    names: &[NameText],
    structs: &[Struct],
) -> Result<(), OutOfMemory>
    ensures { OnOk result (text.new.items ≡ text.old.items ++ written (each_phrase (struct_line names.now) structs.now)) }
{
    for i in 0..structs.len() {
        push_struct(text, names, &structs[i])?;
    }
    Ok(())
}

fn push_struct(text: &mut Vec<u8>, names: &[NameText], item: &Struct) -> Result<(), OutOfMemory>
    ensures { OnOk result (text.new.items ≡ text.old.items ++ written (struct_line names.now item.now)) }
{
    push_local(text, names, item.name)?;
    push_bytes(text, b" = type ")?;
    push_type(text, names, &item.ty)?;
    push_bytes(text, b"\n")
}

/// Writes the line of each declared function (LLVM 14, Functions).
pub fn push_declarations(
    text: &mut Vec<u8>,
    names: &[NameText],
    heads: &[Head],
) -> Result<(), OutOfMemory>
    ensures { OnOk result (text.new.items ≡ text.old.items ++ written (each_phrase (declaration_line names.now) heads.now)) }
{
    for i in 0..heads.len() {
        push_declaration(text, names, &heads[i])?;
    }
    Ok(())
}

fn push_declaration(text: &mut Vec<u8>, names: &[NameText], head: &Head) -> Result<(), OutOfMemory>
    ensures { OnOk result (text.new.items ≡ text.old.items ++ written (declaration_line names.now head.now)) }
{
    push_bytes(text, b"declare")?;
    push_head(text, names, head)?;
    push_bytes(text, b"\n")
}
