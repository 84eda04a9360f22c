ghost use Rattle.std.specs.Prelude.{◌≡◌, ◌++◌, ◌∷◌, [], OnOk};
ghost use Rattle.ll_printed.specs.OpPhrases.{align_phrase};
ghost use Rattle.ll_printed.specs.FunctionPhrases.{linkage_phrase};
ghost use Rattle.ll_printed.specs.ModulePhrases.{variable_line, variable_space, variable_word};
ghost use Rattle.ll_phrases.specs.Phrases.{each_phrase, if_some, written};
ghost use Rattle.ll_phrases.specs.TypePhrases.{space_phrase, type_phrase};
ghost use Rattle.ll_phrases.specs.ValuePhrases.{value_phrase};

use crate::heads::push_linkage;
use ll_op_printer::{
    push_align, push_bytes, push_global, push_number, push_str, push_type, push_value,
};
use ll_tree::{LlType, NameText, Value, Variable};
use ports::OutOfMemory;

/// Writes the line of each variable (LLVM 14, Global Variables).
pub fn push_variables(
    text: &mut Vec<u8>,
    names: &[NameText],
    variables: &[Variable],
) -> Result<(), OutOfMemory>
    ensures { OnOk result (text.new.items ≡ text.old.items ++ written (each_phrase (variable_line names.now) variables.now)) }
{
    for i in 0..variables.len() {
        push_variable(text, names, &variables[i])?;
    }
    Ok(())
}

fn push_variable(
    text: &mut Vec<u8>,
    names: &[NameText],
    variable: &Variable,
) -> Result<(), OutOfMemory>
    ensures { OnOk result (text.new.items ≡ text.old.items ++ written (variable_line names.now variable.now)) }
{
    push_global(text, names, variable.name)?;
    push_bytes(text, b" =")?;
    push_linkage(text, variable.linkage)?;
    push_behind_linkage(text, names, variable)
}

fn push_behind_linkage(
    text: &mut Vec<u8>,
    names: &[NameText],
    variable: &Variable,
) -> Result<(), OutOfMemory>
    ensures { OnOk result (text.new.items ≡ text.old.items ++ (written (variable_space variable.now.space) ++ 32 ∷ (variable_word variable.now.space ++ 32 ∷ (written (type_phrase names.now variable.now.ty) ++ 32 ∷ (written (value_phrase names.now variable.now.init) ++ (written (if_some align_phrase variable.now.align) ++ 10 ∷ [])))))) }
{
    push_variable_space(text, variable.space)?;
    push_variable_word(text, variable.space)?;
    push_variable_type(text, names, &variable.ty)?;
    push_initial(text, names, &variable.init, variable.align)
}

/// Writes the address space behind a blank, where it isn't 0.
fn push_variable_space(text: &mut Vec<u8>, space: u64) -> Result<(), OutOfMemory>
    ensures { OnOk result (text.new.items ≡ text.old.items ++ written (variable_space space)) }
{
    if space == 0 {
        Ok(())
    } else {
        push_space(text, space)
    }
}

fn push_space(text: &mut Vec<u8>, space: u64) -> Result<(), OutOfMemory>
    ensures { OnOk result (text.new.items ≡ text.old.items ++ 32 ∷ written (space_phrase space)) }
{
    push_bytes(text, b" addrspace(")?;
    push_number(text, space)?;
    push_bytes(text, b")")
}

/// Writes `constant` for a variable of the constant space, `global` for every other one.
fn push_variable_word(text: &mut Vec<u8>, space: u64) -> Result<(), OutOfMemory>
    ensures { OnOk result (text.new.items ≡ text.old.items ++ 32 ∷ variable_word space) }
{
    push_bytes(text, b" ")?;
    push_str(text, variable_word(space))
}

fn variable_word(space: u64) -> &'static str
    ensures { result.now ≡ variable_word space }
{
    if space == 2 { "constant" } else { "global" }
}

fn push_variable_type(
    text: &mut Vec<u8>,
    names: &[NameText],
    ty: &LlType,
) -> Result<(), OutOfMemory>
    ensures { OnOk result (text.new.items ≡ text.old.items ++ 32 ∷ written (type_phrase names.now ty.now)) }
{
    push_bytes(text, b" ")?;
    push_type(text, names, ty)
}

/// Writes the initial value, the alignment if there is one, and the end of the line.
fn push_initial(
    text: &mut Vec<u8>,
    names: &[NameText],
    value: &Value,
    align: Option<u64>,
) -> Result<(), OutOfMemory>
    ensures { OnOk result (text.new.items ≡ text.old.items ++ 32 ∷ (written (value_phrase names.now value.now) ++ (written (if_some align_phrase align) ++ 10 ∷ []))) }
{
    push_bytes(text, b" ")?;
    push_value(text, names, value)?;
    push_align(text, align)?;
    push_bytes(text, b"\n")
}
