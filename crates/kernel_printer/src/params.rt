ghost use Rattle.std.specs.Prelude.{◌≡◌, ◌++◌, IfOk, OnOk, codes, string_bytes};
ghost use Rattle.kernel_tree.specs.Text.{param_text, params_behind, params_text, type_text};

use crate::insts::shown;
use kernel_tree::{KernelParam, ValueType};
use ports::OutOfMemory;
use std::alloc::Global;

/// Writes the parameters, with commas between them.
pub fn push_params(
    alloc: Global,
    text: &mut Vec<u8>,
    params: &[KernelParam],
) -> Result<(), OutOfMemory>
    ensures { OnOk result (text.new.items ≡ text.old.items ++ params_text params.now) }
{
    let [first, rest @ ..] = params else {
        return Ok(());
    };
    let param = param(alloc, *first)?;
    text.extend_from_slice(param.as_bytes())?;
    push_params_behind(alloc, text, rest)
}

/// Writes the parameters, each behind a comma.
fn push_params_behind(
    alloc: Global,
    text: &mut Vec<u8>,
    params: &[KernelParam],
) -> Result<(), OutOfMemory>
    ensures { OnOk result (text.new.items ≡ text.old.items ++ params_behind params.now) }
{
    for param in params {
        let param = param_behind(alloc, *param)?;
        text.extend_from_slice(param.as_bytes())?;
    }
    Ok(())
}

fn param_behind(alloc: Global, param: KernelParam) -> Result<String, OutOfMemory>
    ensures { IfOk result (λ text. string_bytes text ≡ codes ", " ++ param_text param) }
{
    let value_type = type_name(param.value_type);
    let name = shown(param.name);
    Ok(format!(in alloc; ", {value_type} %{name}")?)
}

fn param(alloc: Global, param: KernelParam) -> Result<String, OutOfMemory>
    ensures { IfOk result (λ text. string_bytes text ≡ param_text param) }
{
    let value_type = type_name(param.value_type);
    let name = shown(param.name);
    Ok(format!(in alloc; "{value_type} %{name}")?)
}

fn type_name(value_type: ValueType) -> &'static str
    ensures { result.now ≡ type_text value_type }
{
    match value_type {
        ValueType::Int => "i32",
        ValueType::Pointer => "i32 addrspace(1)*",
    }
}
