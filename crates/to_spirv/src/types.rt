ghost use Rattle.std.specs.Prelude.{◌≡◌};
ghost use Rattle.std.specs.List.{list_any};
ghost use Rattle.to_spirv.specs.ClosedTypes.{is_pointer, takes_pointer, has_value, needed_by};

use kernel_tree::{KernelInst, KernelParam, ValueType};

/// Which types the module of a kernel has, besides `void` and the function's type.
#[derive(Clone, Copy)]
pub(crate) enum TypesNeeded {
    /// None.
    Neither,
    /// `i32`, which a result is the first to need, behind the function's type.
    ResultInt,
    /// `i32`, which a parameter needs.
    ParamInt,
    /// `i32`, and a pointer to it.
    ParamPointer,
}

/// Which types the module of a kernel with these parameters and these instructions has.
pub(crate) fn types_needed(params: &[KernelParam], insts: &[KernelInst]) -> TypesNeeded
    ensures { result ≡ needed_by params.now insts.now }
{
    if takes_pointer(params) {
        TypesNeeded::ParamPointer
    } else if !params.is_empty() {
        TypesNeeded::ParamInt
    } else if has_values(insts) {
        TypesNeeded::ResultInt
    } else {
        TypesNeeded::Neither
    }
}

/// Whether one of the parameters is a pointer.
fn takes_pointer(params: &[KernelParam]) -> bool
    ensures { result ≡ list_any takes_pointer params.now }
{
    params.iter().any(|param| is_pointer(param.value_type))
}

fn is_pointer(value_type: ValueType) -> bool
    ensures { result ≡ is_pointer value_type }
{
    match value_type {
        ValueType::Int => false,
        ValueType::Pointer => true,
    }
}

/// Whether one of the instructions has a value.
fn has_values(insts: &[KernelInst]) -> bool
    ensures { result ≡ list_any has_value insts.now }
{
    insts.iter().any(|inst| has_value(*inst))
}

/// Whether an instruction has a value.
pub(crate) fn has_value(inst: KernelInst) -> bool
    ensures { result ≡ has_value inst }
{
    match inst {
        KernelInst::Add { .. } | KernelInst::Load { .. } => true,
        KernelInst::Store { .. } => false,
    }
}
