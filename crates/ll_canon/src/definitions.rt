ghost use Rattle.std.specs.Prelude.{◌≡◌, ◌++◌, IfOk, OnOk, map, flat_map};
ghost use Rattle.kernel_tree.specs.Names.{defined_by, definitions, param_definition};
ghost use Rattle.kernel_tree.specs.Numbered.{number_defined};

use kernel_tree::{Definition, Kernel, KernelInst, KernelParam, ValueType};
use ports::OutOfMemory;
use std::alloc::Global;

/// What a kernel defines: its parameters, its block and the values of its instructions, in this order.
pub fn definitions(alloc: Global, kernel: &Kernel) -> Result<Vec<Definition>, OutOfMemory>
    ensures { IfOk result (λ defined. defined.items ≡ definitions kernel.now) }
{
    let mut defined = Vec::new(alloc);
    add_params(&mut defined, kernel.params.as_slice())?;
    defined.push(Definition {
        name: kernel.block,
        value_type: None,
    })?;
    add_results(&mut defined, kernel.insts.as_slice())?;
    Ok(defined)
}

fn add_params(defined: &mut Vec<Definition>, params: &[KernelParam]) -> Result<(), OutOfMemory>
    ensures { OnOk result (defined.new.items ≡ defined.old.items ++ map param_definition params.now) }
{
    for param in params {
        defined.push(Definition {
            name: param.name,
            value_type: Some(param.value_type),
        })?;
    }
    Ok(())
}

fn add_results(defined: &mut Vec<Definition>, insts: &[KernelInst]) -> Result<(), OutOfMemory>
    ensures { OnOk result (defined.new.items ≡ defined.old.items ++ flat_map defined_by insts.now) }
{
    for inst in insts {
        if let Some(name) = inst.result() {
            defined.push(Definition {
                name,
                value_type: Some(ValueType::Int),
            })?;
        }
    }
    Ok(())
}

/// The numbers of the names that are defined.
pub fn numbers(alloc: Global, defined: &[Definition]) -> Result<Vec<u32>, OutOfMemory>
    ensures { IfOk result (λ numbers. numbers.items ≡ map number_defined defined.now) }
{
    let mut numbers = Vec::with_capacity(alloc, defined.len())?;
    for definition in defined {
        numbers.push(definition.name.number)?;
    }
    Ok(numbers)
}
