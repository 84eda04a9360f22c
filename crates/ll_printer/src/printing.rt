ghost use Rattle.std.specs.Prelude.{◌≡◌, ◌++◌, IfOk, OnOk};
ghost use Rattle.std.specs.List.{zip};
ghost use Rattle.ll_printed.specs.ModulePhrases.{declaration_line, function_phrase, module_phrase, node_line, version_line};
ghost use Rattle.ll_phrases.specs.Phrases.{each_phrase, written};

use crate::functions::push_functions;
use crate::items::{push_declarations, push_structs, push_targets};
use crate::nodes::{push_nodes, push_version};
use crate::variables::push_variables;
use ll_tree::LlModule;
use ports::OutOfMemory;
use std::alloc::Global;

/// The text of a module: items of one kind behind one another, each list in its order, and an item, a label or an instruction a line
/// (LLVM 14, Module Structure). A text's own module is written as a text of the same module, places aside.
///
/// `OutOfMemory` comes for want of memory alone.
pub fn print(alloc: Global, m: &LlModule) -> Result<Vec<u8>, OutOfMemory>
    ensures { IfOk result (λ text. text.items ≡ written (module_phrase m.now)) }
{
    let mut text = Vec::new(alloc);
    push_module(&mut text, m)?;
    Ok(text)
}

fn push_module(text: &mut Vec<u8>, m: &LlModule) -> Result<(), OutOfMemory>
    ensures { OnOk result (text.new.items ≡ text.old.items ++ written (module_phrase m.now)) }
{
    let names = m.names.as_slice();
    push_targets(text, m.targets.as_slice())?;
    push_structs(text, names, m.structs.as_slice())?;
    push_variables(text, names, m.variables.as_slice())?;
    push_behind_variables(text, m)
}

/// Writes the functions, the declarations and the metadata.
fn push_behind_variables(text: &mut Vec<u8>, m: &LlModule) -> Result<(), OutOfMemory>
    ensures { OnOk result (text.new.items ≡ text.old.items ++ (written (each_phrase (function_phrase m.now.names) (zip m.now.functions m.now.bodies)) ++ (written (each_phrase (declaration_line m.now.names) m.now.declares) ++ (written (version_line m.now.ocl_version) ++ written (each_phrase (node_line m.now.names) m.now.nodes))))) }
{
    let names = m.names.as_slice();
    push_functions(text, names, m.functions.as_slice(), m.bodies.as_slice())?;
    push_declarations(text, names, m.declares.as_slice())?;
    push_version(text, m.ocl_version.as_slice())?;
    push_nodes(text, names, m.nodes.as_slice())
}
