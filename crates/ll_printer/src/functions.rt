ghost use Rattle.std.specs.Prelude.{◌≡◌, ◌++◌, ◌∷◌, [], OnOk, codes};
ghost use Rattle.std.specs.List.{zip};
ghost use Rattle.ll_printed.specs.FunctionPhrases.{block_phrase};
ghost use Rattle.ll_printed.specs.ModulePhrases.{attachment_phrase, function_phrase, node_ref_phrase};
ghost use Rattle.ll_phrases.specs.Phrases.{each_phrase, if_some, written};

use crate::heads::push_head;
use crate::insts::push_blocks;
use crate::nodes::push_node_ref;
use inst_walk::{Block, Body};
use ll_op_printer::{push_bytes, push_str};
use ll_tree::{Function, LlInst, NameText, NodeRef};
use ports::OutOfMemory;

/// Writes the functions with their bodies.
pub fn push_functions(
    text: &mut Vec<u8>,
    names: &[NameText],
    functions: &[Function],
    bodies: &[Body<LlInst>],
) -> Result<(), OutOfMemory>
    ensures { OnOk result (text.new.items ≡ text.old.items ++ written (each_phrase (function_phrase names.now) (zip functions.now bodies.now))) }
{
    for i in 0..functions.len().min(bodies.len()) {
        push_function(text, names, &functions[i], &bodies[i])?;
    }
    Ok(())
}

fn push_function(
    text: &mut Vec<u8>,
    names: &[NameText],
    function: &Function,
    body: &Body<LlInst>,
) -> Result<(), OutOfMemory>
    ensures { OnOk result (text.new.items ≡ text.old.items ++ written (function_phrase names.now (function.now, body.now))) }
{
    push_bytes(text, b"define")?;
    push_head(text, names, &function.head)?;
    push_behind_head(text, names, function, body.blocks.as_slice())
}

/// Writes the three attachments that are kept, and the blocks.
fn push_behind_head(
    text: &mut Vec<u8>,
    names: &[NameText],
    function: &Function,
    blocks: &[Block<LlInst>],
) -> Result<(), OutOfMemory>
    ensures { OnOk result (text.new.items ≡ text.old.items ++ (written (if_some (attachment_phrase (codes "kernel_arg_type")) function.now.kernel_arg_type) ++ (written (if_some (attachment_phrase (codes "reqd_work_group_size")) function.now.reqd_work_group_size) ++ (written (if_some (attachment_phrase (codes "work_group_size_hint")) function.now.work_group_size_hint) ++ 32 ∷ 123 ∷ 10 ∷ (written (each_phrase (block_phrase names.now) blocks.now) ++ 125 ∷ 10 ∷ []))))) }
{
    push_attachment_if(text, "kernel_arg_type", function.kernel_arg_type)?;
    push_attachment_if(text, "reqd_work_group_size", function.reqd_work_group_size)?;
    push_attachment_if(text, "work_group_size_hint", function.work_group_size_hint)?;
    push_body(text, names, blocks)
}

fn push_attachment_if(
    text: &mut Vec<u8>,
    name: &str,
    node: Option<NodeRef>,
) -> Result<(), OutOfMemory>
    ensures { OnOk result (text.new.items ≡ text.old.items ++ written (if_some (attachment_phrase name.now) node)) }
{
    match node {
        Some(node) => push_attachment(text, name, node),
        None => Ok(()),
    }
}

/// Writes an attachment behind a blank (LLVM 14, Metadata).
fn push_attachment(text: &mut Vec<u8>, name: &str, node: NodeRef) -> Result<(), OutOfMemory>
    ensures { OnOk result (text.new.items ≡ text.old.items ++ written (attachment_phrase name.now node)) }
{
    push_bytes(text, b" !")?;
    push_str(text, name)?;
    push_bytes(text, b" ")?;
    push_node_ref(text, node)
}

fn push_body(
    text: &mut Vec<u8>,
    names: &[NameText],
    blocks: &[Block<LlInst>],
) -> Result<(), OutOfMemory>
    ensures { OnOk result (text.new.items ≡ text.old.items ++ 32 ∷ 123 ∷ 10 ∷ (written (each_phrase (block_phrase names.now) blocks.now) ++ 125 ∷ 10 ∷ [])) }
{
    push_bytes(text, b" {\n")?;
    push_blocks(text, names, blocks)?;
    push_bytes(text, b"}\n")
}
