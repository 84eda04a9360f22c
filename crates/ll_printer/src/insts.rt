ghost use Rattle.std.specs.Prelude.{◌≡◌, ◌++◌, ◌∷◌, [], OnOk};
ghost use Rattle.ll_printed.specs.FunctionPhrases.{block_name_phrase, block_phrase, inst_phrase, value_name_phrase};
ghost use Rattle.ll_phrases.specs.Phrases.{each_phrase, if_some, written};

use inst_walk::Block;
use ll_op_printer::{can_be_written, push_bytes, push_label, push_local, push_op};
use ll_tree::{Inst, LlInst, Name, NameText};
use ports::OutOfMemory;

/// Writes the blocks of a function.
pub fn push_blocks(
    text: &mut Vec<u8>,
    names: &[NameText],
    blocks: &[Block<LlInst>],
) -> Result<(), OutOfMemory>
    ensures { OnOk result (text.new.items ≡ text.old.items ++ written (each_phrase (block_phrase names.now) blocks.now)) }
{
    for i in 0..blocks.len() {
        push_block(text, names, &blocks[i])?;
    }
    Ok(())
}

fn push_block(
    text: &mut Vec<u8>,
    names: &[NameText],
    block: &Block<LlInst>,
) -> Result<(), OutOfMemory>
    ensures { OnOk result (text.new.items ≡ text.old.items ++ written (block_phrase names.now block.now)) }
{
    push_block_name(text, names, block.name)?;
    push_insts(text, names, block.insts.as_slice())
}

/// Writes the line of a block's label, where its name may be written.
fn push_block_name(text: &mut Vec<u8>, names: &[NameText], number: u32) -> Result<(), OutOfMemory>
    ensures { OnOk result (text.new.items ≡ text.old.items ++ written (block_name_phrase names.now number)) }
{
    if can_be_written(names, number) {
        push_label(text, names, number)?;
        push_bytes(text, b"\n")
    } else {
        Ok(())
    }
}

/// Writes the line of each instruction.
fn push_insts(text: &mut Vec<u8>, names: &[NameText], insts: &[LlInst]) -> Result<(), OutOfMemory>
    ensures { OnOk result (text.new.items ≡ text.old.items ++ written (each_phrase (inst_phrase names.now) insts.now)) }
{
    for i in 0..insts.len() {
        push_line(text, names, &insts[i])?;
    }
    Ok(())
}

fn push_line(text: &mut Vec<u8>, names: &[NameText], line: &LlInst) -> Result<(), OutOfMemory>
    ensures { OnOk result (text.new.items ≡ text.old.items ++ written (inst_phrase names.now line.now)) }
{
    push_inst(text, names, line.inst())
}

fn push_inst(text: &mut Vec<u8>, names: &[NameText], inst: &Inst) -> Result<(), OutOfMemory>
    ensures { OnOk result (text.new.items ≡ text.old.items ++ written (inst_phrase names.now inst.now)) }
{
    push_bytes(text, b"  ")?;
    push_value_name_if(text, names, inst.defines)?;
    push_op(text, names, &inst.op)?;
    push_bytes(text, b"\n")
}

fn push_value_name_if(
    text: &mut Vec<u8>,
    names: &[NameText],
    name: Option<Name>,
) -> Result<(), OutOfMemory>
    ensures { OnOk result (text.new.items ≡ text.old.items ++ written (if_some (value_name_phrase names.now) name)) }
{
    match name {
        Some(name) => push_value_name(text, names, name),
        None => Ok(()),
    }
}

/// Writes the name of an instruction's value before its `=`, where it may be written.
fn push_value_name(text: &mut Vec<u8>, names: &[NameText], name: Name) -> Result<(), OutOfMemory>
    ensures { OnOk result (text.new.items ≡ text.old.items ++ written (value_name_phrase names.now name)) }
{
    if can_be_written(names, name.number) {
        push_local(text, names, name)?;
        push_bytes(text, b" = ")
    } else {
        Ok(())
    }
}
