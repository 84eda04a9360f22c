ghost use Rattle.std.specs.Prelude.{◌≡◌, ◌++◌, [], IfOk, OnOk, map, flat_map};
ghost use Rattle.spv_codec.specs.declared.module.RawInst.{RawInst};
ghost use Rattle.spv_module.specs.Spelled.{spelled, capability_spelled, extension_spelled, import_spelled, memory_model_spelled, entry_spelled, mode_spelled, modes_spelled, string_spelled, source_spelled, decoration_spelled, decoration_group_spelled, group_spelled, class_number, constant_spelled, initializer_words, variable_spelled, param_spelled};

use crate::module::{
    Capability, Constant, ConstantValue, DebugString, Decoration, DecorationGroup, Entry,
    Extension, Group, Import, MemoryModel, Mode, Param, SourceVersion, Variable,
};
use crate::texts::text_words;
use kern_types::Class;
use ports::OutOfMemory;
use spv_codec::RawInst;
use spv_layout::Opcode;
use sqlite_items::Items;
use std::alloc::Global;

/// An item that one instruction of a module says.
pub(crate) trait Spells {
    /// The instruction, where its place is still to be said.
    ghost instruction: { Self → RawInst };

    /// Gives that instruction.
    ///
    /// `OutOfMemory` comes for want of memory alone.
    fn spell(&self, alloc: Global) -> Result<RawInst, OutOfMemory>
        ensures { IfOk result (λ inst. inst ≡ instruction self.now) };
}

/// Appends the instructions of items, in order.
pub(crate) fn add_all<T: Spells>(
    alloc: Global,
    insts: &mut Vec<RawInst>,
    items: &[T],
) -> Result<(), OutOfMemory>
    ensures { OnOk result (insts.new.items ≡ insts.old.items ++ map T.instruction items.now) }
{
    for item in items {
        insts.push(item.spell(alloc)?)?;
    }
    Ok(())
}

/// Appends the instructions of the modes of each entry point, in order.
pub(crate) fn add_modes(
    alloc: Global,
    insts: &mut Vec<RawInst>,
    entries: &[Entry],
) -> Result<(), OutOfMemory>
    ensures { OnOk result (insts.new.items ≡ insts.old.items ++ flat_map modes_spelled entries.now) }
{
    for entry in entries {
        add_modes_of(alloc, insts, entry)?;
    }
    Ok(())
}

fn add_modes_of(alloc: Global, insts: &mut Vec<RawInst>, entry: &Entry) -> Result<(), OutOfMemory>
    ensures { OnOk result (insts.new.items ≡ insts.old.items ++ modes_spelled entry.now) }
{
    for mode in entry.modes.as_slice() {
        insts.push(mode_inst(alloc, entry.function, mode)?)?;
    }
    Ok(())
}

fn mode_inst(alloc: Global, function: u32, mode: &Mode) -> Result<RawInst, OutOfMemory>
    ensures { IfOk result (λ inst. inst ≡ mode_spelled function mode.now) }
{
    let words = mode.words.as_slice();
    long_inst(alloc, Opcode::ExecutionMode, &[function, mode.kind], words)
}

/// An instruction with these operands.
pub(crate) fn short_inst(
    alloc: Global,
    opcode: Opcode,
    words: &[u32],
) -> Result<RawInst, OutOfMemory>
    ensures { IfOk result (λ inst. inst ≡ spelled opcode words.now) }
{
    Ok(RawInst {
        op: opcode.number(),
        place: 0,
        operands: Items::from_slice(alloc, words)?,
    })
}

/// An instruction with these operands, and those behind them.
pub(crate) fn long_inst(
    alloc: Global,
    opcode: Opcode,
    words: &[u32],
    behind: &[u32],
) -> Result<RawInst, OutOfMemory>
    ensures { IfOk result (λ inst. inst ≡ spelled opcode (words.now ++ behind.now)) }
{
    let mut operands = Vec::from_slice(alloc, words)?;
    operands.extend_from_slice(behind)?;
    Ok(RawInst {
        op: opcode.number(),
        place: 0,
        operands: Items::from_vec(operands),
    })
}

impl Spells for Capability {
    ghost use Rattle.spv_module.specs.Spelled.{capability_spelled};

    ghost instruction = { capability_spelled };

    fn spell(&self, alloc: Global) -> Result<RawInst, OutOfMemory> {
        short_inst(alloc, Opcode::Capability, &[self.number])
    }
}

impl Spells for Extension {
    ghost use Rattle.spv_module.specs.Spelled.{extension_spelled};

    ghost instruction = { extension_spelled };

    fn spell(&self, alloc: Global) -> Result<RawInst, OutOfMemory> {
        let name = text_words(alloc, self.name.as_slice())?;
        short_inst(alloc, Opcode::Extension, &name)
    }
}

impl Spells for Import {
    ghost use Rattle.spv_module.specs.Spelled.{import_spelled};

    ghost instruction = { import_spelled };

    fn spell(&self, alloc: Global) -> Result<RawInst, OutOfMemory> {
        let name = text_words(alloc, self.name.as_slice())?;
        long_inst(alloc, Opcode::ExtInstImport, &[self.id], &name)
    }
}

impl Spells for MemoryModel {
    ghost use Rattle.spv_module.specs.Spelled.{memory_model_spelled};

    ghost instruction = { memory_model_spelled };

    fn spell(&self, alloc: Global) -> Result<RawInst, OutOfMemory> {
        short_inst(alloc, Opcode::MemoryModel, &[self.addressing, self.memory])
    }
}

impl Spells for Entry {
    ghost use Rattle.spv_module.specs.Spelled.{entry_spelled};

    ghost instruction = { entry_spelled };

    fn spell(&self, alloc: Global) -> Result<RawInst, OutOfMemory> {
        let mut words = text_words(alloc, self.name.as_slice())?;
        words.extend_from_slice(self.interface.as_slice())?;
        long_inst(alloc, Opcode::EntryPoint, &[KERNEL, self.function], &words)
    }
}

/// The number of the execution model Kernel (SPIR-V 1.2, 3.3).
const KERNEL: u32 = 6;

/// The number of the language OpenCL C (SPIR-V 1.2, 3.2).
const OPENCL_C: u32 = 3;

impl Spells for DebugString {
    ghost use Rattle.spv_module.specs.Spelled.{string_spelled};

    ghost instruction = { string_spelled };

    fn spell(&self, alloc: Global) -> Result<RawInst, OutOfMemory> {
        let text = text_words(alloc, self.text.as_slice())?;
        long_inst(alloc, Opcode::String, &[self.id], &text)
    }
}

impl Spells for SourceVersion {
    ghost use Rattle.spv_module.specs.Spelled.{source_spelled};

    ghost instruction = { source_spelled };

    fn spell(&self, alloc: Global) -> Result<RawInst, OutOfMemory> {
        short_inst(alloc, Opcode::Source, &[OPENCL_C, self.version])
    }
}

impl Spells for Decoration {
    ghost use Rattle.spv_module.specs.Spelled.{decoration_spelled};

    ghost instruction = { decoration_spelled };

    fn spell(&self, alloc: Global) -> Result<RawInst, OutOfMemory> {
        let words = self.words.as_slice();
        match self.member {
            None => long_inst(alloc, Opcode::Decorate, &[self.target, self.kind], words),
            Some(member) => {
                long_inst(
                    alloc,
                    Opcode::MemberDecorate,
                    &[self.target, member, self.kind],
                    words,
                )
            }
        }
    }
}

impl Spells for DecorationGroup {
    ghost use Rattle.spv_module.specs.Spelled.{decoration_group_spelled};

    ghost instruction = { decoration_group_spelled };

    fn spell(&self, alloc: Global) -> Result<RawInst, OutOfMemory> {
        short_inst(alloc, Opcode::DecorationGroup, &[self.id])
    }
}

impl Spells for Group {
    ghost use Rattle.spv_module.specs.Spelled.{group_spelled};

    ghost instruction = { group_spelled };

    fn spell(&self, alloc: Global) -> Result<RawInst, OutOfMemory> {
        long_inst(
            alloc,
            Opcode::GroupDecorate,
            &[self.group],
            self.targets.as_slice(),
        )
    }
}

impl Spells for Constant {
    ghost use Rattle.spv_module.specs.Spelled.{constant_spelled};

    ghost instruction = { constant_spelled };

    fn spell(&self, alloc: Global) -> Result<RawInst, OutOfMemory> {
        let (ty, id) = (self.ty, self.id);
        match &self.value {
            ConstantValue::True => short_inst(alloc, Opcode::ConstantTrue, &[ty, id]),
            ConstantValue::False => short_inst(alloc, Opcode::ConstantFalse, &[ty, id]),
            ConstantValue::Number { low, high: None } => short_inst(
                alloc,
                Opcode::Constant,
                &[ty, id, *low],
            ),
            ConstantValue::Number {
                low,
                high: Some(high),
            } => { short_inst(alloc, Opcode::Constant, &[ty, id, *low, *high]) }
            ConstantValue::Composite(parts) => {
                long_inst(
                    alloc,
                    Opcode::ConstantComposite,
                    &[ty, id],
                    parts.as_slice(),
                )
            }
            ConstantValue::Null => short_inst(alloc, Opcode::ConstantNull, &[ty, id]),
        }
    }
}

impl Spells for Variable {
    ghost use Rattle.spv_module.specs.Spelled.{variable_spelled};

    ghost instruction = { variable_spelled };

    fn spell(&self, alloc: Global) -> Result<RawInst, OutOfMemory> {
        let class = class_number(self.class);
        match self.initializer {
            None => short_inst(alloc, Opcode::Variable, &[self.ty, self.id, class]),
            Some(initializer) => {
                short_inst(
                    alloc,
                    Opcode::Variable,
                    &[self.ty, self.id, class, initializer],
                )
            }
        }
    }
}

impl Spells for Param {
    ghost use Rattle.spv_module.specs.Spelled.{param_spelled};

    ghost instruction = { param_spelled };

    fn spell(&self, alloc: Global) -> Result<RawInst, OutOfMemory> {
        short_inst(alloc, Opcode::FunctionParameter, &[self.ty, self.id])
    }
}

/// The number of a storage class (SPIR-V 1.2, 3.7).
pub(crate) fn class_number(class: Class) -> u32
    ensures { result ≡ class_number class }
{
    match class {
        Class::Private => 7,
        Class::Global => 5,
        Class::Constant => 0,
        Class::Local => 4,
        Class::Generic => 8,
        Class::Input => 1,
    }
}
