ghost use Rattle.std.specs.Prelude.{◌≡◌, IfOk};
ghost use Rattle.spv_build.specs.Items.{decoration_by};

use crate::items::FromInst;
use crate::texts::text_of;
use ports::OutOfMemory;
use spv_codec::RawInst;
use spv_layout::Opcode;
use spv_module::{
    Capability, DebugString, Decoration, DecorationGroup, Extension, Group, Import, MemoryModel,
    SourceVersion,
};
use sqlite_items::Items;
use std::alloc::Global;

impl FromInst for Capability {
    ghost use Rattle.spv_build.specs.Items.{capability_of};

    ghost said = { capability_of };

    fn read(_alloc: Global, inst: &RawInst) -> Result<Option<Capability>, OutOfMemory> {
        if inst.op != Opcode::Capability.number() {
            return Ok(None);
        }
        match inst.operands.as_slice() {
            [number, ..] => Ok(Some(Capability {
                number: *number,
                place: inst.place,
            })),
            [] => Ok(None),
        }
    }
}

impl FromInst for Extension {
    ghost use Rattle.spv_build.specs.Items.{extension_of};

    ghost said = { extension_of };

    fn read(alloc: Global, inst: &RawInst) -> Result<Option<Extension>, OutOfMemory> {
        if inst.op != Opcode::Extension.number() {
            return Ok(None);
        }
        Ok(Some(Extension {
            name: text_of(alloc, inst.operands.as_slice())?,
            place: inst.place,
        }))
    }
}

impl FromInst for Import {
    ghost use Rattle.spv_build.specs.Items.{import_of};

    ghost said = { import_of };

    fn read(alloc: Global, inst: &RawInst) -> Result<Option<Import>, OutOfMemory> {
        if inst.op != Opcode::ExtInstImport.number() {
            return Ok(None);
        }
        match inst.operands.as_slice() {
            [id, words @ ..] => Ok(Some(Import {
                id: *id,
                name: text_of(alloc, words)?,
                place: inst.place,
            })),
            [] => Ok(None),
        }
    }
}

impl FromInst for MemoryModel {
    ghost use Rattle.spv_build.specs.Items.{memory_model_of};

    ghost said = { memory_model_of };

    fn read(_alloc: Global, inst: &RawInst) -> Result<Option<MemoryModel>, OutOfMemory> {
        if inst.op != Opcode::MemoryModel.number() {
            return Ok(None);
        }
        match inst.operands.as_slice() {
            [addressing, memory, ..] => Ok(Some(MemoryModel {
                addressing: *addressing,
                memory: *memory,
                place: inst.place,
            })),
            _ => Ok(None),
        }
    }
}

impl FromInst for DebugString {
    ghost use Rattle.spv_build.specs.Items.{string_of};

    ghost said = { string_of };

    fn read(alloc: Global, inst: &RawInst) -> Result<Option<DebugString>, OutOfMemory> {
        if inst.op != Opcode::String.number() {
            return Ok(None);
        }
        match inst.operands.as_slice() {
            [id, words @ ..] => Ok(Some(DebugString {
                id: *id,
                text: text_of(alloc, words)?,
                place: inst.place,
            })),
            [] => Ok(None),
        }
    }
}

impl FromInst for SourceVersion {
    ghost use Rattle.spv_build.specs.Items.{source_of};

    ghost said = { source_of };

    fn read(_alloc: Global, inst: &RawInst) -> Result<Option<SourceVersion>, OutOfMemory> {
        if inst.op != Opcode::Source.number() {
            return Ok(None);
        }
        match inst.operands.as_slice() {
            [_, version, ..] => Ok(Some(SourceVersion {
                version: *version,
                place: inst.place,
            })),
            _ => Ok(None),
        }
    }
}

impl FromInst for Decoration {
    ghost use Rattle.spv_build.specs.Items.{decoration_of};

    ghost said = { decoration_of };

    fn read(alloc: Global, inst: &RawInst) -> Result<Option<Decoration>, OutOfMemory> {
        let operands = inst.operands.as_slice();
        decoration_by(alloc, Opcode::from_number(inst.op), inst.place, operands)
    }
}

fn decoration_by(
    alloc: Global,
    opcode: Option<Opcode>,
    place: u64,
    operands: &[u32],
) -> Result<Option<Decoration>, OutOfMemory>
    ensures { IfOk result (λ decoration. decoration ≡ decoration_by opcode place operands.now) }
{
    match (opcode, operands) {
        (Some(Opcode::Decorate), [target, kind, words @ ..]) => Ok(Some(Decoration {
            target: *target,
            member: None,
            kind: *kind,
            words: Items::from_slice(alloc, words)?,
            place,
        })),
        (Some(Opcode::MemberDecorate), [target, member, kind, words @ ..]) => Ok(Some(
            Decoration {
                target: *target,
                member: Some(*member),
                kind: *kind,
                words: Items::from_slice(alloc, words)?,
                place,
            },
        )),
        _ => Ok(None),
    }
}

impl FromInst for DecorationGroup {
    ghost use Rattle.spv_build.specs.Items.{decoration_group_of};

    ghost said = { decoration_group_of };

    fn read(_alloc: Global, inst: &RawInst) -> Result<Option<DecorationGroup>, OutOfMemory> {
        if inst.op != Opcode::DecorationGroup.number() {
            return Ok(None);
        }
        match inst.operands.as_slice() {
            [id, ..] => Ok(Some(DecorationGroup {
                id: *id,
                place: inst.place,
            })),
            [] => Ok(None),
        }
    }
}

impl FromInst for Group {
    ghost use Rattle.spv_build.specs.Items.{group_of};

    ghost said = { group_of };

    fn read(alloc: Global, inst: &RawInst) -> Result<Option<Group>, OutOfMemory> {
        if inst.op != Opcode::GroupDecorate.number() {
            return Ok(None);
        }
        match inst.operands.as_slice() {
            [group, targets @ ..] => Ok(Some(Group {
                group: *group,
                targets: Items::from_slice(alloc, targets)?,
                place: inst.place,
            })),
            [] => Ok(None),
        }
    }
}
