ghost use Rattle.std.specs.Prelude.{◌≡◌};
ghost use Rattle.spv_sections.specs.Standing.{rank_of, standing_of, variable_standing, opcode_standing, begins_functions};

use spv_codec::RawInst;
use spv_layout::Opcode;

/// The sections of a module, in order (SPIR-V 1.2, 2.4).
#[derive(Clone, Copy, Debug, PartialEq, Eq)]
pub enum Section {
    Capabilities = 0,
    Extensions = 1,
    Imports = 2,
    MemoryModel = 3,
    EntryPoints = 4,
    Modes = 5,
    /// Texts and the source.
    Sources = 6,
    Names = 7,
    Processes = 8,
    Annotations = 9,
    /// Types, constants and the module's variables.
    Declarations = 10,
    Functions = 11,
}

impl Section {
    /// How many sections stand before it.
    pub fn rank(self) -> u8
        ensures { result ≡ rank_of self }
    {
        self as u8
    }
}

/// Where an instruction may stand.
#[derive(Clone, Copy, Debug, PartialEq, Eq)]
pub enum Standing {
    /// In any section.
    Anywhere,
    /// In the last two sections: it belongs to that of the declarations up to the first instruction that belongs to the functions alone.
    LastTwo,
    /// In one section.
    In(Section),
}

/// Where an instruction may stand, by its opcode and, for a variable, its storage class (SPIR-V 1.2, 2.4).
#[tactic(auto, unfolding(crate::specs::Standing::standing_of))]
pub fn standing_of(inst: &RawInst) -> Standing
    ensures { result ≡ standing_of inst.now }
{
    match Opcode::from_number(inst.op) {
        Some(Opcode::Variable) => variable_standing(inst.operands.as_slice()),
        Some(opcode) => opcode_standing(opcode),
        None => Standing::In(Section::Functions),
    }
}

/// Where a variable may stand: one of class Function belongs to the functions alone.
fn variable_standing(operands: &[u32]) -> Standing
    ensures { result ≡ variable_standing operands.now }
{
    match operands {
        [_, _, 7, ..] => Standing::In(Section::Functions),
        _ => Standing::LastTwo,
    }
}

fn opcode_standing(opcode: Opcode) -> Standing
    ensures { result ≡ opcode_standing opcode }
{
    match opcode {
        Opcode::Nop => Standing::Anywhere,
        Opcode::Line | Opcode::NoLine | Opcode::Variable => Standing::LastTwo,
        Opcode::Capability => Standing::In(Section::Capabilities),
        Opcode::Extension => Standing::In(Section::Extensions),
        Opcode::ExtInstImport => Standing::In(Section::Imports),
        Opcode::MemoryModel => Standing::In(Section::MemoryModel),
        Opcode::EntryPoint => Standing::In(Section::EntryPoints),
        Opcode::ExecutionMode => Standing::In(Section::Modes),
        Opcode::SourceContinued | Opcode::Source | Opcode::SourceExtension | Opcode::String => {
            Standing::In(Section::Sources)
        }
        Opcode::Name | Opcode::MemberName => Standing::In(Section::Names),
        Opcode::ModuleProcessed => Standing::In(Section::Processes),
        Opcode::Decorate
        | Opcode::MemberDecorate
        | Opcode::DecorationGroup
        | Opcode::GroupDecorate => Standing::In(Section::Annotations),
        Opcode::TypeVoid
        | Opcode::TypeBool
        | Opcode::TypeInt
        | Opcode::TypeVector
        | Opcode::TypeArray
        | Opcode::TypeStruct
        | Opcode::TypePointer
        | Opcode::TypeFunction
        | Opcode::ConstantTrue
        | Opcode::ConstantFalse
        | Opcode::Constant
        | Opcode::ConstantComposite
        | Opcode::ConstantNull => Standing::In(Section::Declarations),
        _ => Standing::In(Section::Functions),
    }
}

/// Whether the function section begins with this instruction at the latest.
pub fn begins_functions(inst: &RawInst) -> bool
    ensures { result ≡ begins_functions inst.now }
{
    matches!(standing_of(inst), Standing::In(Section::Functions))
}
