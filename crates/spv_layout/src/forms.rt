ghost use Rattle.std.specs.Prelude.{◌≡◌};
ghost use Rattle.std.specs.Option.{option_map};
ghost use Rattle.spv_layout.specs.Forms.{form_row, row_of, form_at, name_at};

use crate::opcode::Opcode;
use crate::operands::OperandKind::*;
use crate::operands::{EnumKind, OperandKind};

/// The form of an instruction (SPIR-V 1.2, 3.32).
#[derive(Clone, Copy, Debug)]
pub struct Form {
    /// The number in the low half of the first word.
    pub op: u16,
    /// The name of the standard, with `Op` before it.
    pub name: &'static str,
    /// What follows the first word, in order.
    pub operands: &'static [OperandKind],
}

/// The form of the instruction with this opcode: `None` exactly where no instruction here has it.
pub fn form_of(op: u16) -> Option<&'static Form>
    ensures { option_map (λ form. form_row form.now) result ≡ form_at op }
{
    Opcode::from_number(op).map(|opcode| opcode.form())
}

/// The name of the instruction with this opcode, with `Op` before it: `None` exactly where no instruction here has it.
pub fn name_of(op: u16) -> Option<&'static str>
    ensures { option_map (λ name. name.now) result ≡ name_at op }
{
    form_of(op).map(|form| form.name)
}

impl Opcode {
    /// The form of the instruction.
    pub fn form(self) -> &'static Form
        ensures { form_row result.now ≡ row_of self }
    {
        match self {
            Opcode::Nop => &Form {
                op: 0,
                name: "OpNop",
                operands: &[],
            },
            Opcode::SourceContinued => &Form {
                op: 2,
                name: "OpSourceContinued",
                operands: &[S],
            },
            Opcode::Source => &Form {
                op: 3,
                name: "OpSource",
                operands: &[E(EnumKind::Language), W, OptIS],
            },
            Opcode::SourceExtension => &Form {
                op: 4,
                name: "OpSourceExtension",
                operands: &[S],
            },
            Opcode::Name => &Form {
                op: 5,
                name: "OpName",
                operands: &[I, S],
            },
            Opcode::MemberName => &Form {
                op: 6,
                name: "OpMemberName",
                operands: &[I, W, S],
            },
            Opcode::String => &Form {
                op: 7,
                name: "OpString",
                operands: &[R, S],
            },
            Opcode::Line => &Form {
                op: 8,
                name: "OpLine",
                operands: &[I, W, W],
            },
            Opcode::Extension => &Form {
                op: 10,
                name: "OpExtension",
                operands: &[S],
            },
            Opcode::ExtInstImport => &Form {
                op: 11,
                name: "OpExtInstImport",
                operands: &[R, S],
            },
            Opcode::ExtInst => &Form {
                op: 12,
                name: "OpExtInst",
                operands: &[T, R, I, W, ManyI],
            },
            Opcode::MemoryModel => &Form {
                op: 14,
                name: "OpMemoryModel",
                operands: &[E(EnumKind::Addressing), E(EnumKind::Memory)],
            },
            Opcode::EntryPoint => &Form {
                op: 15,
                name: "OpEntryPoint",
                operands: &[E(EnumKind::Model), I, S, ManyI],
            },
            Opcode::ExecutionMode => &Form {
                op: 16,
                name: "OpExecutionMode",
                operands: &[I, E(EnumKind::Mode)],
            },
            Opcode::Capability => &Form {
                op: 17,
                name: "OpCapability",
                operands: &[E(EnumKind::Capability)],
            },
            Opcode::TypeVoid => &Form {
                op: 19,
                name: "OpTypeVoid",
                operands: &[R],
            },
            Opcode::TypeBool => &Form {
                op: 20,
                name: "OpTypeBool",
                operands: &[R],
            },
            Opcode::TypeInt => &Form {
                op: 21,
                name: "OpTypeInt",
                operands: &[R, W, W],
            },
            Opcode::TypeVector => &Form {
                op: 23,
                name: "OpTypeVector",
                operands: &[R, I, W],
            },
            Opcode::TypeArray => &Form {
                op: 28,
                name: "OpTypeArray",
                operands: &[R, I, I],
            },
            Opcode::TypeStruct => &Form {
                op: 30,
                name: "OpTypeStruct",
                operands: &[R, ManyI],
            },
            Opcode::TypePointer => &Form {
                op: 32,
                name: "OpTypePointer",
                operands: &[R, E(EnumKind::Class), I],
            },
            Opcode::TypeFunction => &Form {
                op: 33,
                name: "OpTypeFunction",
                operands: &[R, I, ManyI],
            },
            Opcode::ConstantTrue => &Form {
                op: 41,
                name: "OpConstantTrue",
                operands: &[T, R],
            },
            Opcode::ConstantFalse => &Form {
                op: 42,
                name: "OpConstantFalse",
                operands: &[T, R],
            },
            Opcode::Constant => &Form {
                op: 43,
                name: "OpConstant",
                operands: &[T, R, N],
            },
            Opcode::ConstantComposite => &Form {
                op: 44,
                name: "OpConstantComposite",
                operands: &[T, R, ManyI],
            },
            Opcode::ConstantNull => &Form {
                op: 46,
                name: "OpConstantNull",
                operands: &[T, R],
            },
            Opcode::Function => &Form {
                op: 54,
                name: "OpFunction",
                operands: &[T, R, E(EnumKind::FunctionControl), I],
            },
            Opcode::FunctionParameter => &Form {
                op: 55,
                name: "OpFunctionParameter",
                operands: &[T, R],
            },
            Opcode::FunctionEnd => &Form {
                op: 56,
                name: "OpFunctionEnd",
                operands: &[],
            },
            Opcode::FunctionCall => &Form {
                op: 57,
                name: "OpFunctionCall",
                operands: &[T, R, I, ManyI],
            },
            Opcode::Variable => &Form {
                op: 59,
                name: "OpVariable",
                operands: &[T, R, E(EnumKind::Class), OptI],
            },
            Opcode::Load => &Form {
                op: 61,
                name: "OpLoad",
                operands: &[T, R, I, OptE(EnumKind::Access)],
            },
            Opcode::Store => &Form {
                op: 62,
                name: "OpStore",
                operands: &[I, I, OptE(EnumKind::Access)],
            },
            Opcode::AccessChain => &Form {
                op: 65,
                name: "OpAccessChain",
                operands: &[T, R, I, ManyI],
            },
            Opcode::InBoundsAccessChain => &Form {
                op: 66,
                name: "OpInBoundsAccessChain",
                operands: &[T, R, I, ManyI],
            },
            Opcode::PtrAccessChain => &Form {
                op: 67,
                name: "OpPtrAccessChain",
                operands: &[T, R, I, I, ManyI],
            },
            Opcode::InBoundsPtrAccessChain => &Form {
                op: 70,
                name: "OpInBoundsPtrAccessChain",
                operands: &[T, R, I, I, ManyI],
            },
            Opcode::Decorate => &Form {
                op: 71,
                name: "OpDecorate",
                operands: &[I, E(EnumKind::Decoration)],
            },
            Opcode::MemberDecorate => &Form {
                op: 72,
                name: "OpMemberDecorate",
                operands: &[I, W, E(EnumKind::Decoration)],
            },
            Opcode::DecorationGroup => &Form {
                op: 73,
                name: "OpDecorationGroup",
                operands: &[R],
            },
            Opcode::GroupDecorate => &Form {
                op: 74,
                name: "OpGroupDecorate",
                operands: &[I, ManyI],
            },
            Opcode::VectorExtractDynamic => &Form {
                op: 77,
                name: "OpVectorExtractDynamic",
                operands: &[T, R, I, I],
            },
            Opcode::VectorInsertDynamic => &Form {
                op: 78,
                name: "OpVectorInsertDynamic",
                operands: &[T, R, I, I, I],
            },
            Opcode::VectorShuffle => &Form {
                op: 79,
                name: "OpVectorShuffle",
                operands: &[T, R, I, I, ManyW],
            },
            Opcode::CompositeConstruct => &Form {
                op: 80,
                name: "OpCompositeConstruct",
                operands: &[T, R, ManyI],
            },
            Opcode::CompositeExtract => &Form {
                op: 81,
                name: "OpCompositeExtract",
                operands: &[T, R, I, ManyW],
            },
            Opcode::CompositeInsert => &Form {
                op: 82,
                name: "OpCompositeInsert",
                operands: &[T, R, I, I, ManyW],
            },
            Opcode::CopyObject => &Form {
                op: 83,
                name: "OpCopyObject",
                operands: &[T, R, I],
            },
            Opcode::UConvert => &Form {
                op: 113,
                name: "OpUConvert",
                operands: &[T, R, I],
            },
            Opcode::SConvert => &Form {
                op: 114,
                name: "OpSConvert",
                operands: &[T, R, I],
            },
            Opcode::ConvertPtrToU => &Form {
                op: 117,
                name: "OpConvertPtrToU",
                operands: &[T, R, I],
            },
            Opcode::ConvertUToPtr => &Form {
                op: 120,
                name: "OpConvertUToPtr",
                operands: &[T, R, I],
            },
            Opcode::PtrCastToGeneric => &Form {
                op: 121,
                name: "OpPtrCastToGeneric",
                operands: &[T, R, I],
            },
            Opcode::GenericCastToPtr => &Form {
                op: 122,
                name: "OpGenericCastToPtr",
                operands: &[T, R, I],
            },
            Opcode::Bitcast => &Form {
                op: 124,
                name: "OpBitcast",
                operands: &[T, R, I],
            },
            Opcode::SNegate => &Form {
                op: 126,
                name: "OpSNegate",
                operands: &[T, R, I],
            },
            Opcode::IAdd => &Form {
                op: 128,
                name: "OpIAdd",
                operands: &[T, R, I, I],
            },
            Opcode::ISub => &Form {
                op: 130,
                name: "OpISub",
                operands: &[T, R, I, I],
            },
            Opcode::IMul => &Form {
                op: 132,
                name: "OpIMul",
                operands: &[T, R, I, I],
            },
            Opcode::UDiv => &Form {
                op: 134,
                name: "OpUDiv",
                operands: &[T, R, I, I],
            },
            Opcode::SDiv => &Form {
                op: 135,
                name: "OpSDiv",
                operands: &[T, R, I, I],
            },
            Opcode::UMod => &Form {
                op: 137,
                name: "OpUMod",
                operands: &[T, R, I, I],
            },
            Opcode::SRem => &Form {
                op: 138,
                name: "OpSRem",
                operands: &[T, R, I, I],
            },
            Opcode::LogicalEqual => &Form {
                op: 164,
                name: "OpLogicalEqual",
                operands: &[T, R, I, I],
            },
            Opcode::LogicalNotEqual => &Form {
                op: 165,
                name: "OpLogicalNotEqual",
                operands: &[T, R, I, I],
            },
            Opcode::LogicalOr => &Form {
                op: 166,
                name: "OpLogicalOr",
                operands: &[T, R, I, I],
            },
            Opcode::LogicalAnd => &Form {
                op: 167,
                name: "OpLogicalAnd",
                operands: &[T, R, I, I],
            },
            Opcode::LogicalNot => &Form {
                op: 168,
                name: "OpLogicalNot",
                operands: &[T, R, I],
            },
            Opcode::Select => &Form {
                op: 169,
                name: "OpSelect",
                operands: &[T, R, I, I, I],
            },
            Opcode::IEqual => &Form {
                op: 170,
                name: "OpIEqual",
                operands: &[T, R, I, I],
            },
            Opcode::INotEqual => &Form {
                op: 171,
                name: "OpINotEqual",
                operands: &[T, R, I, I],
            },
            Opcode::UGreaterThan => &Form {
                op: 172,
                name: "OpUGreaterThan",
                operands: &[T, R, I, I],
            },
            Opcode::SGreaterThan => &Form {
                op: 173,
                name: "OpSGreaterThan",
                operands: &[T, R, I, I],
            },
            Opcode::UGreaterThanEqual => &Form {
                op: 174,
                name: "OpUGreaterThanEqual",
                operands: &[T, R, I, I],
            },
            Opcode::SGreaterThanEqual => &Form {
                op: 175,
                name: "OpSGreaterThanEqual",
                operands: &[T, R, I, I],
            },
            Opcode::ULessThan => &Form {
                op: 176,
                name: "OpULessThan",
                operands: &[T, R, I, I],
            },
            Opcode::SLessThan => &Form {
                op: 177,
                name: "OpSLessThan",
                operands: &[T, R, I, I],
            },
            Opcode::ULessThanEqual => &Form {
                op: 178,
                name: "OpULessThanEqual",
                operands: &[T, R, I, I],
            },
            Opcode::SLessThanEqual => &Form {
                op: 179,
                name: "OpSLessThanEqual",
                operands: &[T, R, I, I],
            },
            Opcode::ShiftRightLogical => &Form {
                op: 194,
                name: "OpShiftRightLogical",
                operands: &[T, R, I, I],
            },
            Opcode::ShiftRightArithmetic => &Form {
                op: 195,
                name: "OpShiftRightArithmetic",
                operands: &[T, R, I, I],
            },
            Opcode::ShiftLeftLogical => &Form {
                op: 196,
                name: "OpShiftLeftLogical",
                operands: &[T, R, I, I],
            },
            Opcode::BitwiseOr => &Form {
                op: 197,
                name: "OpBitwiseOr",
                operands: &[T, R, I, I],
            },
            Opcode::BitwiseXor => &Form {
                op: 198,
                name: "OpBitwiseXor",
                operands: &[T, R, I, I],
            },
            Opcode::BitwiseAnd => &Form {
                op: 199,
                name: "OpBitwiseAnd",
                operands: &[T, R, I, I],
            },
            Opcode::Not => &Form {
                op: 200,
                name: "OpNot",
                operands: &[T, R, I],
            },
            Opcode::ControlBarrier => &Form {
                op: 224,
                name: "OpControlBarrier",
                operands: &[I, I, I],
            },
            Opcode::MemoryBarrier => &Form {
                op: 225,
                name: "OpMemoryBarrier",
                operands: &[I, I],
            },
            Opcode::AtomicLoad => &Form {
                op: 227,
                name: "OpAtomicLoad",
                operands: &[T, R, I, I, I],
            },
            Opcode::AtomicStore => &Form {
                op: 228,
                name: "OpAtomicStore",
                operands: &[I, I, I, I],
            },
            Opcode::AtomicExchange => &Form {
                op: 229,
                name: "OpAtomicExchange",
                operands: &[T, R, I, I, I, I],
            },
            Opcode::AtomicCompareExchange => &Form {
                op: 230,
                name: "OpAtomicCompareExchange",
                operands: &[T, R, I, I, I, I, I, I],
            },
            Opcode::AtomicIIncrement => &Form {
                op: 232,
                name: "OpAtomicIIncrement",
                operands: &[T, R, I, I, I],
            },
            Opcode::AtomicIDecrement => &Form {
                op: 233,
                name: "OpAtomicIDecrement",
                operands: &[T, R, I, I, I],
            },
            Opcode::AtomicIAdd => &Form {
                op: 234,
                name: "OpAtomicIAdd",
                operands: &[T, R, I, I, I, I],
            },
            Opcode::AtomicISub => &Form {
                op: 235,
                name: "OpAtomicISub",
                operands: &[T, R, I, I, I, I],
            },
            Opcode::AtomicSMin => &Form {
                op: 236,
                name: "OpAtomicSMin",
                operands: &[T, R, I, I, I, I],
            },
            Opcode::AtomicUMin => &Form {
                op: 237,
                name: "OpAtomicUMin",
                operands: &[T, R, I, I, I, I],
            },
            Opcode::AtomicSMax => &Form {
                op: 238,
                name: "OpAtomicSMax",
                operands: &[T, R, I, I, I, I],
            },
            Opcode::AtomicUMax => &Form {
                op: 239,
                name: "OpAtomicUMax",
                operands: &[T, R, I, I, I, I],
            },
            Opcode::AtomicAnd => &Form {
                op: 240,
                name: "OpAtomicAnd",
                operands: &[T, R, I, I, I, I],
            },
            Opcode::AtomicOr => &Form {
                op: 241,
                name: "OpAtomicOr",
                operands: &[T, R, I, I, I, I],
            },
            Opcode::AtomicXor => &Form {
                op: 242,
                name: "OpAtomicXor",
                operands: &[T, R, I, I, I, I],
            },
            Opcode::Phi => &Form {
                op: 245,
                name: "OpPhi",
                operands: &[T, R, ManyII],
            },
            Opcode::LoopMerge => &Form {
                op: 246,
                name: "OpLoopMerge",
                operands: &[I, I, E(EnumKind::LoopControl)],
            },
            Opcode::SelectionMerge => &Form {
                op: 247,
                name: "OpSelectionMerge",
                operands: &[I, E(EnumKind::SelectionControl)],
            },
            Opcode::Label => &Form {
                op: 248,
                name: "OpLabel",
                operands: &[R],
            },
            Opcode::Branch => &Form {
                op: 249,
                name: "OpBranch",
                operands: &[I],
            },
            Opcode::BranchConditional => &Form {
                op: 250,
                name: "OpBranchConditional",
                operands: &[I, I, I, OptWW],
            },
            Opcode::Switch => &Form {
                op: 251,
                name: "OpSwitch",
                operands: &[I, I, ManyNI],
            },
            Opcode::Return => &Form {
                op: 253,
                name: "OpReturn",
                operands: &[],
            },
            Opcode::ReturnValue => &Form {
                op: 254,
                name: "OpReturnValue",
                operands: &[I],
            },
            Opcode::Unreachable => &Form {
                op: 255,
                name: "OpUnreachable",
                operands: &[],
            },
            Opcode::LifetimeStart => &Form {
                op: 256,
                name: "OpLifetimeStart",
                operands: &[I, W],
            },
            Opcode::LifetimeStop => &Form {
                op: 257,
                name: "OpLifetimeStop",
                operands: &[I, W],
            },
            Opcode::NoLine => &Form {
                op: 317,
                name: "OpNoLine",
                operands: &[],
            },
            Opcode::ModuleProcessed => &Form {
                op: 330,
                name: "OpModuleProcessed",
                operands: &[S],
            },
        }
    }
}
