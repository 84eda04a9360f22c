use crate::inst::SpvInst;
use crate::types::Types;
use inst_walk::Body;
use kern_types::Class;
use spv_words::Order;
use sqlite_items::Items;

/// A capability that the module asks for (SPIR-V 1.2, 3.31).
#[derive(Clone, Copy, Debug, PartialEq, Eq)]
pub struct Capability {
    pub number: u32,
    pub place: u64,
}

/// An extension that the module asks for, by its name (SPIR-V 1.2, OpExtension).
#[derive(Drop)]
pub struct Extension {
    pub name: Items<u8>,
    pub place: u64,
}

/// A set of extended instructions, by its name (SPIR-V 1.2, OpExtInstImport).
#[derive(Drop)]
pub struct Import {
    pub id: u32,
    pub name: Items<u8>,
    pub place: u64,
}

/// The memory model with the addressing model (SPIR-V 1.2, OpMemoryModel).
#[derive(Clone, Copy, Debug, PartialEq, Eq)]
pub struct MemoryModel {
    pub addressing: u32,
    pub memory: u32,
    pub place: u64,
}

/// An execution mode, and the literal words behind it (SPIR-V 1.2, 3.6).
#[derive(Drop)]
pub struct Mode {
    pub kind: u32,
    pub words: Items<u32>,
    pub place: u64,
}

/// An entry point of the execution model Kernel: its function, its name, its interface, and the modes that are set for it (SPIR-V 1.2,
/// OpEntryPoint, OpExecutionMode).
#[derive(Drop)]
pub struct Entry {
    pub function: u32,
    pub name: Items<u8>,
    pub interface: Items<u32>,
    pub modes: Items<Mode>,
    pub place: u64,
}

/// A text with an id (SPIR-V 1.2, OpString).
#[derive(Drop)]
pub struct DebugString {
    pub id: u32,
    pub text: Items<u8>,
    pub place: u64,
}

/// The version of OpenCL C that the module was written in, as 100000 times the major and 1000 times the minor version (SPIR-V 1.2,
/// OpSource).
#[derive(Clone, Copy, Debug, PartialEq, Eq)]
pub struct SourceVersion {
    pub version: u32,
    pub place: u64,
}

/// A decoration of an id or of a member of a struct type, and the literal words behind it (SPIR-V 1.2, OpDecorate, OpMemberDecorate).
#[derive(Drop)]
pub struct Decoration {
    pub target: u32,
    pub member: Option<u32>,
    pub kind: u32,
    pub words: Items<u32>,
    pub place: u64,
}

/// An id that decorations can be given to, so that others take them over (SPIR-V 1.2, OpDecorationGroup).
#[derive(Clone, Copy, Debug, PartialEq, Eq)]
pub struct DecorationGroup {
    pub id: u32,
    pub place: u64,
}

/// Ids that take over the decorations of a group (SPIR-V 1.2, OpGroupDecorate).
#[derive(Drop)]
pub struct Group {
    pub group: u32,
    pub targets: Items<u32>,
    pub place: u64,
}

/// What a constant is (SPIR-V 1.2, 3.32.7).
#[derive(Drop)]
pub enum ConstantValue {
    True,
    False,
    /// The words of a number: of one of 64 bits the higher one too.
    Number { low: u32, high: Option<u32> },
    /// The ids of the parts.
    Composite(Items<u32>),
    Null,
}

/// A constant.
#[derive(Drop)]
pub struct Constant {
    pub id: u32,
    pub ty: u32,
    pub value: ConstantValue,
    pub place: u64,
}

/// A variable of the module (SPIR-V 1.2, OpVariable). Its type is that of the pointer to it.
#[derive(Clone, Copy, Debug, PartialEq, Eq)]
pub struct Variable {
    pub id: u32,
    pub ty: u32,
    pub class: Class,
    pub initializer: Option<u32>,
    pub place: u64,
}

/// A parameter of a function (SPIR-V 1.2, OpFunctionParameter).
#[derive(Clone, Copy, Debug, PartialEq, Eq)]
pub struct Param {
    pub id: u32,
    pub ty: u32,
    pub place: u64,
}

/// A function but for its body (SPIR-V 1.2, OpFunction): its id, the type of its result, its type, its parameters, and the places of its
/// blocks' labels.
#[derive(Drop)]
pub struct Function {
    pub id: u32,
    pub result: u32,
    pub ty: u32,
    pub params: Items<Param>,
    pub labels: Items<u64>,
    pub place: u64,
}

/// A module (SPIR-V 1.2, 2.4), as far as it is kept: each list in the order of the binary. A place is the number of words of the module
/// that stand before the instruction.
#[derive(Drop)]
pub struct SpvModule {
    /// The order of the bytes in a word of the binary.
    pub order: Order,
    /// The version word: 0x00010200 is 1.2.
    pub version: u32,
    /// One more than the greatest id may be.
    pub bound: u32,
    pub capabilities: Items<Capability>,
    pub extensions: Items<Extension>,
    pub imports: Items<Import>,
    pub memory_model: MemoryModel,
    pub entries: Items<Entry>,
    pub strings: Items<DebugString>,
    pub source: Option<SourceVersion>,
    pub decorations: Items<Decoration>,
    pub decoration_groups: Items<DecorationGroup>,
    pub groups: Items<Group>,
    pub types: Types,
    pub constants: Items<Constant>,
    pub variables: Items<Variable>,
    pub functions: Items<Function>,
    /// The bodies of the functions, one for each.
    pub bodies: Items<Body<SpvInst>>,
}
