use crate::inst::LlInst;
use crate::name::{Name, NameText};
use crate::ty::LlType;
use crate::value::{TypedValue, Value};
use inst_walk::Body;
use kern_types::PointerWidth;
use sqlite_items::Items;

/// Which of the two target lines.
#[derive(Clone, Copy, Debug, PartialEq, Eq)]
pub enum TargetKind {
    DataLayout,
    Triple,
}

/// A target line with its text (LLVM 14, Data Layout; Target Triple).
#[derive(Drop)]
pub struct Target {
    pub kind: TargetKind,
    pub text: Items<u8>,
    pub byte: u64,
}

/// A definition of a struct type. Its place is that of its name.
#[derive(Drop)]
pub struct Struct {
    pub name: Name,
    pub ty: LlType,
}

/// Who sees a function or a variable (LLVM 14, Linkage Types).
#[derive(Clone, Copy, Debug, PartialEq, Eq)]
pub enum Linkage {
    External,
    Internal,
    Private,
}

/// A variable of the module (LLVM 14, Global Variables). Its place is that of its name. Its space is 0 where
/// none is written, and its alignment is in bytes.
#[derive(Drop)]
pub struct Variable {
    pub name: Name,
    pub linkage: Linkage,
    pub space: u64,
    pub ty: LlType,
    pub init: Value,
    pub align: Option<u64>,
}

/// What an attribute of a parameter or a result says (LLVM 14, Parameter Attributes). `ByVal` and `SRet` have
/// the type that they name, if they name one; the numbers are in bytes.
#[derive(Drop)]
pub enum AttributeKind {
    ZeroExt,
    SignExt,
    NoAlias,
    NoCapture,
    ReadOnly,
    ReadNone,
    WriteOnly,
    NoUndef,
    NonNull,
    InReg,
    Returned,
    NoFree,
    ImmArg,
    ByVal(Option<LlType>),
    SRet(Option<LlType>),
    Align(u64),
    Dereferenceable(u64),
    DereferenceableOrNull(u64),
}

/// An attribute and its place.
#[derive(Drop)]
pub struct Attribute {
    pub kind: AttributeKind,
    pub byte: u64,
}

/// A parameter. A declaration may leave out its name.
#[derive(Drop)]
pub struct Param {
    pub ty: LlType,
    pub attributes: Items<Attribute>,
    pub name: Option<Name>,
}

/// What a declaration and a definition of a function have in common (LLVM 14, Functions). The attributes are
/// those of the result.
#[derive(Drop)]
pub struct Head {
    pub byte: u64,
    pub name: Name,
    pub linkage: Linkage,
    pub is_kernel: bool,
    pub attributes: Items<Attribute>,
    pub ty: LlType,
    pub params: Items<Param>,
}

/// A metadata node by its number, where it is named.
#[derive(Clone, Copy, Debug, PartialEq, Eq)]
pub struct NodeRef {
    pub number: u32,
    pub byte: u64,
}

/// A function that the module defines, but for its body: what its head says, the nodes of the three
/// attachments that are kept, and the places of its blocks' labels. A block without a label has the place of
/// its first instruction.
#[derive(Drop)]
pub struct Function {
    pub head: Head,
    pub kernel_arg_type: Option<NodeRef>,
    pub reqd_work_group_size: Option<NodeRef>,
    pub work_group_size_hint: Option<NodeRef>,
    pub labels: Items<u64>,
}

/// A part of a metadata node (LLVM 14, Metadata Nodes and Metadata Strings).
#[derive(Drop)]
pub enum NodePart {
    Node(NodeRef),
    Text(Items<u8>),
    Null,
    Value(TypedValue),
}

/// A metadata node: its number, its parts, and its place.
#[derive(Drop)]
pub struct Node {
    pub number: u32,
    pub parts: Items<NodePart>,
    pub byte: u64,
}

/// A module (LLVM 14, Module Structure), as far as it is kept: each list in the order of the text.
#[derive(Drop)]
pub struct LlModule {
    pub targets: Items<Target>,
    pub structs: Items<Struct>,
    pub variables: Items<Variable>,
    pub declares: Items<Head>,
    pub functions: Items<Function>,
    /// The bodies of the functions, one for each.
    pub bodies: Items<Body<LlInst>>,
    /// The nodes that `opencl.ocl.version` names.
    pub ocl_version: Items<NodeRef>,
    pub nodes: Items<Node>,
    pub pointer: PointerWidth,
    /// What each number of a name stands for.
    pub names: Items<NameText>,
}
