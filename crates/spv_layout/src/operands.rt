/// What an operand of an instruction is (SPIR-V 1.2, 2.2.1 and 3.32): one word each, but where it says otherwise. Several may stand for
/// a run of operands, which only the last of a form may be.
#[derive(Clone, Copy, Debug, PartialEq, Eq, Hash)]
pub enum OperandKind {
    /// The id of the result's type.
    T,
    /// The id of the result.
    R,
    /// The id of something else.
    I,
    /// A literal word.
    W,
    /// A literal string, of one word or more.
    S,
    /// A literal number, of as many words as the width of its type asks: two for 64 bits, else one.
    N,
    /// An enumerant or a mask, and then the operands of its own.
    E(EnumKind),
    /// Nothing or an id.
    OptI,
    /// Nothing, an id, or an id and a literal string.
    OptIS,
    /// Nothing or two literal words.
    OptWW,
    /// Nothing, or an enumerant or a mask and then the operands of its own.
    OptE(EnumKind),
    /// Ids up to the instruction's end.
    ManyI,
    /// Literal words up to the instruction's end.
    ManyW,
    /// Pairs of ids up to the instruction's end.
    ManyII,
    /// Pairs of a literal number and an id up to the instruction's end.
    ManyNI,
}

/// What follows some enumerants in an instruction ("Extra Operands" in the tables of SPIR-V 1.2, 3.3 to 3.31).
#[derive(Clone, Copy, Debug, PartialEq, Eq, Hash)]
pub enum ExtraOperand {
    /// A literal word.
    W,
    /// A literal string, of one word or more.
    S,
    /// An enumerant that nothing follows.
    E(EnumKind),
}

/// The enumerations and masks that operands are taken from (SPIR-V 1.2, 3.3 to 3.31).
#[derive(Clone, Copy, Debug, PartialEq, Eq, Hash)]
pub enum EnumKind {
    /// 3.31, "Capability".
    Capability,
    /// 3.4, "Addressing Model".
    Addressing,
    /// 3.5, "Memory Model".
    Memory,
    /// 3.3, "Execution Model".
    Model,
    /// 3.2, "Source Language".
    Language,
    /// 3.6, "Execution Mode".
    Mode,
    /// 3.7, "Storage Class".
    Class,
    /// 3.20, "Decoration".
    Decoration,
    /// 3.19, "Function Parameter Attribute".
    FuncParamAttr,
    /// 3.17, "Linkage Type".
    Linkage,
    /// 3.21, "BuiltIn".
    BuiltIn,
    /// 3.26, "Memory Access", a mask.
    Access,
    /// 3.24, "Function Control", a mask.
    FunctionControl,
    /// 3.22, "Selection Control", a mask.
    SelectionControl,
    /// 3.23, "Loop Control", a mask.
    LoopControl,
}
