use sqlite_items::Items;

/// The operands of an instruction behind its result, in two lists: the ids, and the literal words. The form of the instruction says how
/// they follow one another. Of the cases of an OpSwitch each has as many words as the others, so that it is known how many.
#[derive(Drop)]
pub struct Operands {
    pub ids: Items<u32>,
    pub words: Items<u32>,
}

/// An instruction of a function body (SPIR-V 1.2, 3.32).
#[derive(Drop)]
pub struct SpvInst {
    /// The opcode.
    pub op: u16,
    /// The id of the result's type, or 0 where the form has none.
    pub ty: u32,
    /// The id of the result, or 0 where the form has none.
    pub result: u32,
    pub operands: Operands,
    /// How many words of the module stand before the instruction.
    pub place: u64,
}
