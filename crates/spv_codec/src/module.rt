use spv_words::Order;
use sqlite_items::Items;

/// An instruction as its words spell it (SPIR-V 1.2, 2.3).
#[derive(Drop)]
pub struct RawInst {
    /// The opcode, the low half of the first word.
    pub op: u16,
    /// How many words of the module stand before the instruction.
    pub place: u64,
    /// The words behind the first one.
    pub operands: Items<u32>,
}

/// A module as its words spell it (SPIR-V 1.2, 2.3).
#[derive(Drop)]
pub struct RawModule {
    /// The order of the bytes in a word.
    pub order: Order,
    /// The version word: 0x00010200 is 1.2.
    pub version: u32,
    /// The generator's word.
    pub generator: u32,
    /// One more than the greatest id may be.
    pub bound: u32,
    /// The instructions, in order.
    pub insts: Items<RawInst>,
}
