use crate::inst_set::InstSet;
use sqlite_items::Items;

/// A block: its name, and its instructions, the last of which is its terminator.
#[derive(Drop)]
pub struct Block<I: InstSet> {
    pub name: I::Name,
    pub insts: Items<I>,
}

/// A function body: the names of its parameters, and its blocks, the first of which it begins with.
#[derive(Drop)]
pub struct Body<I: InstSet> {
    pub params: Items<I::Name>,
    pub blocks: Items<Block<I>>,
}
