use crate::building::build;
use ports::{SpvError, SpvFault};
use spv_codec::{RawInst, RawModule, SpvDecoder};
use spv_module::{SpvModule, flatten};
use spv_words::{Order, put_words};
use std::alloc::Global;
use std::test::Fail;

/// The words of a kernel with a packed struct, an array, a mode, a switch and a phi. Its ids rise in the order of the declarations.
static BRANCHES: [u32; 92] = [
    0x0723_0203,
    0x0001_0200,
    0,
    15,
    0,
    // Capabilities, memory model, entry point, mode, decoration.
    0x0002_0011,
    4,
    0x0002_0011,
    6,
    0x0003_000E,
    2,
    2,
    0x0004_000F,
    6,
    13,
    0x6B,
    0x0006_0010,
    13,
    17,
    1,
    1,
    1,
    0x0003_0047,
    4,
    10,
    // Void, i32, the constant 7, a struct, an array, a pointer, a vector, a function.
    0x0002_0013,
    1,
    0x0004_0015,
    2,
    32,
    0,
    0x0004_002B,
    2,
    3,
    7,
    0x0004_001E,
    4,
    2,
    2,
    0x0004_001C,
    5,
    2,
    3,
    0x0004_0020,
    6,
    5,
    4,
    0x0004_0017,
    7,
    2,
    4,
    0x0004_0021,
    8,
    1,
    2,
    // The function: three blocks.
    0x0005_0036,
    1,
    13,
    0,
    8,
    0x0003_0037,
    2,
    9,
    0x0002_00F8,
    10,
    0x0005_00FB,
    9,
    11,
    1,
    12,
    0x0002_00F8,
    11,
    0x0002_00F9,
    12,
    0x0002_00F8,
    12,
    0x0007_00F5,
    2,
    14,
    9,
    10,
    3,
    11,
    0x0001_00FD,
    0x0001_0038,
    // A line, a name and a decoration without a meaning follow for the test that puts them in.
    0x0001_013D,
    0x0003_0005,
    2,
    0x61,
    0x0003_0047,
    9,
    19,
];

/// How many of these words are the kernel's.
const KERNEL_LEN: usize = 85;

#[test]
fn module_is_spelled_as_it_was(rt: HostRuntime) -> Result<(), Fail> {
    let alloc = rt.alloc();
    let raw = decoded(alloc, kernel_words())?;
    let m = build(alloc, decoded(alloc, kernel_words())?)?;
    let spelled = flatten(alloc, &m)?;
    assert!(rt; are_same(raw.insts.as_slice(), spelled.insts.as_slice()));
    Ok(())
}

#[test]
fn dropped_instructions_leave_nothing(rt: HostRuntime) -> Result<(), Fail> {
    let alloc = rt.alloc();
    let raw = decoded(alloc, kernel_words())?;
    let mut words = Vec::from_slice(alloc, part(0, 22))?;
    words.extend_from_slice(part(86, 92))?;
    words.extend_from_slice(part(22, 55))?;
    words.extend_from_slice(part(85, 86))?;
    words.extend_from_slice(part(55, KERNEL_LEN))?;
    let m = build(alloc, decoded(alloc, &words)?)?;
    let spelled = flatten(alloc, &m)?;
    assert!(rt; are_same(raw.insts.as_slice(), spelled.insts.as_slice()));
    Ok(())
}

#[test]
fn parts_are_kept(rt: HostRuntime) -> Result<(), Fail> {
    let alloc = rt.alloc();
    let m = build(alloc, decoded(alloc, kernel_words())?)?;
    assert_eq!(rt; m.types.names().len(), 7);
    assert_eq!(rt; m.functions.len(), 1);
    assert_eq!(rt; m.bodies.len(), 1);
    assert_eq!(rt; entry_modes(&m), 1);
    assert_eq!(rt; block_count(&m), 3);
    Ok(())
}

/// An OpFunctionEnd is missing, and an id is defined twice.
#[test]
fn broken_binaries_are_refused(rt: HostRuntime) -> Result<(), Fail> {
    let alloc = rt.alloc();
    let unfinished = decoded(alloc, part(0, 84))?;
    assert_eq!(rt; told(build(alloc, unfinished))?, Some((25, 84)));
    let mut words = Vec::from_slice(alloc, kernel_words())?;
    if let Some(word) = words.get_mut(64) {
        *word = 9;
    }
    assert_eq!(rt;
        told(build(alloc, decoded(alloc, &words)?))?,
        Some((21, 63))
    );
    Ok(())
}

fn kernel_words() -> &'static [u32] {
    part(0, KERNEL_LEN)
}

/// The words from one index up to another.
fn part(from: usize, to: usize) -> &'static [u32] {
    let front = &BRANCHES[..to.min(BRANCHES.len())];
    &front[from.min(front.len())..]
}

fn decoded(alloc: Global, words: &[u32]) -> Result<RawModule, SpvError> {
    let bytes = put_words(alloc, Order::Little, words)?;
    let mut decoder = SpvDecoder::new(alloc);
    decoder.feed(&bytes)?;
    decoder.finish()
}

/// Whether two lists of instructions have the same opcodes, places and operands.
fn are_same(first: &[RawInst], second: &[RawInst]) -> bool {
    if first.len() != second.len() {
        return false;
    }
    for (left, right) in first.iter().zip(second.iter()) {
        let same = left.op == right.op && left.place == right.place;
        if !same || left.operands.as_slice() != right.operands.as_slice() {
            return false;
        }
    }
    true
}

fn entry_modes(m: &SpvModule) -> usize {
    match m.entries.get(0) {
        Some(entry) => entry.modes.len(),
        None => 0,
    }
}

fn block_count(m: &SpvModule) -> usize {
    match m.bodies.get(0) {
        Some(body) => body.blocks.len(),
        None => 0,
    }
}

/// The rule that is told, and its place.
fn told(built: Result<SpvModule, SpvError>) -> Result<Option<(u16, u64)>, SpvError> {
    match built {
        Ok(_) => Ok(None),
        Err(SpvError::Fault(SpvFault { rule, word })) => Ok(Some((rule, word))),
        Err(SpvError::NoMemory) => Err(SpvError::NoMemory),
    }
}
