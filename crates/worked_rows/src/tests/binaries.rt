ghost use Rattle.std.specs.Prelude.{◌≡◌, IfOk};

use super::{Ran, little, run_words};
use kt_driver::Status;
use ports::SpvError;
use spv_codec::{SpvDecoder, encode};
use spv_words::Order;
use std::alloc::Global;
use std::test::Fail;

/// The words of the module of `define spir_kernel void @k() { ret void }`.
const EMPTY_KERNEL: [u32; 30] = [
    0x0723_0203,
    0x0001_0200,
    0,
    5,
    0,
    0x0002_0011,
    4,
    0x0002_0011,
    6,
    0x0003_000E,
    2,
    2,
    0x0004_000F,
    6,
    3,
    0x6B,
    0x0002_0013,
    1,
    0x0003_0021,
    2,
    1,
    0x0005_0036,
    1,
    3,
    0,
    2,
    0x0002_00F8,
    4,
    0x0001_00FD,
    0x0001_0038,
];

/// The words of the module of a kernel that adds in place.
const ADD_IN_PLACE: [u32; 62] = [
    0x0723_0203,
    0x0001_0200,
    0,
    0xB,
    0,
    0x0002_0011,
    4,
    0x0002_0011,
    6,
    0x0003_000E,
    2,
    2,
    0x0004_000F,
    6,
    5,
    0x61,
    0x0002_0013,
    1,
    0x0004_0015,
    2,
    0x20,
    0,
    0x0004_0020,
    3,
    5,
    2,
    0x0005_0021,
    4,
    1,
    3,
    2,
    0x0005_0036,
    1,
    5,
    0,
    4,
    0x0003_0037,
    3,
    6,
    0x0003_0037,
    2,
    7,
    0x0002_00F8,
    8,
    0x0006_003D,
    2,
    9,
    6,
    2,
    4,
    0x0005_0080,
    2,
    0xA,
    9,
    7,
    0x0005_003E,
    6,
    0xA,
    2,
    4,
    0x0001_00FD,
    0x0001_0038,
];

/// Where its instructions begin, and where they end.
const STARTS: [usize; 18] = [
    5, 7, 9, 12, 16, 18, 22, 26, 31, 36, 39, 42, 44, 50, 55, 60, 61, 62,
];

/// The header that the words of single instructions follow.
const HEADER: [u32; 5] = [0x0723_0203, 0x0001_0200, 0, 1, 0];

fn show(alloc: Global, input: &[u8]) -> Result<Ran, Fail> {
    run_words(alloc, &["show", "--from", "spirv"], input)
}

/// The rule and the word of the refusal that a run told: rule 0 where it answered.
fn refusal(ran: &Ran) -> (u16, u64) {
    if ran.status == Status::Ok {
        return (0, 0);
    }
    let mut numbers = (0, 0);
    if let Ok(line) = str::from_utf8(ran.err.as_slice()) {
        numbers = numbers_of(line);
    }
    numbers
}

/// The numbers of a line like `refused: rule S7 at word 5`.
fn numbers_of(line: &str) -> (u16, u64) {
    let Some((front, word)) = line.trim_end().split_once(" at word ") else {
        return (0, 0);
    };
    let Some((_, rule)) = front.split_once(" rule S") else {
        return (0, 0);
    };
    (rule.parse().unwrap_or(0), word.parse().unwrap_or(0))
}

#[test]
fn the_instructions_of_a_binary_are_listed(rt: HostRuntime) -> Result<(), Fail> {
    let alloc = rt.alloc();
    let ran = show(alloc, &little(alloc, &EMPTY_KERNEL)?)?;
    let lines =
        "order little\nheader 00010200 00000000 00000005 00000000\n5: OpCapability 00000004\n7: OpCapability 00000006\n\
        9: OpMemoryModel 00000002 00000002\n12: OpEntryPoint 00000006 00000003 0000006b\n16: OpTypeVoid 00000001\n\
        18: OpTypeFunction 00000002 00000001\n21: OpFunction 00000001 00000003 00000000 00000002\n26: OpLabel 00000004\n\
        28: OpReturn\n29: OpFunctionEnd\n";
    assert_eq!(rt; ran.status, Status::Ok);
    assert_eq!(rt; ran.out.as_slice(), lines.as_bytes());
    assert_eq!(rt; ran.err.as_slice().len(), 0);
    Ok(())
}

#[test]
fn a_translation_can_be_written_in_either_order(rt: HostRuntime) -> Result<(), Fail> {
    let alloc = rt.alloc();
    let text = b"define spir_kernel void @k() { ret void }";
    let words = [
        "translate",
        "--from",
        "llvm",
        "--to",
        "spirv",
        "--order",
        "big",
    ];
    let big = run_words(alloc, &words, text)?;
    assert_eq!(rt;
        big.out.as_slice(),
        big_bytes(alloc, &EMPTY_KERNEL)?.as_slice()
    );
    let words = [
        "translate",
        "--from",
        "llvm",
        "--to",
        "spirv",
        "--order",
        "little",
    ];
    let ran = run_words(alloc, &words, text)?;
    assert_eq!(rt;
        ran.out.as_slice(),
        little(alloc, &EMPTY_KERNEL)?.as_slice()
    );
    Ok(())
}

/// The bytes of words in big order.
fn big_bytes(alloc: Global, words: &[u32]) -> Result<Vec<u8>, Fail> {
    let mut bytes = Vec::new(alloc);
    for word in words {
        bytes.extend_from_slice(&word.to_be_bytes())?;
    }
    Ok(bytes)
}

/// A decoder that is fed the bytes one at a time.
fn fed_singly(alloc: Global, bytes: &[u8]) -> Result<SpvDecoder, SpvError>
    ensures { IfOk result (λ decoder. decoder.fed ≡ bytes.now) }
{
    let mut decoder = SpvDecoder::new(alloc);
    for byte in bytes {
        decoder.feed(&[*byte])?;
    }
    Ok(decoder)
}

#[test]
fn bytes_can_come_one_at_a_time(rt: HostRuntime) -> Result<(), Fail> {
    let alloc = rt.alloc();
    let bytes = big_bytes(alloc, &EMPTY_KERNEL)?;
    let raw = fed_singly(alloc, &bytes)?.finish()?;
    assert_eq!(rt; raw.order, Order::Big);
    assert_eq!(rt; raw.insts.len(), 10);
    let little_bytes = encode(alloc, &raw, Order::Little)?;
    assert_eq!(rt;
        little_bytes.as_slice(),
        little(alloc, &EMPTY_KERNEL)?.as_slice()
    );
    Ok(())
}

/// The first bytes, as many as there are of this many.
fn front(bytes: &[u8], len: usize) -> &[u8] {
    &bytes[..len.min(bytes.len())]
}

#[test]
fn a_binary_is_refused_by_the_first_rule_that_it_breaks(rt: HostRuntime) -> Result<(), Fail> {
    let alloc = rt.alloc();
    let whole = little(alloc, &EMPTY_KERNEL)?;
    assert_eq!(rt; refusal(&show(alloc, &[])?), (2, 0));
    assert_eq!(rt; refusal(&show(alloc, front(&whole, 3))?), (1, 0));
    assert_eq!(rt; refusal(&show(alloc, front(&whole, 19))?), (2, 0));
    assert_eq!(rt; refusal(&show(alloc, front(&whole, 119))?), (1, 29));
    // Each word of the header, and then two at once.
    let headers: [([u32; 5], (u16, u64)); 9] = [
        ([0x0723_0204, 0x0001_0200, 0, 1, 0], (3, 0)),
        ([0x0723_0203, 0x0001_0300, 0, 1, 0], (4, 1)),
        ([0x0723_0203, 0x0001_0000, 0, 1, 0], (0, 0)),
        ([0x0723_0203, 0x0001_0200, 7, 0x003F_FFFF, 0], (0, 0)),
        ([0x0723_0203, 0x0001_0200, 0, 0x0040_0000, 0], (6, 3)),
        ([0x0723_0203, 0x0001_0200, 0, 0, 0], (6, 3)),
        ([0x0723_0203, 0x0001_0200, 0, 1, 1], (5, 4)),
        ([0x0723_0203, 0x0001_0200, 0, 0, 1], (6, 3)),
        ([0x0723_0203, 0, 0, 0, 1], (4, 1)),
    ];
    for (words, rule) in headers {
        let ran = show(alloc, &little(alloc, &words)?)?;
        assert_eq!(rt; refusal(&ran), rule, "{words:?}");
    }
    Ok(())
}

#[test]
fn too_long_a_binary_is_told_first(rt: HostRuntime) -> Result<(), Fail> {
    let alloc = rt.alloc();
    let mut bytes = Vec::new(alloc);
    for _ in 0..16_777_217 {
        bytes.push(0)?;
    }
    assert_eq!(rt; refusal(&show(alloc, &bytes)?), (15, 4_194_304));
    Ok(())
}

/// The refusal of instructions behind a header.
fn refusal_of(alloc: Global, words: &[u32]) -> Result<(u16, u64), Fail> {
    let mut module = Vec::from_slice(alloc, &HEADER)?;
    module.extend_from_slice(words)?;
    let ran = show(alloc, &little(alloc, &module)?)?;
    Ok(refusal(&ran))
}

/// Instructions that can be read.
static READ: [&[u32]; 21] = [
    &[0x0003_0029, 1, 2],
    &[0x0001_0000],
    &[0x0002_0011, 4],
    &[0x0004_0005, 1, 0x6362_6164, 0],
    &[0x0003_0005, 1, 0x0000_A9C3],
    &[0x0004_0015, 1, 64, 0, 0x0005_002B, 1, 2, 3, 0xFFFF_FFFF],
    &[0x0004_0015, 1, 8, 0, 0x0004_002B, 1, 2, 0xFF],
    &[0x0004_002B, 1, 2, 0xFFFF_FFFF],
    &[0x0004_003B, 1, 2, 7],
    &[0x0005_003B, 1, 2, 7, 3],
    &[0x0004_003D, 1, 2, 3],
    &[0x0006_003D, 1, 2, 3, 7, 4],
    &[0x0003_0003, 3, 100_000],
    &[0x0004_0003, 3, 100_000, 1],
    &[0x0005_0003, 3, 100_000, 1, 0x61],
    &[0x0004_00FA, 1, 2, 3, 0x0006_00FA, 1, 2, 3, 4, 5],
    &[0x0003_00F5, 1, 2, 0x0007_00F5, 1, 2, 3, 4, 5, 6],
    &[0x0003_00FB, 1, 2, 0x0007_00FB, 1, 2, 3, 4, 5, 6],
    &[
        0x0004_0015,
        1,
        64,
        0,
        0x0003_0037,
        1,
        2,
        0x0006_00FB,
        2,
        3,
        4,
        5,
        6,
    ],
    &[0x0005_0047, 1, 0x29, 0x61, 1],
    &[0x0006_0010, 1, 17, 1, 1, 1],
];

#[test]
fn instructions_of_every_form_are_read(rt: HostRuntime) -> Result<(), Fail> {
    for words in READ.iter() {
        assert_eq!(rt; refusal_of(rt.alloc(), words)?, (0, 0), "{words:?}");
    }
    Ok(())
}

/// Instructions that can't be read, and the rule and the word that tell why.
static UNREAD: [(&[u32], (u16, u64)); 37] = [
    (&[0x0000_0011], (7, 5)),
    (&[0xFFFF_0011], (8, 5)),
    (&[0x0001_0001], (9, 5)),
    (&[0x0001_0003], (10, 5)),
    (&[0x0000_0001], (7, 5)),
    (&[0x0002_0001], (8, 5)),
    (&[0x0001_0000, 0x0002_0000, 7], (10, 6)),
    (&[0x0002_0029, 1], (10, 5)),
    (&[0x0004_0029, 1, 2, 3], (10, 5)),
    (&[0x0003_0015, 1, 32], (10, 5)),
    (&[0x0005_0015, 1, 32, 0, 0], (10, 5)),
    (&[0x0001_0011], (10, 5)),
    (&[0x0002_0011, 3], (11, 5)),
    (&[0x0003_0011, 4, 4], (10, 5)),
    (&[0x0002_0005, 1], (10, 5)),
    (&[0x0003_0005, 1, 0x6161_6161], (12, 5)),
    (&[0x0003_0005, 1, 0x6100_6161], (12, 5)),
    (&[0x0003_0005, 1, 0xFF], (12, 5)),
    (&[0x0004_0005, 1, 0x61, 0], (10, 5)),
    (&[0x0003_002B, 1, 2], (10, 5)),
    (&[0x0005_002B, 1, 2, 3, 4], (10, 5)),
    (&[0x0004_0015, 1, 8, 0, 0x0004_002B, 1, 2, 0x100], (13, 9)),
    (
        &[0x0004_0015, 1, 16, 0, 0x0004_002B, 1, 2, 0x1_0000],
        (13, 9),
    ),
    (&[0x0004_0015, 1, 64, 0, 0x0004_002B, 1, 2, 3], (10, 9)),
    (&[0x0006_003B, 1, 2, 7, 3, 4], (10, 5)),
    (&[0x0004_003B, 1, 2, 2], (11, 5)),
    (&[0x0005_003D, 1, 2, 3, 2], (10, 5)),
    (&[0x0005_003D, 1, 2, 3, 8], (11, 5)),
    (&[0x0006_003D, 1, 2, 3, 1, 4], (10, 5)),
    (&[0x0005_0003, 3, 100_000, 1, 0x6161_6161], (12, 5)),
    (&[0x0006_0003, 3, 100_000, 1, 0x61, 0], (10, 5)),
    (&[0x0005_00FA, 1, 2, 3, 4], (10, 5)),
    (&[0x0007_00FA, 1, 2, 3, 4, 5, 6], (10, 5)),
    (&[0x0004_00F5, 1, 2, 3], (10, 5)),
    (&[0x0004_00FB, 1, 2, 3], (10, 5)),
    (&[0x0005_0047, 1, 0x29, 0x61, 2], (11, 5)),
    (&[0x0005_0010, 1, 17, 1, 1], (10, 5)),
];

#[test]
fn instructions_that_cannot_be_read_are_told_by_rule_and_word(rt: HostRuntime) -> Result<(), Fail> {
    for (words, rule) in UNREAD.iter() {
        assert_eq!(rt; refusal_of(rt.alloc(), words)?, *rule, "{words:?}");
    }
    Ok(())
}

/// What a binary of instructions at these places is refused by, where it is cut after so many bytes.
fn refusal_of_cut(starts: &[usize], count: usize) -> (u16, u64) {
    if count < 20 {
        return if 0 < count && count < 4 {
            (1, 0)
        } else {
            (2, 0)
        };
    }
    let words = count / 4;
    let mut start = 5;
    for next in starts {
        if *next <= words {
            start = *next;
        }
    }
    if start < words {
        (8, start as u64)
    } else if count % 4 != 0 {
        (1, words as u64)
    } else {
        (0, 0)
    }
}

#[test]
fn a_cut_binary_is_told_where_it_is_cut(rt: HostRuntime) -> Result<(), Fail> {
    let alloc = rt.alloc();
    let bytes = little(alloc, &ADD_IN_PLACE)?;
    for count in 0..bytes.len() {
        let ran = show(alloc, &bytes[..count])?;
        assert_eq!(rt;
            refusal(&ran),
            refusal_of_cut(&STARTS, count),
            "{count} bytes"
        );
    }
    Ok(())
}
