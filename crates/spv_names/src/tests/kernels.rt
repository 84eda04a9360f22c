use crate::faults::names_fault;
use ports::{SpvError, SpvFault};
use spv_codec::{RawModule, SpvDecoder};
use spv_words::{Order, put_words};
use std::alloc::Global;
use std::test::Fail;

/// The words of a kernel that adds its second argument to the number that its first argument points to.
static FIRST_KERNEL: [u32; 62] = [
    0x0723_0203,
    0x0001_0200,
    0,
    11,
    0,
    0x0002_0011,
    4,
    0x0002_0011,
    6,
    0x0003_000E,
    2,
    2,
    0x0004_000F,
    6,
    5,
    0x61,
    0x0002_0013,
    1,
    0x0004_0015,
    2,
    0x20,
    0,
    0x0004_0020,
    3,
    5,
    2,
    0x0005_0021,
    4,
    1,
    3,
    2,
    0x0005_0036,
    1,
    5,
    0,
    4,
    0x0003_0037,
    3,
    6,
    0x0003_0037,
    2,
    7,
    0x0002_00F8,
    8,
    0x0006_003D,
    2,
    9,
    6,
    2,
    4,
    0x0005_0080,
    2,
    10,
    9,
    7,
    0x0005_003E,
    6,
    10,
    2,
    4,
    0x0001_00FD,
    0x0001_0038,
];

/// The kernel with some words changed and others put in, and the rule that it then breaks, with its place.
struct Case {
    edits: &'static [(usize, u32)],
    at: usize,
    inserted: &'static [u32],
    told: Option<(u16, u64)>,
}

static CASES: [Case; 33] = [
    Case {
        edits: &[],
        at: 62,
        inserted: &[],
        told: None,
    },
    // A type before the memory model, none at all, two of them, and an import behind a type.
    Case {
        edits: &[(7, 0x0002_0013)],
        at: 62,
        inserted: &[],
        told: Some((14, 9)),
    },
    Case {
        edits: &[(9, 0x0001_0000), (10, 0x0001_0000), (11, 0x0001_0000)],
        at: 62,
        inserted: &[],
        told: Some((14, 62)),
    },
    Case {
        edits: &[],
        at: 12,
        inserted: &[0x0003_000E, 2, 2],
        told: Some((14, 12)),
    },
    Case {
        edits: &[],
        at: 31,
        inserted: &[0x0003_0005, 1, 0x61],
        told: Some((14, 31)),
    },
    // A line stands behind types, and not before them.
    Case {
        edits: &[],
        at: 31,
        inserted: &[0x0001_013D],
        told: None,
    },
    Case {
        edits: &[],
        at: 9,
        inserted: &[0x0001_013D],
        told: Some((14, 10)),
    },
    // An id at the bound, the id 0, an id that is defined twice.
    Case {
        edits: &[(3, 10)],
        at: 62,
        inserted: &[],
        told: Some((20, 50)),
    },
    Case {
        edits: &[(52, 0)],
        at: 62,
        inserted: &[],
        told: Some((20, 50)),
    },
    Case {
        edits: &[(41, 6)],
        at: 62,
        inserted: &[],
        told: Some((21, 39)),
    },
    // An id that is defined nowhere, and the label of another function.
    Case {
        edits: &[(3, 13), (54, 12)],
        at: 62,
        inserted: &[],
        told: Some((22, 50)),
    },
    Case {
        edits: &[(3, 15)],
        at: 62,
        inserted: &[
            0x0005_0036,
            1,
            11,
            0,
            4,
            0x0003_0037,
            3,
            12,
            0x0003_0037,
            2,
            13,
            0x0002_00F8,
            14,
            0x0002_00F9,
            8,
            0x0001_0038,
        ],
        told: Some((22, 75)),
    },
    Case {
        edits: &[(3, 15)],
        at: 62,
        inserted: &[
            0x0005_0036,
            1,
            11,
            0,
            4,
            0x0003_0037,
            3,
            12,
            0x0003_0037,
            2,
            13,
            0x0002_00F8,
            14,
            0x0002_00F9,
            14,
            0x0001_0038,
        ],
        told: None,
    },
    // A type as a value, and a parameter as the function of an entry point.
    Case {
        edits: &[(53, 2)],
        at: 62,
        inserted: &[],
        told: Some((23, 50)),
    },
    Case {
        edits: &[(14, 6)],
        at: 62,
        inserted: &[],
        told: Some((23, 12)),
    },
    // A pointer to a type that stands below, and to itself.
    Case {
        edits: &[(25, 4)],
        at: 62,
        inserted: &[],
        told: Some((24, 22)),
    },
    Case {
        edits: &[(25, 3)],
        at: 62,
        inserted: &[],
        told: Some((24, 22)),
    },
    // A function without its end, and a block without its terminator.
    Case {
        edits: &[(61, 0x0001_0000)],
        at: 62,
        inserted: &[],
        told: Some((25, 62)),
    },
    Case {
        edits: &[(60, 0x0001_0000)],
        at: 62,
        inserted: &[],
        told: Some((25, 61)),
    },
    // Of two rules at one place the lesser one.
    Case {
        edits: &[(3, 13), (53, 2), (54, 12)],
        at: 62,
        inserted: &[],
        told: Some((22, 50)),
    },
    // What a dropped instruction uses isn't looked at: a name, and a decoration without a meaning. An alignment is looked at.
    Case {
        edits: &[],
        at: 16,
        inserted: &[0x0003_0005, 99, 0x61],
        told: None,
    },
    Case {
        edits: &[],
        at: 16,
        inserted: &[0x0003_0047, 99, 19],
        told: None,
    },
    Case {
        edits: &[(3, 100)],
        at: 16,
        inserted: &[0x0004_0047, 99, 44, 4],
        told: Some((22, 16)),
    },
    // The file of a source that is kept is looked at, of another one it isn't.
    Case {
        edits: &[(3, 12)],
        at: 16,
        inserted: &[0x0003_0007, 11, 0x61, 0x0004_0003, 3, 100_000, 11],
        told: None,
    },
    Case {
        edits: &[(3, 12)],
        at: 16,
        inserted: &[0x0003_0007, 11, 0x61, 0x0004_0003, 3, 100_000, 5],
        told: Some((23, 19)),
    },
    Case {
        edits: &[(3, 12)],
        at: 16,
        inserted: &[0x0003_0007, 11, 0x61, 0x0004_0003, 3, 100_001, 5],
        told: None,
    },
    // A mode of an entry point's function, of something else, and one without a meaning.
    Case {
        edits: &[],
        at: 16,
        inserted: &[0x0006_0010, 5, 17, 1, 1, 1],
        told: None,
    },
    Case {
        edits: &[],
        at: 16,
        inserted: &[0x0006_0010, 8, 17, 1, 1, 1],
        told: Some((23, 16)),
    },
    Case {
        edits: &[],
        at: 16,
        inserted: &[0x0003_0010, 8, 31],
        told: None,
    },
    // The import of a variable of class Input isn't looked at, an export is.
    Case {
        edits: &[(3, 13)],
        at: 16,
        inserted: &[
            0x0005_0047,
            13,
            41,
            0x61,
            1,
            0x0004_0015,
            12,
            32,
            0,
            0x0004_0020,
            11,
            1,
            12,
            0x0004_003B,
            11,
            13,
            1,
        ],
        told: Some((20, 29)),
    },
    Case {
        edits: &[(3, 13)],
        at: 16,
        inserted: &[
            0x0005_0047,
            13,
            41,
            0x61,
            0,
            0x0004_0015,
            12,
            32,
            0,
            0x0004_0020,
            11,
            1,
            12,
            0x0004_003B,
            11,
            13,
            1,
        ],
        told: Some((20, 16)),
    },
    // The labels of cases of 64 bits.
    Case {
        edits: &[(20, 64), (60, 0x0001_0000)],
        at: 60,
        inserted: &[0x0006_00FB, 10, 8, 1, 0, 8],
        told: None,
    },
    Case {
        edits: &[(20, 64), (60, 0x0001_0000)],
        at: 60,
        inserted: &[0x0006_00FB, 10, 8, 1, 0, 9],
        told: Some((23, 60)),
    },
];

#[test]
fn each_rule_is_told_at_its_place(rt: HostRuntime) -> Result<(), Fail> {
    let alloc = rt.alloc();
    for (number, case) in CASES.iter().enumerate() {
        let told = told_of(alloc, case)?;
        assert_eq!(rt; told, case.told, "case {number}");
    }
    Ok(())
}

/// The rule that is told of a case, and its place.
fn told_of(alloc: Global, case: &Case) -> Result<Option<(u16, u64)>, SpvError> {
    let module = module_of(alloc, case)?;
    match names_fault(alloc, &module)? {
        Some(SpvFault { rule, word }) => Ok(Some((rule, word))),
        None => Ok(None),
    }
}

fn module_of(alloc: Global, case: &Case) -> Result<RawModule, SpvError> {
    let bytes = put_words(alloc, Order::Little, &words_of(alloc, case)?)?;
    let mut decoder = SpvDecoder::new(alloc);
    decoder.feed(&bytes)?;
    decoder.finish()
}

fn words_of(alloc: Global, case: &Case) -> Result<Vec<u32>, SpvError> {
    let mut kernel = Vec::from_slice(alloc, &FIRST_KERNEL)?;
    for (index, word) in case.edits {
        if let Some(old) = kernel.get_mut(*index) {
            *old = *word;
        }
    }
    let (front, back) = kernel.split_at(case.at.min(kernel.len()));
    let mut words = Vec::from_slice(alloc, front)?;
    words.extend_from_slice(case.inserted)?;
    words.extend_from_slice(back)?;
    Ok(words)
}
