use super::told;
use ports::SpvError;
use std::alloc::Global;
use std::test::Fail;

/// The words of a kernel of two parameters that adds, loads and stores (docs/FORMAT.md).
static KERNEL: [u32; 62] = [
    0x0723_0203,
    0x0001_0200,
    0,
    11,
    0,
    0x0002_0011,
    4,
    0x0002_0011,
    6,
    0x0003_000E,
    2,
    2,
    0x0004_000F,
    6,
    5,
    0x61,
    0x0002_0013,
    1,
    0x0004_0015,
    2,
    0x20,
    0,
    0x0004_0020,
    3,
    5,
    2,
    0x0005_0021,
    4,
    1,
    3,
    2,
    0x0005_0036,
    1,
    5,
    0,
    4,
    0x0003_0037,
    3,
    6,
    0x0003_0037,
    2,
    7,
    0x0002_00F8,
    8,
    0x0006_003D,
    2,
    9,
    6,
    2,
    4,
    0x0005_0080,
    2,
    10,
    9,
    7,
    0x0005_003E,
    6,
    10,
    2,
    4,
    0x0001_00FD,
    0x0001_0038,
];

/// Words of the kernel that are changed, and the rule that this breaks, with its place.
struct Break {
    edits: &'static [(usize, u32)],
    told: (u16, u64),
}

/// Changes in the order of their places.
static BREAKS: [Break; 14] = [
    // The entry point's function is no id, defined nowhere, a type.
    Break {
        edits: &[(14, 0)],
        told: (20, 12),
    },
    Break {
        edits: &[(3, 12), (14, 11)],
        told: (22, 12),
    },
    Break {
        edits: &[(14, 3)],
        told: (23, 12),
    },
    // The integer type has the id of void.
    Break {
        edits: &[(19, 1)],
        told: (21, 18),
    },
    // The pointer is to itself, to the function.
    Break {
        edits: &[(25, 3)],
        told: (24, 22),
    },
    Break {
        edits: &[(25, 5)],
        told: (23, 22),
    },
    // The second parameter is above the bound, has the id of the first.
    Break {
        edits: &[(41, 99)],
        told: (20, 39),
    },
    Break {
        edits: &[(41, 6)],
        told: (21, 39),
    },
    // No label stands before the first instruction.
    Break {
        edits: &[(42, 0x0001_0000), (43, 0x0001_0000)],
        told: (25, 44),
    },
    // The second summand is no id, a label.
    Break {
        edits: &[(54, 0)],
        told: (20, 50),
    },
    Break {
        edits: &[(54, 8)],
        told: (23, 50),
    },
    // What is stored is defined nowhere, is a type.
    Break {
        edits: &[(3, 12), (57, 11)],
        told: (22, 55),
    },
    Break {
        edits: &[(57, 4)],
        told: (23, 55),
    },
    // The function has no end.
    Break {
        edits: &[(61, 0x0001_0000)],
        told: (25, 62),
    },
];

/// Makes the changes.
fn apply(words: &mut Vec<u32>, change: &Break) {
    for (at, word) in change.edits {
        if let Some(old) = words.get_mut(*at) {
            *old = *word;
        }
    }
}

/// What is told of the kernel with two changes, behind which some words stand.
fn told_with(
    alloc: Global,
    first: &Break,
    second: &Break,
    end: &[u32],
) -> Result<Option<(u16, u64)>, SpvError> {
    let mut words = Vec::from_slice(alloc, &KERNEL)?;
    apply(&mut words, first);
    apply(&mut words, second);
    words.extend_from_slice(end)?;
    told(alloc, &words)
}

#[test]
fn each_rule_is_told_alone(rt: HostRuntime) -> Result<(), Fail> {
    for change in BREAKS.iter() {
        let told = told_with(rt.alloc(), change, change, &[])?;
        assert_eq!(rt; told, Some(change.told));
    }
    Ok(())
}

/// Of two changes whose places differ the one with the lesser place is told, whichever rules they break.
#[test]
fn of_two_rules_the_first_is_told(rt: HostRuntime) -> Result<(), Fail> {
    for first in BREAKS.iter() {
        for second in BREAKS.iter() {
            if first.told.1 < second.told.1 {
                let told = told_with(rt.alloc(), first, second, &[])?;
                assert_eq!(rt; told, Some(first.told));
            }
        }
    }
    Ok(())
}

/// A second memory model at the end is told before the others.
#[test]
fn the_order_of_sections_is_told_first(rt: HostRuntime) -> Result<(), Fail> {
    for change in BREAKS.iter() {
        let told = told_with(rt.alloc(), change, change, &[0x0003_000E, 2, 2])?;
        assert_eq!(rt; told, Some((14, 62)));
    }
    Ok(())
}
