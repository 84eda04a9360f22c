use super::first_kernel::{ADDS, RETURNS};
use super::{Ran, little, run_words};
use kt_driver::Status;
use std::alloc::Global;
use std::test::Fail;

/// Translates a binary to text.
fn back(alloc: Global, words: &[u32]) -> Result<Ran, Fail> {
    let input = little(alloc, words)?;
    run_words(
        alloc,
        &["translate", "--from", "spirv", "--to", "llvm"],
        &input,
    )
}

/// Whether a binary is refused by this line alone.
fn is_refused_by(alloc: Global, words: &[u32], line: &[u8]) -> Result<bool, Fail> {
    let ran = back(alloc, words)?;
    let is_told = ran.err.as_slice() == line && ran.out.as_slice().is_empty();
    Ok(ran.status == Status::Refused && is_told)
}

/// How many of the first words of the module that returns are left, and what is told then.
static CUT: [(usize, &[u8]); 9] = [
    (4, b"refused: rule S2 at word 0\n"),
    (5, b"refused: rule S14 at word 5\n"),
    (6, b"refused: rule S8 at word 5\n"),
    (7, b"refused: rule S14 at word 7\n"),
    (12, b"refused: rule S90 at word 0\n"),
    (14, b"refused: rule S8 at word 12\n"),
    (16, b"refused: rule S22 at word 12\n"),
    (26, b"refused: rule S25 at word 26\n"),
    (28, b"refused: rule S25 at word 28\n"),
];

#[test]
fn cut_words_are_refused(rt: HostRuntime) -> Result<(), Fail> {
    let alloc = rt.alloc();
    for (count, line) in CUT.iter() {
        let is_refused = is_refused_by(alloc, &RETURNS[..*count], line)?;
        assert!(rt; is_refused, "{count} words");
    }
    Ok(())
}

/// The same of the module that adds, between two instructions of its function.
static UNFINISHED: [(usize, &[u8]); 8] = [
    (36, b"refused: rule S25 at word 36\n"),
    (39, b"refused: rule S25 at word 39\n"),
    (42, b"refused: rule S25 at word 42\n"),
    (44, b"refused: rule S25 at word 44\n"),
    (50, b"refused: rule S25 at word 50\n"),
    (55, b"refused: rule S25 at word 55\n"),
    (60, b"refused: rule S25 at word 60\n"),
    (61, b"refused: rule S25 at word 61\n"),
];

#[test]
fn an_unfinished_function_is_refused_at_the_end(rt: HostRuntime) -> Result<(), Fail> {
    let alloc = rt.alloc();
    for (count, line) in UNFINISHED.iter() {
        let is_refused = is_refused_by(alloc, &ADDS[..*count], line)?;
        assert!(rt; is_refused, "{count} words");
    }
    Ok(())
}

/// A word of the module that returns, what stands in its place, and what is told then.
static CHANGED: [(usize, u32, &[u8]); 6] = [
    // The label is the bound.
    (27, 5, b"refused: rule S20 at word 26\n"),
    // The label is 0.
    (27, 0, b"refused: rule S20 at word 26\n"),
    // The label is the function.
    (27, 3, b"refused: rule S21 at word 26\n"),
    // The function of the entry point is the label.
    (14, 4, b"refused: rule S23 at word 12\n"),
    // The function of the entry point is a type.
    (14, 1, b"refused: rule S23 at word 12\n"),
    // The type of the function's result is the function's own type.
    (20, 2, b"refused: rule S24 at word 18\n"),
];

#[test]
fn changed_ids_are_refused(rt: HostRuntime) -> Result<(), Fail> {
    let alloc = rt.alloc();
    for (at, word, line) in CHANGED.iter() {
        let mut words = RETURNS;
        words[*at] = *word;
        let is_refused = is_refused_by(alloc, &words, line)?;
        assert!(rt; is_refused, "{word} at word {at}");
    }
    Ok(())
}

#[test]
fn a_capability_behind_the_memory_model_is_refused(rt: HostRuntime) -> Result<(), Fail> {
    let alloc = rt.alloc();
    let mut words = RETURNS;
    words[7] = 0x0003_000E;
    words[8] = 2;
    words[9] = 2;
    words[10] = 0x0002_0011;
    words[11] = 6;
    let is_refused = is_refused_by(alloc, &words, b"refused: rule S14 at word 10\n")?;
    assert!(rt; is_refused);
    Ok(())
}
