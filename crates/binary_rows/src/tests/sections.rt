use super::told;
use ports::SpvError;
use std::alloc::Global;
use std::test::Fail;

/// A header whose bound is 8.
static HEADER: [u32; 5] = [0x0723_0203, 0x0001_0200, 0, 8, 0];

/// Something of each section, in the order of the sections (SPIR-V 1.2, 2.4).
static SECTIONS: [&[u32]; 12] = [
    // OpCapability, OpExtension, OpExtInstImport, OpMemoryModel
    &[0x0002_0011, 6],
    &[0x0002_000A, 0x61],
    &[0x0003_000B, 1, 0x61],
    &[0x0003_000E, 2, 2],
    // OpEntryPoint, OpExecutionMode
    &[0x0004_000F, 6, 5, 0x61],
    &[0x0006_0010, 5, 17, 1, 1, 1],
    // OpString, OpName, OpModuleProcessed, OpDecorate
    &[0x0003_0007, 6, 0x61],
    &[0x0003_0005, 5, 0x61],
    &[0x0002_014A, 0x61],
    &[0x0003_0047, 5, 19],
    // OpTypeVoid, OpTypeFunction
    &[0x0002_0013, 2, 0x0003_0021, 3, 2],
    // OpFunction, OpLabel, OpReturn, OpFunctionEnd
    &[
        0x0005_0036,
        2,
        5,
        0,
        3,
        0x0002_00F8,
        7,
        0x0001_00FD,
        0x0001_0038,
    ],
];

/// The numbers of the sections in order.
const ORDER: [usize; 12] = [0, 1, 2, 3, 4, 5, 6, 7, 8, 9, 10, 11];

/// Puts sections behind the words of a binary.
fn push_sections(words: &mut Vec<u32>, order: &[usize]) -> Result<(), SpvError> {
    for section in order {
        if let Some(part) = SECTIONS.get(*section) {
            words.extend_from_slice(part)?;
        }
    }
    Ok(())
}

/// The words of a binary of these sections, one behind another.
fn words_of(alloc: Global, order: &[usize]) -> Result<Vec<u32>, SpvError> {
    let mut words = Vec::from_slice(alloc, &HEADER)?;
    push_sections(&mut words, order)?;
    Ok(words)
}

/// The words of a binary in which one of the first eleven sections and the one behind it are exchanged, and the word where the lower
/// one stands then.
fn exchanged(alloc: Global, section: usize) -> Result<(Vec<u32>, u64), SpvError> {
    let lower = section.min(10);
    let mut words = words_of(alloc, &ORDER[..lower])?;
    push_sections(&mut words, &[lower + 1])?;
    let place = words.len() as u64;
    push_sections(&mut words, &[lower])?;
    push_sections(&mut words, &ORDER[lower + 2..])?;
    Ok((words, place))
}

#[test]
fn sections_in_order_are_built(rt: HostRuntime) -> Result<(), Fail> {
    let words = words_of(rt.alloc(), &ORDER)?;
    let told = told(rt.alloc(), &words)?;
    assert_eq!(rt; told, None);
    Ok(())
}

#[test]
fn each_section_is_refused_behind_the_next(rt: HostRuntime) -> Result<(), Fail> {
    let alloc = rt.alloc();
    for section in 0..11 {
        let (words, place) = exchanged(alloc, section)?;
        let told = told(alloc, &words)?;
        assert_eq!(rt; told, Some((14, place)), "section {section}");
    }
    Ok(())
}

#[test]
fn each_section_is_refused_behind_the_last(rt: HostRuntime) -> Result<(), Fail> {
    let alloc = rt.alloc();
    for section in 0..11 {
        let mut words = words_of(alloc, &ORDER)?;
        let place = words.len() as u64;
        words.extend_from_slice(SECTIONS[section])?;
        let told = told(alloc, &words)?;
        assert_eq!(rt; told, Some((14, place)), "section {section}");
    }
    Ok(())
}

#[test]
fn a_memory_model_is_wanted_once(rt: HostRuntime) -> Result<(), Fail> {
    let alloc = rt.alloc();
    let missing = words_of(alloc, &[0, 1, 2, 4, 5, 6, 7, 8, 9, 10, 11])?;
    let at_the_end = Some((14, missing.len() as u64));
    assert_eq!(rt; told(alloc, &missing)?, at_the_end);
    let twice = words_of(alloc, &[0, 1, 2, 3, 3, 4, 5, 6, 7, 8, 9, 10, 11])?;
    assert_eq!(rt; told(alloc, &twice)?, Some((14, 15)));
    Ok(())
}
