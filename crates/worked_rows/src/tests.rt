mod binaries;
mod commands;
mod first_kernel;
mod listings;
mod names;
mod streams;
mod way_back;
mod words;

use kt_driver::{Status, run};
use ports::{MemSink, MemSource};
use std::alloc::{AllocError, Global};
use std::test::Fail;

/// What a run answered and wrote.
#[derive(Drop)]
struct Ran {
    status: Status,
    out: MemSink,
    err: MemSink,
}

/// The words that ask for a translation to SPIR-V.
const TRANSLATE: [&str; 5] = ["translate", "--from", "llvm", "--to", "spirv"];

/// How many bytes the sinks of these tests have room for.
const ROOM: u64 = 1000;

/// Runs a command over bytes in memory, where nothing fails.
fn run_words(alloc: Global, words: &[&str], input: &[u8]) -> Result<Ran, Fail> {
    let mut src = MemSource::new(Vec::from_slice(alloc, input)?, Vec::new(alloc));
    let mut out = MemSink::new(alloc, Vec::new(alloc), ROOM)?;
    let mut err = MemSink::new(alloc, Vec::new(alloc), ROOM)?;
    let words = texts(alloc, words)?;
    let status = run(alloc, &words, &mut src, &mut out, &mut err);
    Ok(Ran { status, out, err })
}

/// Translates a text to SPIR-V.
fn translate(alloc: Global, input: &[u8]) -> Result<Ran, Fail> {
    run_words(alloc, &TRANSLATE, input)
}

fn texts(alloc: Global, words: &[&str]) -> Result<Vec<String>, AllocError> {
    let mut texts = Vec::new(alloc);
    for word in words {
        texts.push(word.to_string(alloc)?)?;
    }
    Ok(texts)
}

/// The bytes of words in little order.
fn little(alloc: Global, words: &[u32]) -> Result<Vec<u8>, AllocError> {
    let mut bytes = Vec::new(alloc);
    for word in words {
        bytes.extend_from_slice(&word.to_le_bytes())?;
    }
    Ok(bytes)
}
