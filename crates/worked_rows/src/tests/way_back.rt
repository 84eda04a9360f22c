use super::first_kernel::{ADDS, RETURNS};
use super::{Ran, little, run_words, translate};
use kt_driver::Status;
use std::alloc::Global;
use std::test::Fail;

/// The words that ask for a translation to text.
const BACK: [&str; 5] = ["translate", "--from", "spirv", "--to", "llvm"];

/// The text of the kernel that adds, as it is written.
const ADDING: &[u8] =
    b"target datalayout = \"e-i64:64-v16:16-v24:32-v32:32-v48:64-v96:128-v192:256-v256:256-v512:512-v1024:1024\"\ntarget triple = \"spir64-unknown-unknown\"\ndefine spir_kernel void @a(i32 addrspace(1)* %0, i32 %1) {\n2:\n  %3 = load i32, i32 addrspace(1)* %0, align 4\n  %4 = add i32 %3, %1\n  store i32 %4, i32 addrspace(1)* %0, align 4\n  ret void\n}\n";

/// The text of the kernel that only returns.
const RETURNING: &[u8] =
    b"target datalayout = \"e-i64:64-v16:16-v24:32-v32:32-v48:64-v96:128-v192:256-v256:256-v512:512-v1024:1024\"\ntarget triple = \"spir64-unknown-unknown\"\ndefine spir_kernel void @k() {\n0:\n  ret void\n}\n";

const OUTSIDE: &[u8] = b"refused: rule S90 at word 0\n";

/// Translates a binary to text.
fn back(alloc: Global, input: &[u8]) -> Result<Ran, Fail> {
    run_words(alloc, &BACK, input)
}

#[test]
fn a_binary_is_translated_to_its_text(rt: HostRuntime) -> Result<(), Fail> {
    let alloc = rt.alloc();
    let adds = back(alloc, &little(alloc, &ADDS)?)?;
    assert_eq!(rt; adds.status, Status::Ok);
    assert_eq!(rt; adds.out.as_slice(), ADDING);
    assert_eq!(rt; adds.err.as_slice().len(), 0);
    let returns = back(alloc, &little(alloc, &RETURNS)?)?;
    assert_eq!(rt; returns.status, Status::Ok);
    assert_eq!(rt; returns.out.as_slice(), RETURNING);
    Ok(())
}

/// The bytes of words in big order.
fn big(alloc: Global, words: &[u32]) -> Result<Vec<u8>, Fail> {
    let mut bytes = Vec::new(alloc);
    for word in words {
        bytes.extend_from_slice(&word.to_be_bytes())?;
    }
    Ok(bytes)
}

#[test]
fn the_order_of_a_binary_leaves_no_trace(rt: HostRuntime) -> Result<(), Fail> {
    let alloc = rt.alloc();
    let ran = back(alloc, &big(alloc, &ADDS)?)?;
    assert_eq!(rt; ran.status, Status::Ok);
    assert_eq!(rt; ran.out.as_slice(), ADDING);
    let words = [
        "translate",
        "--from",
        "spirv",
        "--to",
        "llvm",
        "--order",
        "big",
    ];
    let ordered = run_words(alloc, &words, &little(alloc, &ADDS)?)?;
    assert_eq!(rt; ordered.status, Status::Ok);
    assert_eq!(rt; ordered.out.as_slice(), ADDING);
    Ok(())
}

#[test]
fn there_and_back_twice_gives_the_same_bytes(rt: HostRuntime) -> Result<(), Fail> {
    let alloc = rt.alloc();
    let text =
        b"define spir_kernel void @a(i32 addrspace(1)* %p, i32 %x) { %v = load i32, i32 addrspace(1)* %p %s = add i32 %v, %x store i32 %s, i32 addrspace(1)* %p ret void }";
    let first = translate(alloc, text)?;
    let first_text = back(alloc, first.out.as_slice())?;
    assert_eq!(rt; first_text.out.as_slice(), ADDING);
    let second = translate(alloc, first_text.out.as_slice())?;
    assert_eq!(rt; second.out.as_slice(), first.out.as_slice());
    let second_text = back(alloc, second.out.as_slice())?;
    assert_eq!(rt; second_text.out.as_slice(), first_text.out.as_slice());
    Ok(())
}

/// Whether a binary is refused, or translated to a text that is translated back to just these bytes.
fn is_refused_or_comes_back(alloc: Global, bytes: &[u8]) -> Result<bool, Fail> {
    let text = back(alloc, bytes)?;
    if text.status == Status::Refused {
        return Ok(text.out.as_slice().is_empty());
    }
    let again = translate(alloc, text.out.as_slice())?;
    Ok(again.status == Status::Ok && again.out.as_slice() == bytes)
}

#[test]
fn each_changed_word_is_refused_or_comes_back(rt: HostRuntime) -> Result<(), Fail> {
    let alloc = rt.alloc();
    for at in 0..ADDS.len() {
        for change in [1, 3, 0x100, 0x1_0000, 0x8000_0000] {
            let mut words = ADDS;
            words[at] ^= change;
            let bytes = little(alloc, &words)?;
            let is_right = is_refused_or_comes_back(alloc, &bytes)?;
            assert!(rt; is_right, "word {at} changed by {change}");
        }
    }
    Ok(())
}

#[test]
fn another_name_is_another_text(rt: HostRuntime) -> Result<(), Fail> {
    let alloc = rt.alloc();
    let mut words = RETURNS;
    words[15] = 0x6C;
    let bytes = little(alloc, &words)?;
    let ran = back(alloc, &bytes)?;
    assert_eq!(rt; ran.status, Status::Ok);
    assert_ne!(rt; ran.out.as_slice(), RETURNING);
    let comes_back = is_refused_or_comes_back(alloc, &bytes)?;
    assert!(rt; comes_back);
    Ok(())
}

#[test]
fn a_binary_in_another_form_is_outside(rt: HostRuntime) -> Result<(), Fail> {
    let alloc = rt.alloc();
    // Of version 1.1, with a generator, with a greater bound, and without the capability Addresses.
    let changes: [(usize, u32); 4] = [(1, 0x0001_0100), (2, 7), (3, 6), (6, 5)];
    for (at, word) in changes {
        let mut words = RETURNS;
        words[at] = word;
        let ran = back(alloc, &little(alloc, &words)?)?;
        assert_eq!(rt; ran.status, Status::Refused, "word {at}");
        assert_eq!(rt; ran.err.as_slice(), OUTSIDE, "word {at}");
        assert_eq!(rt; ran.out.as_slice().len(), 0);
    }
    Ok(())
}

/// Whether a front of a binary is refused, by the rule of framing that its listing is refused by, where it breaks one.
fn is_refused_as_its_listing(alloc: Global, front: &[u8]) -> Result<bool, Fail> {
    let listed = run_words(alloc, &["show", "--from", "spirv"], front)?;
    let ran = back(alloc, front)?;
    let is_told = listed.status != Status::Refused || ran.err.as_slice() == listed.err.as_slice();
    Ok(ran.status == Status::Refused && is_told)
}

#[test]
fn every_front_of_a_binary_is_refused(rt: HostRuntime) -> Result<(), Fail> {
    let alloc = rt.alloc();
    let bytes = little(alloc, &ADDS)?;
    for count in 0..bytes.len() {
        let is_refused = is_refused_as_its_listing(alloc, &bytes[..count])?;
        assert!(rt; is_refused, "{count} bytes");
    }
    Ok(())
}
