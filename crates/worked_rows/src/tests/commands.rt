use super::{ROOM, Ran, TRANSLATE, run_words, texts};
use kt_driver::{Status, run};
use ports::{MemSink, MemSource};
use std::alloc::Global;
use std::test::Fail;

const KERNEL: &[u8] = b"define spir_kernel void @k() { ret void }";

const USAGE: &[u8] = b"usage: spirv_tool translate|check|show|replay|sample [options]\n";

/// Translates the kernel over a source and an `out` that fail at the listed calls.
fn translate_failing(alloc: Global, read: &[u64], write: &[u64]) -> Result<Ran, Fail> {
    let input = Vec::from_slice(alloc, KERNEL)?;
    let mut src = MemSource::new(input, Vec::from_slice(alloc, read)?);
    let mut out = MemSink::new(alloc, Vec::from_slice(alloc, write)?, ROOM)?;
    let mut err = MemSink::new(alloc, Vec::new(alloc), ROOM)?;
    let words = texts(alloc, &TRANSLATE)?;
    let status = run(alloc, &words, &mut src, &mut out, &mut err);
    Ok(Ran { status, out, err })
}

#[test]
fn other_words_are_answered_by_the_usage_line(rt: HostRuntime) -> Result<(), Fail> {
    let lists: [&[&str]; 10] = [
        &[],
        &["translate", "--from", "llvm"],
        &["translate", "--to", "spirv", "--from", "llvm"],
        &["translate", "--from", "spirv", "--to", "spirv"],
        &["translate", "--from", "llvm", "--to", "spirv", "--order"],
        &["show"],
        &[
            "translate",
            "--from",
            "llvm",
            "--to",
            "spirv",
            "--order",
            "middle",
        ],
        &[
            "translate",
            "--from",
            "llvm",
            "--to",
            "spirv",
            "--endian",
            "big",
        ],
        &["show", "--from", "elf"],
        &["--help"],
    ];
    for words in lists {
        let ran = run_words(rt.alloc(), words, KERNEL)?;
        assert_eq!(rt; ran.status, Status::Usage, "{words:?}");
        assert_eq!(rt; ran.out.as_slice().len(), 0);
        assert_eq!(rt; ran.err.as_slice(), USAGE);
    }
    Ok(())
}

#[test]
fn a_failing_source_or_sink_is_told_by_the_status(rt: HostRuntime) -> Result<(), Fail> {
    let alloc = rt.alloc();
    let unread = translate_failing(alloc, &[0], &[])?;
    assert_eq!(rt; unread.status, Status::ReadFault);
    assert_eq!(rt; unread.out.as_slice().len(), 0);
    assert_eq!(rt; unread.err.as_slice().len(), 0);
    // The read that finds the end fails.
    let cut = translate_failing(alloc, &[1], &[])?;
    assert_eq!(rt; cut.status, Status::ReadFault);
    let unwritten = translate_failing(alloc, &[], &[0])?;
    assert_eq!(rt; unwritten.status, Status::WriteFault);
    assert_eq!(rt; unwritten.out.as_slice().len(), 0);
    let written = translate_failing(alloc, &[], &[1])?;
    assert_eq!(rt; written.status, Status::Ok);
    assert_eq!(rt; written.out.as_slice().len(), 120);
    Ok(())
}

#[test]
fn exit_numbers_follow_the_statuses(rt: HostRuntime) {
    let statuses = [
        Status::Ok,
        Status::Refused,
        Status::Usage,
        Status::ReadFault,
        Status::WriteFault,
        Status::NoMemory,
    ];
    for (number, status) in statuses.iter().enumerate() {
        assert_eq!(rt; status.exit_number() as usize, number);
    }
}
