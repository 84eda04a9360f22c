//! Translates kernel modules between textual LLVM and SPIR-V, from standard input to standard output.
#![tactic(auto)]

use kt_driver::{Status, run};
use ports::{OutOfMemory, StdSink, StdSource};
use std::env;
use std::io::ErrorKind;
use std::process::ExitCode;
use std::rt::Env;

/// The words behind the program's name, or none where they can't be got for another cause than want of memory.
fn command_words<R: Env + AllocGlobal>(rt: &R) -> Result<Vec<String>, OutOfMemory> {
    let mut words = Vec::new(rt.alloc());
    let args = match env::args(rt) {
        Ok(args) => args,
        Err(error) if error.kind() == ErrorKind::OutOfMemory => return Err(OutOfMemory),
        Err(_) => return Ok(words),
    };
    for word in args.skip(1) {
        words.push(word)?;
    }
    Ok(words)
}

fn main(rt: HostRuntime) -> ExitCode {
    let status = match command_words(&rt) {
        Ok(words) => {
            let mut src = StdSource::new(rt.stdin());
            let mut out = StdSink::new(rt.stdout());
            let mut err = StdSink::new(rt.stderr());
            run(rt.alloc(), &words, &mut src, &mut out, &mut err)
        }
        Err(OutOfMemory) => Status::NoMemory,
    };
    ExitCode::from(status.exit_number())
}
