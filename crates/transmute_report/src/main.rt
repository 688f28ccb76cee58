//! Reads a question file from standard input, writes the report to standard output, and ends with the
//! status's number.
#![tactic(auto)]

use std::process::ExitCode;
use std::{env, io};
use tm_io::{StdSink, StdSource};
use tm_run::{Status, run};

/// The number that the program ends with where the system doesn't hand over the words.
const NO_WORDS: u8 = 10;

fn main(rt: HostRuntime) -> ExitCode {
    match words(&rt) {
        Ok(words) => {
            let mut src = StdSource::new(rt.stdin());
            let mut out = StdSink::new(rt.stdout());
            let status = run(rt.alloc(), &words, &mut src, &mut out);
            ExitCode::from(status as u8)
        }
        Err(err) if err.kind() == io::ErrorKind::OutOfMemory => {
            ExitCode::from(Status::Memory as u8)
        }
        Err(_) => ExitCode::from(NO_WORDS),
    }
}

/// The words behind the program's name.
fn words(rt: &HostRuntime) -> io::Result<Vec<String>> {
    let words = env::args(rt)?.skip(1).collect(rt.alloc())?;
    Ok(words)
}
