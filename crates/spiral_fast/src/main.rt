//! The program: its words, its standard streams, and the exit code of its status.
#![tactic(auto)]

use fast_main::{Status, fast_run};
use io_edge::{ReadSource, WriteSink, write_all};
use std::process::ExitCode;
use std::{env, io};

// The program's name and what comes after it.
fn words(rt: &HostRuntime) -> io::Result<Vec<String>> {
    let mut words = Vec::new(rt.alloc());
    for word in env::args(rt)? {
        words.push(word)?;
    }
    Ok(words)
}

fn main(rt: HostRuntime) -> ExitCode {
    let mut input = ReadSource::new(rt.stdin());
    let mut output = WriteSink::new(rt.stdout());
    let mut note = WriteSink::new(rt.stderr());
    let words = match words(&rt) {
        Ok(words) => words,
        Err(error) if error.kind() == io::ErrorKind::OutOfMemory => {
            let _ = write_all(&mut note, b"spiral_fast: out of memory\n");
            return ExitCode::from(Status::NoMemory.code());
        }
        // Words that are no text are no right call, and so are no words.
        Err(_) => Vec::new(rt.alloc()),
    };
    let status = fast_run(rt.alloc(), &words, &mut input, &mut output, &mut note);
    ExitCode::from(status.code())
}
