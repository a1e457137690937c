//! The program: its words, its standard streams, and the exit code of its status.
#![tactic(auto)]

use io_edge::{ReadSource, WriteSink, write_all};
use spiral_main::{Status, spiral_run};
use std::io::LineWriter;
use std::process::ExitCode;
use std::{env, io};

/// How many bytes of a line are written out at once.
const PIECE: usize = 8192;

// The program's name and what comes after it.
fn words(rt: &HostRuntime) -> io::Result<Vec<String>> {
    let mut words = Vec::new(rt.alloc());
    for word in env::args(rt)? {
        words.push(word)?;
    }
    Ok(words)
}

fn no_memory(note: &mut WriteSink<io::Stderr>) -> ExitCode {
    let _ = write_all(note, b"spiral: out of memory\n");
    ExitCode::from(Status::NoMemory.code())
}

fn main(rt: HostRuntime) -> ExitCode {
    let mut input = ReadSource::new(rt.stdin());
    let mut note = WriteSink::new(rt.stderr());
    // Each line goes out when it is whole.
    let Ok(lines) = LineWriter::with_capacity(rt.alloc(), PIECE, rt.stdout()) else {
        return no_memory(&mut note);
    };
    let mut output = WriteSink::new(lines);
    let words = match words(&rt) {
        Ok(words) => words,
        Err(error) if error.kind() == io::ErrorKind::OutOfMemory => return no_memory(&mut note),
        // Words that are no text are no command, and neither are no words.
        Err(_) => Vec::new(rt.alloc()),
    };
    let status = spiral_run(rt.alloc(), &words, &mut input, &mut output, &mut note);
    ExitCode::from(status.code())
}
