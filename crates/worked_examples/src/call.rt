// Calls of the program over memory.

ghost use Rattle.std.specs.Prelude.{◌<◌};

use io_edge::{MemSink, MemSource};
use spiral_main::spiral_run;
use std::alloc::Global;
use std::fmt::Display;
use std::process::Abort;
use std::test::Fail;

/// How the source and the sinks behave: how many bytes a read gives at most, which read fails and which write, how many
/// bytes the output takes, and how many the note takes.
#[derive(Clone, Copy)]
pub(crate) struct Outside {
    pub(crate) step: u64,
    pub(crate) read_fails: Option<u64>,
    pub(crate) write_fails: Option<u64>,
    pub(crate) room: u64,
    pub(crate) note_room: u64,
}

/// Nothing fails, and there is room for every text of these tests.
pub(crate) const AMPLE: Outside = Outside {
    step: 4096,
    read_fails: None,
    write_fails: None,
    room: 20_000,
    note_room: 200,
};

/// A call's code, and its streams: what is left to read, and what it has written and noted.
#[derive(Drop)]
struct Seen {
    code: u8,
    source: MemSource,
    output: MemSink,
    note: MemSink,
}

fn list(alloc: Global, call: Option<u64>) -> Result<Vec<u64>, Fail> {
    let mut calls = Vec::new(alloc);
    if let Some(call) = call {
        calls.push(call)?;
    }
    Ok(calls)
}

// The program's name, and the words after it, between spaces. A dash stands for none.
fn words_of(alloc: Global, line: &str) -> Result<Vec<String>, Fail> {
    let mut words = Vec::new(alloc);
    words.push("spiral".to_string(alloc)?)?;
    if line != "-" {
        for word in line.split(' ') {
            words.push(word.to_string(alloc)?)?;
        }
    }
    Ok(words)
}

fn source_of(alloc: Global, input: &str, outside: &Outside) -> Result<MemSource, Fail>
    requires { 0 < outside.now.step }
{
    let bytes = input.as_bytes().to_vec(alloc)?;
    Ok(MemSource::new(bytes, outside.step, list(alloc, outside.read_fails)?))
}

fn sink_of(alloc: Global, room: u64, fails: Option<u64>) -> Result<MemSink, Fail> {
    Ok(MemSink::new(alloc, room, list(alloc, fails)?)?)
}

// What stands before a call.
fn before(alloc: Global, input: &str, outside: &Outside) -> Result<Seen, Fail>
    requires { 0 < outside.now.step }
{
    Ok(Seen {
        code: 0,
        source: source_of(alloc, input, outside)?,
        output: sink_of(alloc, outside.room, outside.write_fails)?,
        note: sink_of(alloc, outside.note_room, None)?,
    })
}

// The call of the words, which are joined by spaces, on the input.
fn call(alloc: Global, line: &str, input: &str, outside: &Outside) -> Result<Seen, Fail>
    requires { 0 < outside.now.step }
{
    let words = words_of(alloc, line)?;
    let mut seen = before(alloc, input, outside)?;
    let status = spiral_run(
        alloc,
        &words,
        &mut seen.source,
        &mut seen.output,
        &mut seen.note,
    );
    seen.code = status.code();
    Ok(seen)
}

fn text_of(sink: &MemSink) -> Result<&str, Fail> {
    Ok(std::str::from_utf8(sink.bytes()).ok().ok_or("a text")?)
}

fn told_of(alloc: Global, seen: &Seen) -> Result<String, Fail> {
    let (output, note) = (text_of(&seen.output)?, text_of(&seen.note)?);
    Ok(format!(in alloc; "{}; {output}; {note}", seen.code)?)
}

/// The code, the output and the note of a call over such streams, as rows have them.
pub(crate) fn told_by(
    alloc: Global,
    line: &str,
    input: &str,
    outside: &Outside,
) -> Result<String, Fail>
    requires { 0 < outside.now.step }
{
    told_of(alloc, &call(alloc, line, input, outside)?)
}

/// The same where nothing fails.
pub(crate) fn told(alloc: Global, line: &str, input: &str) -> Result<String, Fail> {
    told_by(alloc, line, input, &AMPLE)
}

fn output_of(alloc: Global, seen: &Seen) -> Result<String, Fail> {
    if seen.code != 0 {
        return Err(Fail::from("a success"));
    }
    Ok(text_of(&seen.output)?.to_string(alloc)?)
}

/// What a call writes that succeeds.
pub(crate) fn written(alloc: Global, line: &str, input: &str) -> Result<String, Fail> {
    output_of(alloc, &call(alloc, line, input, &AMPLE)?)
}

/// The two texts of this case are one.
pub(crate) fn same<D: Display + Drop>(rt: &impl Abort, seen: &str, wanted: &str, case: D) {
    assert_eq!(rt; seen, wanted, "{case}");
}

/// The call of these words on this input tells what is wanted.
pub(crate) fn tells(
    rt: &impl Abort,
    alloc: Global,
    line: &str,
    input: &str,
    wanted: &str,
) -> Result<(), Fail> {
    let seen = told(alloc, line, input)?;
    same(rt, &seen, wanted, line);
    Ok(())
}

/// The same on a line of a given number of letters and what stands after them.
pub(crate) fn long_tells(
    rt: &impl Abort,
    alloc: Global,
    line: &str,
    len: usize,
    behind: &str,
    wanted: &str,
) -> Result<(), Fail> {
    let mut input = "x".repeat(alloc, len)?;
    input.push_str(behind)?;
    tells(rt, alloc, line, &input, wanted)
}
