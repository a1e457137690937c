// Sources that give a byte a call or fail, sinks that fail or are full, and inputs that end anywhere or are too long.

ghost use Rattle.std.specs.Prelude.{◌<◌, IfOk};

use crate::call::{AMPLE, Outside, long_tells, same, tells, told_by};
use crate::rows::wanted;
use std::alloc::Global;
use std::process::Abort;
use std::test::Fail;
use worked_rows::{field, number};

const FOUR: &str = "dft 4 mod 17 root 4\n1 2 3 4\n";

const RESULT: &str = "10 7 15 6\n";

// How the streams behave, the input, and what comes of it: the status' code, the output and the note, `/` being a line end.
// The second read of the whole input finds its end, and there is no third. The last number may go on where a read fails.
const STREAMS: &str = "\
step 1; dft 2 mod 4611686018427387903 root 4611686018427387902/18446744073709551615 1; 0; 4 2/;\x20
step 1; dft 4 mod 17 root 4/1 2 3 4 1 2 3; 9; 10 7 15 6/; spiral: input ends with 3 of 4 numbers/
step 1 write 0; dft 4 mod 17 root 4/1 2 3 4 1 2 3; 11; ; spiral: write failed/
read 0; dft 4 mod 17 root 4/1 2 3 4 1 2 3; 10; ; spiral: read failed/
read 2; dft 4 mod 17 root 4/1 2 3 4/; 0; 10 7 15 6/;\x20
step 1 read 27; dft 4 mod 17 root 4/1 2 3 4; 10; ; spiral: read failed/
room 10; dft 4 mod 17 root 4/1 2 3 4/; 0; 10 7 15 6/;\x20
note 7; dft 4 mod 17 root 4/1 2 3 4 1 2 3; 9; 10 7 15 6/; spiral:
note 0; dft 4 mod 17 root 3/; 6; ;\x20
step 1 note 7; dft 4 mod 17 root 3/; 6; ; spiral:
";

fn outside(text: &str) -> Result<Outside, Fail>
    ensures { IfOk result (λ outside. 0 < outside.step) }
{
    let mut outside = AMPLE;
    let mut words = text.split(' ');
    while let Some(name) = words.next() {
        let count = number(words.next().ok_or("a number")?)?;
        match name {
            "step" => outside.step = count,
            "read" => outside.read_fails = Some(count),
            "write" => outside.write_fails = Some(count),
            "room" => outside.room = count,
            _ => outside.note_room = count,
        }
    }
    if outside.step == 0 {
        Err("a step")?
    }
    Ok(outside)
}

/// The call over streams that behave so tells what is wanted.
pub(crate) fn streams_tell(
    rt: &impl Abort,
    alloc: Global,
    line: &str,
    streams: &str,
    input: &str,
    wanted: &str,
) -> Result<(), Fail> {
    let outside = outside(streams)?;
    let seen = told_by(alloc, line, input, &outside)?;
    same(rt, &seen, wanted, streams);
    Ok(())
}

fn answers_as(rt: &impl Abort, alloc: Global, line: &str, row: &str) -> Result<(), Fail> {
    let text = row.replace(alloc, "/", "\n")?;
    let (streams, rest) = field(&text)?;
    let (input, wanted) = field(rest)?;
    streams_tell(rt, alloc, line, streams, input, wanted)
}

/// Each row's call of these words answers as the row has it: how the streams behave, the input, and what comes of it.
pub(crate) fn all_stream(
    rt: &impl Abort,
    alloc: Global,
    line: &str,
    rows: &str,
) -> Result<(), Fail> {
    for row in rows.lines() {
        answers_as(rt, alloc, line, row)?;
    }
    Ok(())
}

#[test]
fn streams_that_fail(rt: HostRuntime) -> Result<(), Fail> {
    all_stream(&rt, rt.alloc(), "run", STREAMS)
}

/// A command and an input whose first line has 20 bytes, and the output where a read fails after that line, where it fails
/// at the input's end, and where none does.
#[derive(Clone, Copy)]
struct Failing<'a> {
    line: &'a str,
    input: &'a str,
    early: &'a str,
    late: &'a str,
    text: &'a str,
}

const FAILING: &str = "\
run; dft 4 mod 17 root 4/1 2 3 4/; ; 10 7 15 6/; 10 7 15 6/
trace; dft 2 mod 15 root 4/1 1/; program size 2 mod 15 procs 1 line 1 lanes 1 regs 5/phase/ld r0 X[0]/ld r1 X[1]/add r2 r0 r1/mul r3 r1 4/add r4 r0 r3/st Y[0] r2/st Y[1] r4/end/; program size 2 mod 15 procs 1 line 1 lanes 1 regs 5/phase/ld r0 X[0]/ld r1 X[1]/add r2 r0 r1/mul r3 r1 4/add r4 r0 r3/st Y[0] r2/st Y[1] r4/end/0 0 ld r0 0/1 0 ld r1 1/2 0 add r2 r0 r1/3 0 mul r3 r1 4/4 0 add r4 r0 r3/5 0 st 2 r2/6 0 st 3 r4/2 5/; program size 2 mod 15 procs 1 line 1 lanes 1 regs 5/phase/ld r0 X[0]/ld r1 X[1]/add r2 r0 r1/mul r3 r1 4/add r4 r0 r3/st Y[0] r2/st Y[1] r4/end/0 0 ld r0 0/1 0 ld r1 1/2 0 add r2 r0 r1/3 0 mul r3 r1 4/4 0 add r4 r0 r3/5 0 st 2 r2/6 0 st 3 r4/2 5/
check; dft 4 mod 17 root 4/{\"rows\":[[2,2,\"leaf\",0,0],[4,9,\"ct\",2,2]],\"size\":4,\"version\":1}/; ; ; least 9/
";

fn failing_of(row: &str) -> Result<Failing, Fail> {
    let (line, rest) = field(row)?;
    let (input, rest) = field(rest)?;
    let (early, rest) = field(rest)?;
    let (late, text) = field(rest)?;
    Ok(Failing {
        line,
        input,
        early,
        late,
        text,
    })
}

// The output where the read of this number fails.
fn front_at<'a>(failing: &Failing<'a>, at: usize) -> &'a str {
    if at < 20 {
        ""
    } else if at < failing.input.len() {
        failing.early
    } else {
        failing.late
    }
}

// What is wanted where the read of this number fails. There is one at the input's end, and none after it.
fn wanted_at(alloc: Global, failing: &Failing, at: usize) -> Result<String, Fail> {
    if at > failing.input.len() {
        return Ok(format!(in alloc; "0; {}; ", failing.text)?);
    }
    let front = front_at(failing, at);
    Ok(format!(in alloc; "10; {front}; spiral: read failed\n")?)
}

fn fail_read(rt: &impl Abort, alloc: Global, failing: &Failing, at: usize) -> Result<(), Fail> {
    let outside = Outside {
        step: 1,
        read_fails: Some(at as u64),
        ..AMPLE
    };
    let wanted = wanted_at(alloc, failing, at)?;
    let seen = told_by(alloc, failing.line, failing.input, &outside)?;
    same(rt, &seen, &wanted, at);
    Ok(())
}

// Bytes are read one by one, so each call reads the byte of its number, and the call after the last finds the end.
fn fail_reads(rt: &impl Abort, alloc: Global, failing: &Failing) -> Result<(), Fail> {
    for at in 0..failing.input.len() + 2 {
        fail_read(rt, alloc, failing, at)?;
    }
    Ok(())
}

fn fail_write(rt: &impl Abort, alloc: Global, failing: &Failing, room: usize) -> Result<(), Fail> {
    let outside = Outside {
        room: room as u64,
        ..AMPLE
    };
    let front = failing.text.get(..room).ok_or("a front")?;
    let wanted = format!(in alloc; "11; {front}; spiral: write failed\n")?;
    let seen = told_by(alloc, failing.line, failing.input, &outside)?;
    same(rt, &seen, &wanted, room);
    Ok(())
}

fn fail_writes(rt: &impl Abort, alloc: Global, failing: &Failing) -> Result<(), Fail> {
    for room in 0..failing.text.len() {
        fail_write(rt, alloc, failing, room)?;
    }
    Ok(())
}

fn fails(rt: &impl Abort, alloc: Global, row: &str) -> Result<(), Fail> {
    let text = row.replace(alloc, "/", "\n")?;
    let failing = failing_of(&text)?;
    fail_reads(rt, alloc, &failing)?;
    fail_writes(rt, alloc, &failing)
}

#[test]
fn each_read_and_each_write_fails(rt: HostRuntime) -> Result<(), Fail> {
    for row in FAILING.lines() {
        fails(&rt, rt.alloc(), row)?;
    }
    Ok(())
}

// What is wanted of the first bytes of an input whose line has 19 bytes. A number begins at each second byte after it.
fn wanted_cut(alloc: Global, len: usize) -> Result<String, Fail> {
    let have = len.saturating_sub(19) / 2;
    Ok(if len < 19 {
        format!(in alloc; "3; ; spiral: syntax at byte {len}\n")?
    } else if have == 0 {
        "0; ; ".to_string(alloc)?
    } else if have == 4 {
        format!(in alloc; "0; {RESULT}; ")?
    } else {
        format!(in alloc; "9; ; spiral: input ends with {have} of 4 numbers\n")?
    })
}

fn cut_by(rt: &impl Abort, alloc: Global, len: usize, step: u64, wanted: &str) -> Result<(), Fail>
    requires { 0 < step }
{
    let outside = Outside { step, ..AMPLE };
    let front = FOUR.get(..len).ok_or("a front")?;
    let seen = told_by(alloc, "run", front, &outside)?;
    same(rt, &seen, wanted, len);
    Ok(())
}

fn cut_as(rt: &impl Abort, alloc: Global, len: usize) -> Result<(), Fail> {
    let wanted = wanted_cut(alloc, len)?;
    cut_by(rt, alloc, len, 1, &wanted)?;
    cut_by(rt, alloc, len, 4096, &wanted)
}

#[test]
fn inputs_cut_after_each_byte(rt: HostRuntime) -> Result<(), Fail> {
    for len in 0..FOUR.len() {
        cut_as(&rt, rt.alloc(), len)?;
    }
    Ok(())
}

// As long as may be, and one byte more.
#[test]
fn long_lines(rt: HostRuntime) -> Result<(), Fail> {
    let wanted = "3; ; spiral: syntax at byte 0\n";
    long_tells(&rt, rt.alloc(), "run", 256, "", wanted)
}

#[test]
fn lines_that_are_too_long(rt: HostRuntime) -> Result<(), Fail> {
    let wanted = "13; ; spiral: more than 256 bytes\n";
    long_tells(&rt, rt.alloc(), "run", 257, "", wanted)
}

fn long_certificate(rt: &impl Abort, alloc: Global, len: usize, wanted: &str) -> Result<(), Fail> {
    let spaces = " ".repeat(alloc, len)?;
    let input = format!(in alloc; "dft 4 mod 17 root 4\n{spaces}")?;
    tells(rt, alloc, "check", &input, wanted)
}

#[test]
fn long_certificates(rt: HostRuntime) -> Result<(), Fail> {
    let wanted = "14; ; spiral: certificate unreadable\n";
    long_certificate(&rt, rt.alloc(), 65_536, wanted)
}

#[test]
fn certificates_that_are_too_long(rt: HostRuntime) -> Result<(), Fail> {
    let wanted = "13; ; spiral: more than 65536 bytes\n";
    long_certificate(&rt, rt.alloc(), 65_537, wanted)
}

// A turn of processor 0, and `more` more, named.
fn named_turns(rt: &impl Abort, alloc: Global, more: usize, wanted: &str) -> Result<(), Fail> {
    let turns = ",0".repeat(alloc, more)?;
    let line = format!(in alloc; "run --schedule turns:0{turns}")?;
    let input = "dft 4 mod 17 root 4 procs 2 line 1\n1 2 3 4\n";
    tells(rt, alloc, &line, input, wanted)
}

// 65,536 turns, and one more.
#[test]
fn as_many_turns_as_can_be_named(rt: HostRuntime) -> Result<(), Fail> {
    named_turns(&rt, rt.alloc(), 65_535, "0; 10 7 15 6\n; ")
}

#[test]
fn more_turns_than_can_be_named(rt: HostRuntime) -> Result<(), Fail> {
    let wanted = wanted(rt.alloc(), "2", "-", "usage")?;
    named_turns(&rt, rt.alloc(), 65_536, &wanted)
}
