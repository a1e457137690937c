// Vectors of an input's data, and an input's rest.

ghost use Rattle.std.specs.Prelude.{◌<◌};

use crate::same::same;
use data_stream::{DataFault, Next, Vectors, read_rest, write_vector};
use io_edge::{CountSink, Feed, MemSink, MemSource, WriteFault};
use ring_mod::Modulus;
use std::alloc::Global;
use std::test::Fail;
use worked_rows::{check, field, number, shown, spelled};

// How the data go on after their vectors of four numbers, at most two, which are written.
fn copied(
    alloc: Global,
    source: &mut MemSource,
    output: &mut MemSink,
) -> Result<Result<Next, DataFault>, Fail> {
    let modulus = Modulus::new(17).ok_or("a modulus")?;
    let mut feed = Feed::new(alloc)?;
    let mut vectors = Vectors::new(4);
    let mut vector = [0; 4];
    let mut next = vectors.next(&modulus, &mut feed, source, &mut vector);
    if next == Ok(Next::Vector) {
        write_vector(output, &vector).ok();
        next = vectors.next(&modulus, &mut feed, source, &mut vector);
    }
    if next == Ok(Next::Vector) {
        write_vector(output, &vector).ok();
        next = vectors.next(&modulus, &mut feed, source, &mut vector);
    }
    Ok(next)
}

// What is written for the data in steps of `step` bytes, and how they go on, as the rows have it.
fn told(alloc: Global, data: &str, step: u64, fail_at: Vec<u64>) -> Result<String, Fail>
    requires { 0 < step }
{
    let mut source = MemSource::new(data.as_bytes().to_vec(alloc)?, step, fail_at);
    let mut output = MemSink::new(alloc, 100, Vec::new(alloc))?;
    let next = copied(alloc, &mut source, &mut output)?;
    let text = shown(alloc, output.bytes())?;
    Ok(format!(in alloc; "{text}; {next:?}")?)
}

fn told_in_steps(alloc: Global, data: &str, step: u64) -> Result<String, Fail>
    requires { 0 < step }
{
    told(alloc, &spelled(alloc, data)?, step, Vec::new(alloc))
}

// The data, the lines of their vectors modulo 17, and how they go on.
const DATA: &str = "\
|; Ok(End)
 \t\r~|; Ok(End)
1 2 3 4~|1 2 3 4~; Ok(End)
1 2 3 4 5\t6\r~7  8|1 2 3 4~5 6 7 8~; Ok(End)
0001 2 3 4|1 2 3 4~; Ok(End)
18446744073709551615 17 18 00000000000000000035|0 0 1 1~; Ok(End)
1 2 3 4 1 2 3|1 2 3 4~; Err(Truncated { have: 3, need: 4 })
1 2 x 4|; Err(BadNumber { token: 3 })
18446744073709551616|; Err(BadNumber { token: 1 })
000000000000000000001|; Err(BadNumber { token: 1 })
1,2|; Err(BadNumber { token: 1 })
1\x0b2|; Err(BadNumber { token: 1 })
1 99999999999999999999|; Err(BadNumber { token: 2 })
1 2 3 4 -1|1 2 3 4~; Err(BadNumber { token: 5 })
";

fn byte_by_byte(alloc: Global, data: &str) -> Result<String, Fail> {
    told_in_steps(alloc, data, 1)
}

fn three_by_three(alloc: Global, data: &str) -> Result<String, Fail> {
    told_in_steps(alloc, data, 3)
}

fn at_once(alloc: Global, data: &str) -> Result<String, Fail> {
    told_in_steps(alloc, data, 4096)
}

#[test]
fn vectors_byte_by_byte(rt: HostRuntime) -> Result<(), Fail> {
    check(rt.alloc(), DATA, byte_by_byte)
}

#[test]
fn vectors_three_by_three(rt: HostRuntime) -> Result<(), Fail> {
    check(rt.alloc(), DATA, three_by_three)
}

#[test]
fn vectors_at_once(rt: HostRuntime) -> Result<(), Fail> {
    check(rt.alloc(), DATA, at_once)
}

// The read of `1 2 3 4` that fails, byte by byte, and what is written. A fault inside a token gives no number of it, and the
// end of the data is not asked for twice.
const FAILING: &str = "\
0|; Err(ReadFault)
1|; Err(ReadFault)
2|; Err(ReadFault)
3|; Err(ReadFault)
4|; Err(ReadFault)
5|; Err(ReadFault)
6|; Err(ReadFault)
7|; Err(ReadFault)
8|1 2 3 4~; Ok(End)
";

fn failing_answer(alloc: Global, read: &str) -> Result<String, Fail> {
    told(alloc, "1 2 3 4", 1, vec![in alloc; number(read)?]?)
}

#[test]
fn failing_reads(rt: HostRuntime) -> Result<(), Fail> {
    check(rt.alloc(), FAILING, failing_answer)
}

// A short line is one write, and one longer than any buffer on the way is whole.
#[test]
fn short_lines(rt: HostRuntime) -> Result<(), Fail> {
    let alloc = rt.alloc();
    let mut output = MemSink::new(alloc, 100, vec![in alloc; 1]?)?;
    same(&rt, write_vector(&mut output, &[1, 22, 333]), Ok(()));
    same(&rt, write_vector(&mut output, &[4]), Err(WriteFault));
    same(&rt, output.bytes(), b"1 22 333\n".as_slice());
    Ok(())
}

#[test]
fn long_lines(rt: HostRuntime) {
    let mut output = CountSink::new();
    let long = [18446744073709551615; 1000];
    same(&rt, write_vector(&mut output, &long), Ok(()));
    same(&rt, output.count, 21000);
    same(&rt, write_vector(&mut output, &[]), Ok(()));
    same(&rt, output.count, 21001);
}

// What comes after the first byte of the source, if it has at most four bytes.
fn rest_of(alloc: Global, source: &mut MemSource) -> Result<String, Fail> {
    let mut feed = Feed::new(alloc)?;
    if feed.byte(source).is_err() {
        return Err(Fail::from("a first byte"));
    }
    match read_rest(alloc, &mut feed, source, 4) {
        Ok(rest) => shown(alloc, &rest),
        Err(fault) => Ok(format!(in alloc; "{fault:?}")?),
    }
}

// The bytes of a step, the read that fails, and an input; and what comes after its first byte.
const RESTS: &str = "\
1; -; ?abc~|abc~
1; -; ?|
1; -; ?abc~ |TooLong
3; -; ?abc~|abc~
3; -; ?|
3; -; ?abc~ |TooLong
100; -; ?abc~|abc~
100; -; ?|
100; -; ?abc~ |TooLong
2; 1; ?abc|ReadFault
";

fn calls(alloc: Global, word: &str) -> Result<Vec<u64>, Fail> {
    let mut calls = Vec::new(alloc);
    if word != "-" {
        calls.push(number(word)?)?;
    }
    Ok(calls)
}

fn source_of(alloc: Global, input: &str, step: u64, word: &str) -> Result<MemSource, Fail> {
    if step == 0 {
        return Err(Fail::from("a step"));
    }
    let bytes = spelled(alloc, input)?.as_bytes().to_vec(alloc)?;
    Ok(MemSource::new(bytes, step, calls(alloc, word)?))
}

fn rest_answer(alloc: Global, question: &str) -> Result<String, Fail> {
    let (step, rest) = field(question)?;
    let (failing, input) = field(rest)?;
    let mut source = source_of(alloc, input, number(step)?, failing)?;
    rest_of(alloc, &mut source)
}

#[test]
fn rests(rt: HostRuntime) -> Result<(), Fail> {
    check(rt.alloc(), RESTS, rest_answer)
}
