// The lines of turns and of results, of programs that are read from their listings.

ghost use Rattle.std.specs.Prelude.{◌<◌};
ghost use Rattle.icode.specs.Program.{Fits};

use crate::machines::{machine_with, schedule};
use crate::programs::program;
use crate::same::same;
use buffer_machine::Events;
use icode::program::Program;
use io_edge::{Feed, MemSink, MemSource};
use runs::{run_stream, write_steps};
use std::alloc::Global;
use std::test::Fail;
use worked_rows::{check, field, number, numbers};

// A program, its input, a schedule and the write that fails, if any (each line is one); and the lines, `/` being a line
// end, and the answer.
const LINES: &str = "\
pair; 1 1; seq; -|0 0 ld r0 0/1 0 ld r1 1/2 0 add r2 r0 r1/3 0 mul r3 r1 4/4 0 add r4 r0 r3/5 0 st 2 r2/6 0 st 3 r4/; Ok(())
pair; 1 1; turns:0,0,0; -|0 0 ld r0 0/1 0 ld r1 1/2 0 add r2 r0 r1/3 0 mul r3 r1 4/4 0 add r4 r0 r3/5 0 st 2 r2/6 0 st 3 r4/; Ok(())
pair; 1 1; turns:0,0,0,0,0,0,0,0; -|0 0 ld r0 0/1 0 ld r1 1/2 0 add r2 r0 r1/3 0 mul r3 r1 4/4 0 add r4 r0 r3/5 0 st 2 r2/6 0 st 3 r4/7 0 done/; Ok(())
pair; 1 1; seq; 0|; Err(WriteFault)
pair; 1 1; seq; 1|0 0 ld r0 0/; Err(WriteFault)
pair; 1 1; seq; 3|0 0 ld r0 0/1 0 ld r1 1/2 0 add r2 r0 r1/; Err(WriteFault)
quad; 1 2 3 4; turns:1,1,1,1,1,1,1,1,1; -|0 1 ld r0 1/1 1 ld r1 3/2 1 add r2 r0 r1/3 1 sub r3 r0 r1/4 1 mul r4 r2 1/5 1 st 10 r4/6 1 mul r5 r3 4/7 1 st 11 r5/8 1 waits/9 0 ld r0 0/10 0 ld r1 2/11 0 add r2 r0 r1/12 0 sub r3 r0 r1/13 0 mul r4 r2 1/14 0 st 8 r4/15 0 mul r5 r3 1/16 0 st 9 r5/17 0 ld r0 8/18 0 ld r1 10/19 0 add r2 r0 r1/20 0 sub r3 r0 r1/21 0 st 4 r2/22 0 st 6 r3/23 1 ld r0 9/24 1 ld r1 11/25 1 add r2 r0 r1/26 1 sub r3 r0 r1/27 1 st 5 r2/28 1 st 7 r3/; Ok(())
actions; 1 2 3 4; seq; -|0 0 zero r0/1 0 neg r2 r1/2 0 mul r4 r2 1,3/3 0 tile r6 r0/; Ok(())
";

// A sink with so much room, and the write that fails, if any.
fn sink_of(alloc: Global, room: u64, failing: &str) -> Result<MemSink, Fail> {
    let mut fail_at = Vec::new(alloc);
    if failing != "-" {
        fail_at.push(number(failing)?)?;
    }
    Ok(MemSink::new(alloc, room, fail_at)?)
}

// What a run answers whose lines go to the output.
fn traced(
    alloc: Global,
    program: &Program,
    input: &str,
    word: &str,
    output: &mut MemSink,
) -> Result<String, Fail>
    requires { Fits program.now }
{
    let schedule = schedule(alloc, word)?;
    let mut machine = machine_with(alloc, program, &numbers(alloc, input)?)?;
    match schedule.stranger(machine.procs()) {
        None => {
            let result = write_steps(&mut machine, Events::Turns(&schedule), output);
            Ok(format!(in alloc; "{result:?}")?)
        }
        Some(_) => Err(Fail::from("a stranger")),
    }
}

// What the sink took, as the rows have it.
fn text_of(alloc: Global, output: &MemSink) -> Result<String, Fail> {
    let text = std::str::from_utf8(output.bytes()).ok().ok_or("a text")?;
    Ok(text.replace(alloc, "\n", "/")?)
}

// The text and the answer, as the rows have them.
fn shown(alloc: Global, output: &MemSink, answer: &str) -> Result<String, Fail> {
    let text = text_of(alloc, output)?;
    Ok(format!(in alloc; "{text}; {answer}")?)
}

fn traced_in(alloc: Global, question: &str, room: u64) -> Result<String, Fail> {
    let (name, rest) = field(question)?;
    let (input, rest) = field(rest)?;
    let (word, failing) = field(rest)?;
    let mut output = sink_of(alloc, room, failing)?;
    let answer = traced(alloc, &program(alloc, name)?, input, word, &mut output)?;
    shown(alloc, &output, &answer)
}

fn traced_answer(alloc: Global, question: &str) -> Result<String, Fail> {
    traced_in(alloc, question, 1000)
}

#[test]
fn lines_of_turns(rt: HostRuntime) -> Result<(), Fail> {
    check(rt.alloc(), LINES, traced_answer)
}

#[test]
fn lines_until_a_sink_is_full(rt: HostRuntime) -> Result<(), Fail> {
    let text = traced_in(rt.alloc(), "pair; 1 1; seq; -", 20)?;
    same(&rt, text.as_str(), "0 0 ld r0 0/1 0 ld r; Err(WriteFault)");
    Ok(())
}

// A program, whether the lines of turns are written, and data; and what is written for its vectors.
const STREAMS: &str = "\
exchanged; without; 1 1|5 2/
exchanged; with; 1 1|0 0 ld r0 0/1 0 ld r1 1/2 0 add r2 r0 r1/3 0 mul r3 r1 4/4 0 add r4 r0 r3/5 0 st 2 r4/6 0 st 3 r2/5 2/
pair; without; 1 1|2 5/
pair; with; 1 1|0 0 ld r0 0/1 0 ld r1 1/2 0 add r2 r0 r1/3 0 mul r3 r1 4/4 0 add r4 r0 r3/5 0 st 2 r2/6 0 st 3 r4/2 5/
";

fn streamed(
    alloc: Global,
    program: &Program,
    lines: bool,
    source: &mut MemSource,
    output: &mut MemSink,
) -> Result<(), Fail>
    requires { Fits program.now }
{
    let mut vector = Vec::new(alloc);
    vector.resize(program.size as usize, 0)?;
    let schedule = schedule(alloc, "seq")?;
    let mut feed = Feed::new(alloc)?;
    let mut machine = machine_with(alloc, program, &vector)?;
    match schedule.stranger(machine.procs()) {
        None => {
            let result = run_stream(
                &mut machine,
                &schedule,
                lines,
                &mut feed,
                source,
                output,
                &mut vector,
            );
            match result {
                Ok(()) => Ok(()),
                Err(_) => Err(Fail::from("a fault")),
            }
        }
        Some(_) => Err(Fail::from("a stranger")),
    }
}

fn streamed_text(alloc: Global, program: &Program, lines: bool, data: &str) -> Result<String, Fail>
    requires { Fits program.now }
{
    let mut source = MemSource::new(data.as_bytes().to_vec(alloc)?, 4096, Vec::new(alloc));
    let mut output = MemSink::new(alloc, 1000, Vec::new(alloc))?;
    streamed(alloc, program, lines, &mut source, &mut output)?;
    text_of(alloc, &output)
}

fn streamed_answer(alloc: Global, question: &str) -> Result<String, Fail> {
    let (name, rest) = field(question)?;
    let (lines, data) = field(rest)?;
    streamed_text(alloc, &program(alloc, name)?, lines == "with", data)
}

// `run` and `trace` go through this call, on any program.
#[test]
fn streams_of_programs(rt: HostRuntime) -> Result<(), Fail> {
    check(rt.alloc(), STREAMS, streamed_answer)
}
