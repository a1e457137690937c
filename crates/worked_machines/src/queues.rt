// Runs on the machine with store buffers.

ghost use Rattle.std.specs.Prelude.{◌≡◌, ◌<◌, IfOk};
ghost use Rattle.icode.specs.Program.{Fits, code_of};

use crate::machines::is_input;
use crate::programs::{program, sharing_program};
use crate::same::same_in;
use buffer_machine::{BufMachine, Drained, Event, Turned};
use icode::program::Program;
use schedules::{Mix, read_mix};
use std::alloc::{AllocError, Global};
use std::fmt::Write;
use std::test::Fail;
use worked_rows::{check, field, numbers, write_number};

fn machine_with(alloc: Global, program: &Program, input: &[u64]) -> Result<BufMachine, Fail>
    requires { Fits program.now }
    ensures { IfOk result (λ machine. machine.code ≡ code_of program.now) }
{
    if !is_input(program, input) {
        return Err(Fail::from("an input"));
    }
    let mut machine = BufMachine::new(alloc, program)?;
    machine.put(input);
    Ok(machine)
}

// What the machine answers to an event.
fn write_answer(text: &mut String, machine: &mut BufMachine, event: Event) -> Result<(), Fail> {
    let procs = machine.procs();
    match event {
        Event::Turn(proc) if proc < procs => match machine.turn(proc) {
            Turned::Did(_) => text.push_str("did ")?,
            Turned::Waits => text.push_str("waits ")?,
            Turned::Done => text.push_str("done ")?,
        },
        Event::Drain(proc) if proc < procs => match machine.drain(proc) {
            Drained::Wrote(address) => write!(text, "wrote {address} ")?,
            Drained::Empty => text.push_str("empty ")?,
        },
        _ => return Err(Fail::from("a stranger")),
    }
    Ok(())
}

// The words of the second array, where the machine's memory has no gaps between its arrays.
fn write_results(text: &mut String, machine: &BufMachine) -> Result<(), AllocError> {
    let size = machine.span() / 4;
    for place in size..2 * size {
        write_number(text, machine.word(place))?;
    }
    Ok(())
}

// What the machine answers to the events, what is left, and what the completion leaves.
fn write_run(text: &mut String, machine: &mut BufMachine, mix: &Mix) -> Result<(), Fail> {
    for place in 0..mix.len() {
        write_answer(text, machine, mix.event_at(place))?;
    }
    write!(text, "{} {:?}:", machine.phase(), machine.next_event())?;
    write_results(text, machine)?;
    machine.finish();
    text.push_str(",")?;
    Ok(write_results(text, machine)?)
}

// A program, its input, and turns and drains; and what the machine answers, the phases that are over, the event that
// completes the run next, the words of the second array, and those after the completion.
const MIXES: &str = "\
pair; 1 1; mix:d0|empty 0 Some(Turn(0)): 0 0, 2 5
pair; 1 1; mix:t0,t0,t0,t0,t0,t0,t0,t0|did did did did did did did waits 0 Some(Drain(0)): 0 0, 2 5
pair; 1 1; mix:t0,t0,t0,t0,t0,t0,t0,d0|did did did did did did did wrote 2 0 Some(Drain(0)): 2 0, 2 5
pair; 1 1; mix:t0,t0,t0,t0,t0,t0,t0,t0,d0,d0|did did did did did did did waits wrote 2 wrote 3 1 None: 2 5, 2 5
pair; 1 1; mix:t0,t0,t0,t0,t0,t0,t0,d0,d0,t0,d0|did did did did did did did wrote 2 wrote 3 done empty 1 None: 2 5, 2 5
quad; 1 2 3 4; mix:d0|empty 0 Some(Turn(0)): 0 0 0 0, 10 7 15 6
quad; 1 2 3 4; mix:t1,d0,t0,d1|did empty did empty 0 Some(Turn(0)): 0 0 0 0, 10 7 15 6
";

fn mix_on(alloc: Global, program: &Program, input: &str, word: &str) -> Result<String, Fail>
    requires { Fits program.now }
{
    let mut machine = machine_with(alloc, program, &numbers(alloc, input)?)?;
    let mix = read_mix(alloc, word.as_bytes()).ok().ok_or("a mix")?;
    let mut text = String::new(alloc);
    write_run(&mut text, &mut machine, &mix)?;
    Ok(text)
}

fn mix_answer(alloc: Global, question: &str) -> Result<String, Fail> {
    let (name, rest) = field(question)?;
    let (input, word) = field(rest)?;
    let program = program(alloc, name)?;
    mix_on(alloc, &program, input, word)
}

#[test]
fn turns_and_drains(rt: HostRuntime) -> Result<(), Fail> {
    check(rt.alloc(), MIXES, mix_answer)
}

// The same of programs that share a line: what is left depends on the events, also where only the drains differ, and where
// each load comes before the store that it would see is written.
const SHARED: &str = "\
raced; 1 2; mix:t0,t0,t1,t1,d0,d1|did did did did wrote 2 wrote 2 1 None: 2 0, 2 0
raced; 1 2; mix:t0,t0,t1,t1,d1,d0|did did did did wrote 2 wrote 2 1 None: 1 0, 1 0
flags; 1 2; mix:t0,t0,d0,t1,t1,d1,t0,t1|did did wrote 4 did did wrote 5 did did 0 Some(Turn(0)): 0 0, 2 1
flags; 1 2; mix:t0,t0,d0,t1,t1,t0,t1|did did wrote 4 did did did did 0 Some(Turn(0)): 0 0, 0 1
flags; 1 2; mix:t0,t0,t0,t1,t1,t1|did did did did did did 0 Some(Turn(0)): 0 0, 0 0
";

fn shared_answer(alloc: Global, question: &str) -> Result<String, Fail> {
    let (name, rest) = field(question)?;
    let (input, word) = field(rest)?;
    let program = sharing_program(alloc, name)?;
    mix_on(alloc, &program, input, word)
}

#[test]
fn turns_and_drains_of_shared_lines(rt: HostRuntime) -> Result<(), Fail> {
    check(rt.alloc(), SHARED, shared_answer)
}

fn write_mix(word: &mut String, rounds: u64) -> Result<(), AllocError> {
    word.push_str("mix:")?;
    for i in 0..rounds {
        word.push_str(if i == 0 { "t1" } else { ",t1" })?;
        if i % 3 == 0 {
            word.push_str(",d0,t0")?;
        }
        if i % 5 == 4 {
            word.push_str(",d1")?;
        }
    }
    Ok(())
}

fn mix_of(alloc: Global, rounds: u64) -> Result<String, AllocError> {
    let mut word = String::new(alloc);
    write_mix(&mut word, rounds)?;
    Ok(word)
}

fn mixed(alloc: Global, rounds: u64) -> Result<String, Fail> {
    let quad = program(alloc, "quad")?;
    mix_on(alloc, &quad, "1 2 3 4", &mix_of(alloc, rounds)?)
}

// The result does not depend on the turns and drains before the completion.
#[test]
fn results_of_mixes(rt: HostRuntime) -> Result<(), Fail> {
    for rounds in 1..40u64 {
        let answer = mixed(rt.alloc(), rounds)?;
        same_in(&rt, answer.as_str().ends_with(", 10 7 15 6"), true, rounds);
    }
    Ok(())
}
