// Runs on the machine, of programs that are read from their listings.

ghost use Rattle.std.specs.Prelude.{◌≡◌, ◌<◌, ◌↔◌, All, IfOk, IsTrue, length};
ghost use Rattle.icode.specs.Program.{Fits, code_of};

use crate::programs::program;
use crate::same::{same, same_in};
use icode::action::Action;
use icode::program::Program;
use par_machine::{Machine, Turned};
use schedules::{Schedule, read_schedule};
use std::alloc::{AllocError, Global};
use std::fmt::Write;
use std::process::Abort;
use std::test::Fail;
use worked_rows::{check, field, number, numbers, write_number};

/// Whether the words are an input of the program.
pub(crate) fn is_input(program: &Program, words: &[u64]) -> bool
    ensures size { IsTrue result → length words.now ≡ program.now.size }
    ensures residues { IsTrue result → All (λ v. v < program.now.modulus) words.now }
{
    words.len() as u64 == program.size && words.iter().all(|v| *v < program.modulus)
}

/// The machine with this input.
pub(crate) fn machine_with(alloc: Global, program: &Program, input: &[u64]) -> Result<Machine, Fail>
    requires { Fits program.now }
    ensures { IfOk result (λ machine. machine.code ≡ code_of program.now) }
{
    if !is_input(program, input) {
        return Err(Fail::from("an input"));
    }
    let mut machine = Machine::new(alloc, program)?;
    machine.put(input);
    Ok(machine)
}

/// The schedule of the word.
pub(crate) fn schedule(alloc: Global, word: &str) -> Result<Schedule, Fail> {
    Ok(
        read_schedule(alloc, word.as_bytes())
            .ok()
            .ok_or("a schedule")?,
    )
}

// The turns of a list, each by the processor of its number, or of what is left of it.
fn take_turns(machine: &mut Machine, turns: &[u64])
    ensures { machine.new.code ≡ machine.old.code }
{
    for turn in turns {
        let proc = *turn % machine.procs();
        machine.turn(proc);
    }
}

// A run under the schedule of the word, to its end.
fn run(alloc: Global, machine: &mut Machine, word: &str) -> Result<(), Fail> {
    let schedule = schedule(alloc, word)?;
    match schedule.stranger(machine.procs()) {
        None => machine.run_list(&schedule),
        Some(_) => return Err(Fail::from("a stranger")),
    }
    machine.finish();
    Ok(())
}

// The words of the second array, and then the operations, loads and stores of each processor.
fn write_numbers(text: &mut String, machine: &Machine) -> Result<(), AllocError> {
    let size = machine.span() / 4;
    for place in size..2 * size {
        write_number(text, machine.word(place))?;
    }
    for proc in 0..machine.procs() {
        let counts = machine.counts(proc);
        write_number(text, counts.operations)?;
        write_number(text, counts.loads)?;
        write_number(text, counts.stores)?;
    }
    Ok(())
}

fn numbers_of(alloc: Global, machine: &Machine) -> Result<String, AllocError> {
    let mut text = String::new(alloc);
    write_numbers(&mut text, machine)?;
    Ok(text)
}

// A program, its input and a schedule; and the words of the second array, and the operations, loads and stores of each
// processor. No loop round nothing is walked.
const RUNS: &str = "\
pair; 1 1; seq|2 5 3 2 2
pair; 1 1; seed:1:1000000|2 5 3 2 2
exchanged; 1 1; seq|5 2 3 2 2
nested; 1 2 3 4; seq|0 0 0 0 0 0 0
nested; 1 2 3 4; turns:0,0|0 0 0 0 0 0 0
quad; 1 2 3 4; seq|10 7 15 6 6 4 4 6 4 4
quad; 1 2 3 4; rr:0|10 7 15 6 6 4 4 6 4 4
quad; 1 2 3 4; rr:3|10 7 15 6 6 4 4 6 4 4
quad; 1 2 3 4; rr:7|10 7 15 6 6 4 4 6 4 4
quad; 1 2 3 4; rr:20|10 7 15 6 6 4 4 6 4 4
quad; 1 2 3 4; seed:9:5|10 7 15 6 6 4 4 6 4 4
quad; 1 2 3 4; seed:1:100|10 7 15 6 6 4 4 6 4 4
quad; 1 2 3 4; seed:1:1000000|10 7 15 6 6 4 4 6 4 4
quad; 1 2 3 4; turns:1,1,1,1,1,1,1,1,1,0|10 7 15 6 6 4 4 6 4 4
tiled; 0 1 0 0 0 0 0 0 0 0 0 0 0 0 0 0; seq|1 3 9 10 13 5 15 11 16 14 8 7 4 12 2 6 44 24 24 44 24 24
tiled; 0 1 0 0 0 0 0 0 0 0 0 0 0 0 0 0; turns:1,1,1,0|1 3 9 10 13 5 15 11 16 14 8 7 4 12 2 6 44 24 24 44 24 24
tiled; 0 1 0 0 0 0 0 0 0 0 0 0 0 0 0 0; rr:5|1 3 9 10 13 5 15 11 16 14 8 7 4 12 2 6 44 24 24 44 24 24
tiled; 0 1 0 0 0 0 0 0 0 0 0 0 0 0 0 0; seed:9:1000|1 3 9 10 13 5 15 11 16 14 8 7 4 12 2 6 44 24 24 44 24 24
";

fn run_on(alloc: Global, program: &Program, input: &str, word: &str) -> Result<String, Fail>
    requires { Fits program.now }
{
    let mut machine = machine_with(alloc, program, &numbers(alloc, input)?)?;
    run(alloc, &mut machine, word)?;
    Ok(numbers_of(alloc, &machine)?)
}

fn run_named(alloc: Global, name: &str, input: &str, word: &str) -> Result<String, Fail> {
    run_on(alloc, &program(alloc, name)?, input, word)
}

fn run_answer(alloc: Global, question: &str) -> Result<String, Fail> {
    let (name, rest) = field(question)?;
    let (input, word) = field(rest)?;
    run_named(alloc, name, input, word)
}

#[test]
fn results_of_schedules(rt: HostRuntime) -> Result<(), Fail> {
    check(rt.alloc(), RUNS, run_answer)
}

fn write_turns(word: &mut String, proc: &str) -> Result<(), AllocError> {
    write!(word, "turns:{proc}")?;
    for _ in 1..65_536 {
        word.push_str(",")?;
        word.push_str(proc)?;
    }
    Ok(())
}

fn turns_of_one(rt: &impl Abort, alloc: Global, proc: &str) -> Result<(), Fail> {
    let mut word = String::new(alloc);
    write_turns(&mut word, proc)?;
    let answer = run_named(alloc, "quad", "1 2 3 4", &word)?;
    same(rt, answer.as_str(), "10 7 15 6 6 4 4 6 4 4");
    Ok(())
}

// 65,536 turns of one processor, named.
#[test]
fn as_many_turns_as_can_be_named(rt: HostRuntime) -> Result<(), Fail> {
    for proc in ["0", "1"] {
        turns_of_one(&rt, rt.alloc(), proc)?;
    }
    Ok(())
}

// What a run leaves of the input after these turns on another input.
fn put_after_on(alloc: Global, quad: &Program, turns: &[u64]) -> Result<String, Fail>
    requires { Fits quad.now }
{
    let mut machine = machine_with(alloc, quad, &[16, 5, 9, 7])?;
    take_turns(&mut machine, turns);
    let input = [1, 2, 3, 4];
    if !is_input(quad, &input) {
        return Err(Fail::from("an input"));
    }
    machine.put(&input);
    run(alloc, &mut machine, "seq")?;
    Ok(numbers_of(alloc, &machine)?)
}

fn put_after(alloc: Global, turns: &[u64]) -> Result<String, Fail> {
    put_after_on(alloc, &program(alloc, "quad")?, turns)
}

// Any five turns on another input may come before an input is put.
#[test]
fn put_after_turns(rt: HostRuntime) -> Result<(), Fail> {
    for turns in 0..32u64 {
        let procs = [
            turns & 1,
            turns >> 1 & 1,
            turns >> 2 & 1,
            turns >> 3 & 1,
            turns >> 4,
        ];
        let answer = put_after(rt.alloc(), &procs)?;
        same_in(&rt, answer.as_str(), "10 7 15 6 6 4 4 6 4 4", turns);
    }
    Ok(())
}

// A program, its input and the processors of some turns; and what each turn answers, the phases that are over, the words of
// the second array, and the counts.
const TURNS: &str = "\
pair; 1 1; 0 0 0 0 0 0 0 0|did did did did did did did done 1: 2 5 3 2 2
quad; 1 2 3 4; 1 1 1 1 1 1 1 1 1|did did did did did did did did waits 0: 0 0 0 0 0 0 0 4 2 2
nested; 1 2 3 4; 0 0|done done 1: 0 0 0 0 0 0 0
";

fn turn(machine: &mut Machine, proc: u64) -> &'static str
    ensures { machine.new.code ≡ machine.old.code }
{
    let proc = proc % machine.procs();
    match machine.turn(proc) {
        Turned::Did(_) => "did ",
        Turned::Waits => "waits ",
        Turned::Done => "done ",
    }
}

// What each turn answers, and then what is left.
fn write_answers(text: &mut String, machine: &mut Machine, procs: &str) -> Result<(), Fail> {
    for proc in procs.split(' ') {
        text.push_str(turn(machine, number(proc)?))?;
    }
    write!(text, "{}:", machine.phase())?;
    Ok(write_numbers(text, machine)?)
}

fn turns_on(alloc: Global, program: &Program, input: &str, procs: &str) -> Result<String, Fail>
    requires { Fits program.now }
{
    let mut machine = machine_with(alloc, program, &numbers(alloc, input)?)?;
    let mut text = String::new(alloc);
    write_answers(&mut text, &mut machine, procs)?;
    Ok(text)
}

fn turns_answer(alloc: Global, question: &str) -> Result<String, Fail> {
    let (name, rest) = field(question)?;
    let (input, procs) = field(rest)?;
    turns_on(alloc, &program(alloc, name)?, input, procs)
}

#[test]
fn answers_of_turns(rt: HostRuntime) -> Result<(), Fail> {
    check(rt.alloc(), TURNS, turns_answer)
}

fn actions_of(alloc: Global, program: &Program) -> Result<String, Fail>
    requires { Fits program.now }
{
    if program.phases.len() != 1 || program.procs != 1 {
        return Err(Fail::from("one phase and one processor"));
    }
    let mut text = String::new(alloc);
    for index in 0..program.len(0, 0) {
        let action = program.action_at(0, 0, index);
        write_action(&mut text, &action)?;
    }
    Ok(text)
}

// The program's words of memory, and its actions by number.
#[test]
fn actions_by_number(rt: HostRuntime) -> Result<(), Fail> {
    let pair = program(rt.alloc(), "pair")?;
    same(&rt, pair.span(), 8);
    let text = actions_of(rt.alloc(), &pair)?;
    let wanted = "ld 0 0, ld 1 1, add 2 0 1, mul 3 1 4, add 4 0 3, st 2 2, st 3 4, ";
    same(&rt, text.as_str(), wanted);
    Ok(())
}

// The action's word and numbers, on one lane.
fn write_action(text: &mut String, action: &Action) -> Result<(), AllocError> {
    match *action {
        Action::Load { register, address } => write!(text, "ld {register} {address}, "),
        Action::Store { address, register } => write!(text, "st {address} {register}, "),
        Action::Add {
            register,
            left,
            right,
        } => write!(text, "add {register} {left} {right}, "),
        Action::Mul {
            register,
            source,
            factors,
        } => write!(text, "mul {register} {source} {}, ", factors[0]),
        _ => write!(text, "another, "),
    }
}
