// The program of merged passes.
ghost use Rattle.std.specs.Prelude.{◌≡◌, ◌+◌, ◌^◌, ◌<◌, IfOk, OnOk, length};
ghost use Rattle.icode.specs.Plain as icode_plain;
ghost use Rattle.icode.specs.Program.{plain_program};
ghost use Rattle.code_gen.specs.PassCode.Contract.{Performs};
ghost use Rattle.code_gen.specs.PassCode.Program as program;
ghost use Rattle.sigma_spl.specs.Shared.Ready.{IsReady};
ghost use Rattle.sigma_spl.specs.Views.{plain_merged};
ghost use Rattle.code_gen.specs.Additions.{AddsTablesOfPasses, AddsTablesOfPhases};
ghost use Rattle.code_gen.specs.Bodies.{Appends};
ghost use Rattle.code_gen.specs.Conditions.{CanEmitAll, CanEmitPhases, machine_for};
ghost use Rattle.code_gen.specs.Sequences.{array_from, passes_from, phases_from};
ghost use Rattle.code_gen.specs.Sequences.{registers_of_passes, registers_of_phases};
ghost use Rattle.code_gen.specs.Views.{body_in, plain_host, plain_passes, plain_phases};

use crate::host::Host;
use crate::nest::emit_pass;
use crate::work::Emitted;
use icode::program::{Array, Program, Stmt};
use memory::NoMemory;
use ring_mod::Modulus;
use sigma_spl::{Merged, Nest};
use std::alloc::Global;

/// The statements of each phase, and how many registers they use.
#[derive(Drop)]
struct EmittedPhases {
    phases: Vec<Vec<Stmt>>,
    registers: u64,
}

/// Where passes in a row begin: the number of the first, which reads the source, and how many passes come after them.
#[derive(Clone, Copy)]
struct Start {
    number: u64,
    source: Array,
    after: u64,
}

// The array that a pass writes, where `after` passes come after it.
fn written_array(number: u64, after: u64) -> Array
    ensures { result ≡ program.written_array number after }
{
    if after == 0 {
        Array::Y
    } else if number % 2 == 0 {
        Array::A
    } else {
        Array::B
    }
}

// The array that the last of the passes writes, where there are any.
fn array_after(passes: &[Vec<Nest>], start: Start) -> Array
    requires few { start.number + (start.after + length passes.now) < 2 ^ 64 }
    ensures { result ≡ array_from start passes.now }
{
    match passes.split_first() {
        None => start.source,
        Some((_, rest)) => {
            let source = written_array(start.number, start.after + rest.len() as u64);
            let next = Start {
                number: start.number + 1,
                source,
                after: start.after,
            };
            array_after(rest, next)
        }
    }
}

// How many passes the phases have.
fn count_in(phases: &[Vec<Vec<Nest>>]) -> u64
    requires few { program.count_in (plain_phases phases.now) < 2 ^ 64 }
    ensures { result ≡ program.count_in (plain_phases phases.now) }
{
    match phases.split_first() {
        None => 0,
        Some((passes, rest)) => count_in(rest) + passes.len() as u64,
    }
}

// Appends the statements of passes in a row, and tells how many registers they use.
fn put_passes(
    alloc: Global,
    host: &Host,
    passes: &[Vec<Nest>],
    start: Start,
    tables: &mut Vec<Vec<u64>>,
    out: &mut Vec<Stmt>,
) -> Result<u64, NoMemory>
    requires can { CanEmitAll (plain_host host.now) (plain_passes passes.now) }
    requires few { start.number + (start.after + length passes.now) < 2 ^ 64 }
    ensures body { OnOk result (Appends out.old out.new
        (passes_from start host.now passes.now tables.old)) }
    ensures tables { OnOk result (AddsTablesOfPasses host.now passes.now tables.old tables.new) }
    ensures registers { IfOk result (λ used. used ≡ registers_of_passes host.now passes.now) }
{
    match passes.split_first() {
        None => Ok(0),
        Some((nests, rest)) => {
            let target = written_array(start.number, start.after + rest.len() as u64);
            let mut first = emit_pass(alloc, host, nests, start.source, target, tables)?;
            out.append(&mut first.statements)?;
            let next = Start {
                number: start.number + 1,
                source: target,
                after: start.after,
            };
            let more = put_passes(alloc, host, rest, next, tables, out)?;
            Ok(first.registers.max(more))
        }
    }
}

// The statements of passes in a row.
fn emit_passes(
    alloc: Global,
    host: &Host,
    passes: &[Vec<Nest>],
    start: Start,
    tables: &mut Vec<Vec<u64>>,
) -> Result<Emitted, NoMemory>
    requires can { CanEmitAll (plain_host host.now) (plain_passes passes.now) }
    requires few { start.number + (start.after + length passes.now) < 2 ^ 64 }
    ensures body { IfOk result (λ e. body_in e.statements
        ≡ passes_from start host.now passes.now tables.old) }
    ensures tables { OnOk result (AddsTablesOfPasses host.now passes.now tables.old tables.new) }
    ensures registers { IfOk result (λ e. e.registers ≡ registers_of_passes host.now passes.now) }
{
    let mut statements = Vec::new(alloc);
    let registers = put_passes(alloc, host, passes, start, tables, &mut statements)?;
    Ok(Emitted {
        statements,
        registers,
    })
}

// The statements of phases, where the first pass has this number and reads the source.
fn emit_phases(
    alloc: Global,
    host: &Host,
    phases: &[Vec<Vec<Nest>>],
    number: u64,
    source: Array,
    tables: &mut Vec<Vec<u64>>,
) -> Result<EmittedPhases, NoMemory>
    requires can { CanEmitPhases (plain_host host.now) (plain_phases phases.now) }
    requires few { number + program.count_in (plain_phases phases.now) < 2 ^ 64 }
    ensures phases { IfOk result (λ e. icode_plain.plain_phases e.phases.items
        ≡ phases_from number source host.now phases.now tables.old) }
    ensures tables { OnOk result (AddsTablesOfPhases host.now phases.now tables.old tables.new) }
    ensures registers { IfOk result (λ e. e.registers ≡ registers_of_phases host.now phases.now) }
{
    match phases.split_first() {
        None => Ok(EmittedPhases {
            phases: Vec::new(alloc),
            registers: 0,
        }),
        Some((passes, rest)) => {
            let start = Start {
                number,
                source,
                after: count_in(rest),
            };
            let first = emit_passes(alloc, host, passes, start, tables)?;
            let target = array_after(passes, start);
            let next = number + passes.len() as u64;
            let mut more = emit_phases(alloc, host, rest, next, target, tables)?;
            more.phases.insert(0, first.statements)?;
            Ok(EmittedPhases {
                phases: more.phases,
                registers: first.registers.max(more.registers),
            })
        }
    }
}

/// The program of merged passes, phase by phase, from X by way of A and B to Y, on residues of this modulus, where a
/// line has `line` words. It stands within the limits of programs, and its processors share no line in a phase; run to
/// its end, it leaves what the passes make of its input, in equal shares of what they count.
pub(crate) fn emit_on(
    alloc: Global,
    modulus: &Modulus,
    line: u64,
    merged: &Merged,
) -> Result<Program, NoMemory>
    requires { IsReady (machine_for modulus.now line (plain_merged merged.now))
        (plain_merged merged.now) }
    ensures code { IfOk result (λ p. let g = plain_merged merged.now in
        plain_program p ≡ program.program_of (machine_for modulus.now line g) g) }
    ensures performs { IfOk result (λ p. let g = plain_merged merged.now in
        Performs (machine_for modulus.now line g) g (plain_program p)) }
{
    let host = Host {
        size: merged.size,
        modulus: *modulus,
        procs: merged.procs,
        line,
        lanes: merged.lanes,
    };
    let mut tables = Vec::new(alloc);
    let emitted = emit_phases(alloc, &host, &merged.phases, 0, Array::X, &mut tables)?;
    Ok(Program {
        size: merged.size,
        modulus: modulus.get(),
        procs: merged.procs,
        line,
        lanes: merged.lanes,
        regs: emitted.registers,
        tables,
        phases: emitted.phases,
    })
}
