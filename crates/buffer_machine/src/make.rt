// The parts of a new machine.

ghost use Rattle.std.specs.Prelude.{◌≡◌, ℕ, ◌*◌, ◌^◌, ◌<◌, ◌≤◌, replicate, IfOk};
ghost use Rattle.icode.specs.Buffers.{stores_among};
ghost use Rattle.icode.specs.Machine.{acts};
ghost use Rattle.icode.specs.Program.{code_of, Fits};
ghost use Rattle.buffer_machine.specs.Fresh.{empty_queue, zero_stand};
ghost use Rattle.buffer_machine.specs.Stand.{HasLens};

use crate::queue::Queue;
use crate::registers::Registers;
use crate::values::Values;
use icode::program::Program;
use icode::shape::Shape;
use memory::NoMemory;
use std::alloc::Global;

/// How many actions each processor has in each phase.
pub(crate) fn make_lens(alloc: Global, program: &Program) -> Result<Vec<u64>, NoMemory>
    requires { Fits program.now }
    ensures { IfOk result (λ lens. HasLens (code_of program.now) lens.items) }
{
    let mut lens = Vec::new(alloc);
    for phase in 0..program.phases.len() as u64 {
        let len = program.len(phase, 0);
        lens.push(len)?;
    }
    Ok(lens)
}

fn larger(a: u64, b: u64) -> u64
    ensures left { a ≤ result }
    ensures right { b ≤ result }
    ensures least { (m : ℕ) → a < m → b < m → result < m }
{
    if a < b { b } else { a }
}

/// The most stores that a processor makes in one phase.
pub(crate) fn most_stores(program: &Program) -> u64
    requires { Fits program.now }
    ensures each { (phase q : ℕ) → q < program.now.procs
        → stores_among (acts (code_of program.now) phase q) ≤ result }
    ensures few { result < 2 ^ 59 }
{
    let mut most = 0;
    for phase in 0..program.phases.len() as u64 {
        most = larger(most, program.stores(phase));
    }
    most
}

/// For each processor a queue with room for `most` stores.
pub(crate) fn make_queues(
    alloc: Global,
    procs: u64,
    most: u64,
    lanes: u64,
    span: u64,
) -> Result<Vec<Queue>, NoMemory>
    requires most { most < 2 ^ 59 }
    requires lanes { lanes ≤ 16 }
    ensures { IfOk result (λ queues. queues.items ≡ replicate procs (empty_queue lanes most span)) }
{
    let mut queues = Vec::new(alloc);
    while (queues.len() as u64) < procs {
        let queue = Queue::new(alloc, most, lanes, span)?;
        queues.push(queue)?;
    }
    Ok(queues)
}

/// The registers of all processors, all of whose words are 0.
pub(crate) fn make_registers(
    alloc: Global,
    procs: u64,
    count: u64,
) -> Result<Vec<Registers>, NoMemory>
    ensures { IfOk result (λ files. files.items ≡ replicate procs (replicate count 0)) }
{
    let mut files = Vec::new(alloc);
    while (files.len() as u64) < procs {
        let file = Registers::new(alloc, count)?;
        files.push(file)?;
    }
    Ok(files)
}

/// All words 0, no store that waits, and nothing done, in phase 0.
pub(crate) fn make_values(alloc: Global, shape: &Shape, most: u64) -> Result<Values, NoMemory>
    requires most { most < 2 ^ 59 }
    ensures { IfOk result (λ v. v ≡ zero_stand shape.now.room shape.now.procs
        (shape.now.regs * shape.now.lanes) shape.now.lanes most) }
{
    let memory = vec![in alloc; 0; (4 * shape.room) as usize]?;
    let registers = make_registers(alloc, shape.procs, shape.regs * shape.lanes)?;
    let queues = make_queues(alloc, shape.procs, most, shape.lanes, 4 * shape.room)?;
    let done = vec![in alloc; 0; shape.procs as usize]?;
    Ok(Values {
        memory,
        registers,
        queues,
        phase: 0,
        done,
    })
}
