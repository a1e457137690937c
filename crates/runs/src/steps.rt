// The lines of a run.

ghost use Rattle.std.specs.Prelude.{◌≡◌, ◌<◌, ◌≤◌, OnErr, OnOk};
ghost use Rattle.icode.specs.Buffers.{proc_of};
ghost use Rattle.io_edge.specs.Faults.{HasCause};
ghost use Rattle.io_edge.specs.Taken.{WritesAll};
ghost use Rattle.buffer_machine.specs.Listed.{HasNoStranger, events_of};
ghost use Rattle.runs.specs.Course.{CompletionActs, PassesThrough};
ghost use Rattle.runs.specs.Faults.{FaultMet};
ghost use Rattle.runs.specs.Lines.{step_line, step_lines, trace_of};
ghost use Rattle.runs.specs.Standing.{completion_at, stepped};
ghost use Rattle.runs.specs.Walks.{completed, ended, finished_at, walked};

use crate::engine::Engine;
use buffer_machine::{Event, Events};
use io_edge::{Sink, WriteFault, write_all};

/// Does an event, and writes its line.
fn write_step<E: Engine, O: Sink>(
    machine: &mut E,
    number: u64,
    event: Event,
    output: &mut O,
) -> Result<(), WriteFault>
    requires proc { proc_of event < (E.code machine.old).procs }
    ensures bytes { WritesAll (O.taken output.old) (O.taken output.new) result
        (step_line (E.code machine.old) (E.stands machine.old) number event) }
    ensures cause { HasCause (O.faults output.old) (O.faults output.new) result }
    ensures stands { E.stands machine.new
        ≡ stepped (E.code machine.old) (E.stands machine.old) event }
    ensures code { E.code machine.new ≡ E.code machine.old }
{
    let line = machine.step(number, event);
    write_all(output, line.as_str().as_bytes())
}

/// Does the events, and writes the line of each before the next.
fn write_list<E: Engine, O: Sink>(
    machine: &mut E,
    events: Events,
    output: &mut O,
) -> Result<(), WriteFault>
    requires no_stranger { HasNoStranger events (E.code machine.old).procs }
    ensures bytes { WritesAll (O.taken output.old) (O.taken output.new) result
        (step_lines (E.code machine.old) (E.stands machine.old) 0
        (events_of events.entry (E.code machine.old).procs)) }
    ensures cause { HasCause (O.faults output.old) (O.faults output.new) result }
    ensures stands { OnOk result (E.stands machine.new
        ≡ walked (E.code machine.old) (E.stands machine.old)
        (events_of events.entry (E.code machine.old).procs)) }
    ensures way { PassesThrough (E.code machine.old) (E.stands machine.old)
        (events_of events.entry (E.code machine.old).procs) (E.stands machine.new) }
    ensures met { OnErr result (FaultMet (E.code machine.old) (E.stands machine.old) 0
        (events_of events.entry (E.code machine.old).procs)
        (E.stands machine.new) (O.taken output.old) (O.taken output.new)) }
    ensures code { E.code machine.new ≡ E.code machine.old }
{
    let procs = machine.count();
    for number in 0..events.len(procs) {
        let event = events.event_at(number, procs);
        write_step(machine, number, event, output)?;
    }
    Ok(())
}

/// Does the events that complete the run, and writes the line of each before the next. They are numbered from `first` on.
fn write_rest<E: Engine, O: Sink>(
    machine: &mut E,
    first: u64,
    output: &mut O,
) -> Result<(), WriteFault>
    requires first { first ≤ 16000000 }
    ensures bytes { WritesAll (O.taken output.old) (O.taken output.new) result
        (step_lines (E.code machine.old) (E.stands machine.old) first
        (completion_at (E.code machine.old) (E.stands machine.old))) }
    ensures cause { HasCause (O.faults output.old) (O.faults output.new) result }
    ensures stands { OnOk result (E.stands machine.new
        ≡ finished_at (E.code machine.old) (E.stands machine.old)) }
    ensures way { PassesThrough (E.code machine.old) (E.stands machine.old)
        (completion_at (E.code machine.old) (E.stands machine.old)) (E.stands machine.new) }
    ensures met { OnErr result (FaultMet (E.code machine.old) (E.stands machine.old) first
        (completion_at (E.code machine.old) (E.stands machine.old))
        (E.stands machine.new) (O.taken output.old) (O.taken output.new)) }
    ensures act { OnOk result (CompletionActs (E.code machine.old) (E.stands machine.old)) }
    ensures code { E.code machine.new ≡ E.code machine.old }
{
    let mut number = first;
    let mut next = machine.next_step();
    while let Some(event) = next {
        write_step(machine, number, event, output)?;
        number += 1;
        next = machine.next_step();
    }
    Ok(())
}

/// Does the events of a word and those that complete them, and writes the line of each before the next.
///
/// Events are numbered from 0. After a fault the output has the lines of some events and a front of the next one's,
/// and the machine stands right after that one.
pub fn write_steps<E: Engine, O: Sink>(
    machine: &mut E,
    events: Events,
    output: &mut O,
) -> Result<(), WriteFault>
    requires no_stranger { HasNoStranger events (E.code machine.old).procs }
    // The output took the lines of the run, or after a fault a prefix of them.
    ensures bytes { WritesAll (O.taken output.old) (O.taken output.new) result
        (trace_of (E.code machine.old) (E.stands machine.old)
        (events_of events.entry (E.code machine.old).procs)) }
    ensures cause { HasCause (O.faults output.old) (O.faults output.new) result }
    ensures stands { OnOk result (E.stands machine.new
        ≡ ended (E.code machine.old) (E.stands machine.old)
        (events_of events.entry (E.code machine.old).procs)) }
    ensures code { E.code machine.new ≡ E.code machine.old }
    // The machine has done a front of these events.
    ensures way { PassesThrough (E.code machine.old) (E.stands machine.old)
        (completed (E.code machine.old) (E.stands machine.old)
        (events_of events.entry (E.code machine.old).procs)) (E.stands machine.new) }
    // After a fault lines of events are written, then a front of a line, whose event is the last done.
    ensures met { OnErr result (FaultMet (E.code machine.old) (E.stands machine.old) 0
        (completed (E.code machine.old) (E.stands machine.old)
        (events_of events.entry (E.code machine.old).procs))
        (E.stands machine.new) (O.taken output.old) (O.taken output.new)) }
    // The lines of the completion are those of actions and of stores that were written.
    ensures act { OnOk result (CompletionActs (E.code machine.old)
        (walked (E.code machine.old) (E.stands machine.old)
        (events_of events.entry (E.code machine.old).procs))) }
{
    write_list(machine, events, output)?;
    let count = events.len(machine.count());
    write_rest(machine, count, output)
}
