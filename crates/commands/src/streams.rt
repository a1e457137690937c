// Runs of a program over the vectors of the data, by the machine that the order asks for.
ghost use Rattle.std.specs.Prelude.{◌≡◌, ◌-◌, ◌≤◌, None};
ghost use Rattle.io_edge.specs.Told.{IsOver};
ghost use Rattle.icode.specs.Program.{Fits};
ghost use Rattle.io_edge.specs.Feed.{to_come, limit};
ghost use Rattle.buffer_machine.specs.Listed as listed;
ghost use Rattle.commands.specs.Input.Commands.{first_stranger};
ghost use Rattle.commands.specs.Input.Orders.{procs_in};
ghost use Rattle.commands.specs.Input.Stage.{status_of};
ghost use Rattle.commands.specs.Input.Ends.{EndsCleanly};
ghost use Rattle.commands.specs.Input.Outcomes.{SourceMeets};
ghost use Rattle.commands.specs.OrderText.{order_of};
ghost use Rattle.commands.specs.Prepared.{stream_work};
ghost use Rattle.runs.specs.Stream.{HasNoStranger};

use buffer_machine::{BufMachine, Events};
use icode::program::Program;
use io_edge::{Feed, Sink, Source, write_all};
use par_machine::Machine;
use runs::{run_buffered, run_stream};
use schedules::Schedule;
use spiral_words::{Order, Status};
use std::alloc::Global;

/// A program to run over the data.
#[derive(Drop)]
pub(crate) struct Prepared {
    pub(crate) program: Program,
    /// What is written before the runs.
    pub(crate) front: Vec<u8>,
    /// Whether each run has lines of its turns and drains.
    pub(crate) lines: bool,
}

/// Writes the front, and then the text of each vector's run in the order.
pub(crate) fn stream<I: Source, O: Sink>(
    alloc: Global,
    made: &Prepared,
    order: &Order,
    feed: &mut Feed,
    input: &mut I,
    output: &mut O,
) -> Result<(), Status>
    requires fits { Fits made.now.program }
    requires turns { first_stranger (procs_in order.now) made.now.program.procs ≡ None }
    requires within { feed.old.taken ≤ limit }
    ensures told { SourceMeets (stream_work made.now order.now (limit - feed.old.taken))
        (to_come feed.old (I.told input.old)) (to_come feed.new (I.told input.new))
        (O.taken output.old) (O.taken output.new) (status_of result) }
    ensures end { status_of result ≡ Status.Success
        → IsOver (to_come feed.new (I.told input.new)) }
    ensures ends { EndsCleanly (status_of result) feed.new.held
        (I.faults input.old) (I.faults input.new) (O.faults output.old) (O.faults output.new)
        (O.taken output.old) (O.taken output.new) }
{
    match order {
        Order::Turns(schedule) => stream_turns(alloc, made, schedule, feed, input, output),
        Order::Buffered(schedule) => {
            stream_events(alloc, made, Events::Turns(schedule), feed, input, output)
        }
        Order::Mixed(mix) => stream_events(alloc, made, Events::Mixed(mix), feed, input, output),
    }
}

/// The same on the machine without store buffers.
pub(crate) fn stream_turns<I: Source, O: Sink>(
    alloc: Global,
    made: &Prepared,
    schedule: &Schedule,
    feed: &mut Feed,
    input: &mut I,
    output: &mut O,
) -> Result<(), Status>
    requires fits { Fits made.now.program }
    requires turns { HasNoStranger schedule.now made.now.program.procs }
    requires within { feed.old.taken ≤ limit }
    ensures told { SourceMeets
        (stream_work made.now (Order.Turns schedule.now) (limit - feed.old.taken))
        (to_come feed.old (I.told input.old)) (to_come feed.new (I.told input.new))
        (O.taken output.old) (O.taken output.new) (status_of result) }
    ensures end { status_of result ≡ Status.Success
        → IsOver (to_come feed.new (I.told input.new)) }
    ensures ends { EndsCleanly (status_of result) feed.new.held
        (I.faults input.old) (I.faults input.new) (O.faults output.old) (O.faults output.new)
        (O.taken output.old) (O.taken output.new) }
{
    let mut machine = Machine::new(alloc, &made.program)?;
    let mut vector = vec![in alloc; 0; made.program.size as usize]?;
    write_all(output, &made.front)?;
    run_stream(
        &mut machine,
        schedule,
        made.lines,
        feed,
        input,
        output,
        &mut vector,
    )?;
    Ok(())
}

// The same on the machine with store buffers.
fn stream_events<I: Source, O: Sink>(
    alloc: Global,
    made: &Prepared,
    events: Events,
    feed: &mut Feed,
    input: &mut I,
    output: &mut O,
) -> Result<(), Status>
    requires fits { Fits made.now.program }
    requires turns { listed.HasNoStranger events made.now.program.procs }
    requires within { feed.old.taken ≤ limit }
    ensures told { SourceMeets
        (stream_work made.now (order_of events.entry) (limit - feed.old.taken))
        (to_come feed.old (I.told input.old)) (to_come feed.new (I.told input.new))
        (O.taken output.old) (O.taken output.new) (status_of result) }
    ensures end { status_of result ≡ Status.Success
        → IsOver (to_come feed.new (I.told input.new)) }
    ensures ends { EndsCleanly (status_of result) feed.new.held
        (I.faults input.old) (I.faults input.new) (O.faults output.old) (O.faults output.new)
        (O.taken output.old) (O.taken output.new) }
{
    let mut machine = BufMachine::new(alloc, &made.program)?;
    let mut vector = vec![in alloc; 0; made.program.size as usize]?;
    write_all(output, &made.front)?;
    run_buffered(
        &mut machine,
        events,
        made.lines,
        feed,
        input,
        output,
        &mut vector,
    )?;
    Ok(())
}
