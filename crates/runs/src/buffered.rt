// A run over a stream with store buffers.
ghost use Rattle.std.specs.Prelude.{◌≡◌, ◌≢◌, ◌<◌, ◌≤◌, [], length, Err, IsErrOf};
ghost use Rattle.icode.specs.Buffers.{buffered_runs};
ghost use Rattle.io_edge.specs.Faults.{Reports};
ghost use Rattle.io_edge.specs.Feed.{to_come, limit};
ghost use Rattle.buffer_machine.specs.Listed.{HasNoStranger, events_of};
ghost use Rattle.runs.specs.Stream.{Streams};
ghost use Rattle.runs.specs.Texts.{buffered_text};

use crate::stream::{StreamFault, stream};
use buffer_machine::{BufMachine, Events};
use data_stream::Vectors;
use io_edge::{Feed, Sink, Source};

/// Runs the machine on each vector of the data, by the events and those that complete them, and writes the line of its
/// results before it reads the next. Where lines are asked for, one for each event comes before it.
///
/// The data go on where the feed stands. One that has gone over its limit gives `TooLong`. The slice is room for a vector,
/// which has at least one number.
pub fn run_buffered<I: Source, O: Sink>(
    machine: &mut BufMachine,
    events: Events,
    lines: bool,
    feed: &mut Feed,
    input: &mut I,
    output: &mut O,
    vector: &mut [u64],
) -> Result<(), StreamFault>
    requires some { 0 < length vector.old }
    requires size { length vector.old ≡ machine.old.code.size }
    requires no_stranger { HasNoStranger events machine.old.code.procs }

    // What it read, wrote and left, also of a source that doesn't tell its bytes.
    ensures streams { Streams
        (buffered_text lines machine.old.code (events_of events.entry machine.old.code.procs))
        (λ x. buffered_runs machine.old.code x (events_of events.entry machine.old.code.procs))
        machine.old.code.size machine.old.code.modulus feed.old feed.new
        (to_come feed.old (I.told input.old)) (to_come feed.new (I.told input.new))
        (O.taken output.old) (O.taken output.new) machine.old.state machine.new.state result }
    ensures code { machine.new.code ≡ machine.old.code }
    ensures within { result ≢ Err StreamFault.TooLong → feed.new.taken ≤ limit }
    ensures empty { IsErrOf result StreamFault.ReadFault → feed.new.held ≡ [] }

    // A fault has its cause, and is not swallowed.
    ensures read { Reports (I.faults input.old) (I.faults input.new)
        (IsErrOf result StreamFault.ReadFault) }
    ensures write { Reports (O.faults output.old) (O.faults output.new)
        (IsErrOf result StreamFault.WriteFault) }
{
    let mut vectors = Vectors::new(vector.len() as u64);
    stream(
        machine,
        events,
        lines,
        &mut vectors,
        feed,
        input,
        output,
        vector,
    )
}
