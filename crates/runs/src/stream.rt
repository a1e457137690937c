// Runs over a stream: the lines of each vector.
ghost use Rattle.std.specs.Prelude.{◌≡◌, ◌≢◌, ◌<◌, ◌≤◌, [], length, All, Err, OnOk, IsErrOf};
ghost use Rattle.icode.specs.Machine.{words_at, padded};
ghost use Rattle.io_edge.specs.Faults.{HasCause, Reports};
ghost use Rattle.io_edge.specs.Feed.{to_come, limit};
ghost use Rattle.io_edge.specs.Taken.{WritesAll};
ghost use Rattle.buffer_machine.specs.Listed.{HasNoStranger, events_of};
ghost use Rattle.data_stream.specs.Vectors.{IsReady};
ghost use Rattle.runs.specs.Progress.{StreamsOn};
ghost use Rattle.runs.specs.Standing.{memory_at};
ghost use Rattle.runs.specs.Texts.{asked_lines, text_at};
ghost use Rattle.runs.specs.Walks.{ended};

use crate::engine::Engine;
use crate::steps::write_steps;
use buffer_machine::Events;
use data_stream::{DataFault, Next, Vectors, write_vector};
use io_edge::{Feed, Sink, Source, WriteFault};
use thiserror::Error;

/// Why a run over a stream ended before the stream.
#[derive(Clone, Copy, Debug, PartialEq, Eq, Error)]
pub enum StreamFault {
    /// The first token that is no number. Tokens are counted from 1.
    #[error("token {token} is not a number")]
    BadNumber { token: u64 },
    /// The data end inside a vector.
    #[error("input ends with {have} of {need} numbers")]
    Truncated { have: u64, need: u64 },
    /// The input has more bytes than a feed gives.
    #[error("the input is too long")]
    TooLong,
    /// The source failed.
    #[error("read failed")]
    ReadFault,
    /// The sink failed.
    #[error("write failed")]
    WriteFault,
}

impl From<DataFault> for StreamFault {
    ghost use Rattle.std.specs.Prelude.{◌≡◌};
    ghost use Rattle.runs.specs.StreamFault.{stream_fault};

    ghost from_gives = { λ fault own. own ≡ stream_fault fault };

    fn from(fault: DataFault) -> Self {
        match fault {
            DataFault::BadNumber { token } => StreamFault::BadNumber { token },
            DataFault::Truncated { have, need } => StreamFault::Truncated { have, need },
            DataFault::TooLong => StreamFault::TooLong,
            DataFault::ReadFault => StreamFault::ReadFault,
        }
    }
}

impl From<WriteFault> for StreamFault {
    ghost use Rattle.std.specs.Prelude.{◌≡◌};
    ghost use Rattle.runs.specs.declared.stream.StreamFault.TheVariants.{WriteFault};

    ghost from_gives = { λ _ own. own ≡ WriteFault };

    fn from(_: WriteFault) -> Self {
        StreamFault::WriteFault
    }
}

// Puts the words of the machine's second array into the slice.
pub(crate) fn take_results<E: Engine>(machine: &E, vector: &mut [u64])
    requires size { length vector.old ≡ (E.code machine.now).size }
    ensures { vector.new ≡ words_at (E.code machine.now).size (memory_at (E.stands machine.now))
        (padded (E.code machine.now)) }
{
    let first = machine.words() / 4;
    prove!(machine.words() == 4 * first);
    for place in 0..vector.len() {
        vector[place] = machine.word_at(first + place as u64);
    }
}

// Does the events and those that complete them, and writes a line of each where lines are asked for.
fn take_steps<E: Engine, O: Sink>(
    machine: &mut E,
    events: Events,
    lines: bool,
    output: &mut O,
) -> Result<(), WriteFault>
    requires no_stranger { HasNoStranger events (E.code machine.old).procs }
    ensures bytes { WritesAll (O.taken output.old) (O.taken output.new) result
        (asked_lines lines (E.code machine.old) (E.stands machine.old)
        (events_of events.entry (E.code machine.old).procs)) }
    ensures cause { HasCause (O.faults output.old) (O.faults output.new) result }
    ensures stands { OnOk result (E.stands machine.new
        ≡ ended (E.code machine.old) (E.stands machine.old)
        (events_of events.entry (E.code machine.old).procs)) }
    ensures code { E.code machine.new ≡ E.code machine.old }
{
    if lines {
        return write_steps(machine, events, output);
    }
    machine.play(events);
    machine.complete();
    Ok(())
}

// Runs the machine on the vector, writes a line of each event where lines are asked for, and then the line of the results,
// which it puts in the vector's place.
fn write_run<E: Engine, O: Sink>(
    machine: &mut E,
    events: Events,
    lines: bool,
    output: &mut O,
    vector: &mut [u64],
) -> Result<(), WriteFault>
    requires size { length vector.old ≡ (E.code machine.old).size }
    requires residues { All (λ v. v < (E.code machine.old).modulus) vector.old }
    requires no_stranger { HasNoStranger events (E.code machine.old).procs }
    ensures bytes { WritesAll (O.taken output.old) (O.taken output.new) result
        (text_at lines (E.code machine.old) (E.begun (E.code machine.old) vector.old)
        (events_of events.entry (E.code machine.old).procs)) }
    ensures cause { HasCause (O.faults output.old) (O.faults output.new) result }
    ensures stands { OnOk result (E.stands machine.new
        ≡ ended (E.code machine.old) (E.begun (E.code machine.old) vector.old)
        (events_of events.entry (E.code machine.old).procs)) }
    ensures code { E.code machine.new ≡ E.code machine.old }
{
    machine.begin(vector);
    take_steps(machine, events, lines, output)?;
    take_results(machine, vector);
    write_vector(output, vector)
}

/// Runs the machine on each vector of the data, by the events and those that complete them, and writes the line of its
/// results before it reads the next. Where lines are asked for, one for each event comes before it.
///
/// It goes on where the feed stands, after vectors that were read before: tokens are counted from where these began. A feed
/// that has gone over its limit gives `TooLong`. The slice is room for a vector, which has at least one number.
pub(crate) fn stream<E: Engine, I: Source, O: Sink>(
    machine: &mut E,
    events: Events,
    lines: bool,
    vectors: &mut Vectors,
    feed: &mut Feed,
    input: &mut I,
    output: &mut O,
    vector: &mut [u64],
) -> Result<(), StreamFault>
    requires some { 0 < vectors.old.size }
    requires cut { vectors.old.size ≡ (E.code machine.old).size }
    requires size { length vector.old ≡ (E.code machine.old).size }
    requires no_stranger { HasNoStranger events (E.code machine.old).procs }
    requires ready { IsReady vectors.old feed.old (to_come feed.old (I.told input.old)) }

    // What it read, wrote and left, also of a source that doesn't tell its bytes.
    ensures streams { StreamsOn
        (λ x. text_at lines (E.code machine.old) (E.begun (E.code machine.old) x)
        (events_of events.entry (E.code machine.old).procs))
        (λ x. ended (E.code machine.old) (E.begun (E.code machine.old) x)
        (events_of events.entry (E.code machine.old).procs))
        (E.code machine.old).modulus vectors.old feed.old feed.new
        (to_come feed.old (I.told input.old)) (to_come feed.new (I.told input.new))
        (O.taken output.old) (O.taken output.new)
        (E.stands machine.old) (E.stands machine.new) result }
    ensures code { E.code machine.new ≡ E.code machine.old }
    ensures within { result ≢ Err StreamFault.TooLong → feed.new.taken ≤ limit }
    ensures empty { IsErrOf result StreamFault.ReadFault → feed.new.held ≡ [] }

    // A fault has its cause, and is not swallowed.
    ensures read { Reports (I.faults input.old) (I.faults input.new)
        (IsErrOf result StreamFault.ReadFault) }
    ensures write { Reports (O.faults output.old) (O.faults output.new)
        (IsErrOf result StreamFault.WriteFault) }
{
    let modulus = machine.ring();
    while let Next::Vector = vectors.next(&modulus, feed, input, vector)? {
        write_run(machine, events, lines, output, vector)?;
    }
    Ok(())
}
