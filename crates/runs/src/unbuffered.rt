// Runs over a stream, without store buffers.
ghost use Rattle.std.specs.Prelude.{◌≡◌, ◌≢◌, ◌<◌, ◌≤◌, [], length, All, Err, IsErrOf};
ghost use Rattle.icode.specs.Machine.{results, runs};
ghost use Rattle.io_edge.specs.Faults.{Reports};
ghost use Rattle.io_edge.specs.Feed.{to_come, limit};
ghost use Rattle.schedules.specs.Turns.{turns_of};
ghost use Rattle.data_stream.specs.Vectors.{IsReady};
ghost use Rattle.runs.specs.Progress.{StreamsOn};
ghost use Rattle.runs.specs.Stream.{HasNoStranger, Streams};
ghost use Rattle.runs.specs.Texts.{run_text};

use crate::stream::{StreamFault, stream, take_results};
use buffer_machine::Events;
use data_stream::Vectors;
use io_edge::{Feed, Sink, Source};
use par_machine::Machine;
use schedules::Schedule;

/// Runs the machine on the vector, and puts the results in its place.
pub fn transform(machine: &mut Machine, schedule: &Schedule, vector: &mut [u64])
    requires size { length vector.old ≡ machine.old.code.size }
    requires residues { All (λ v. v < machine.old.code.modulus) vector.old }
    requires no_stranger { HasNoStranger schedule.now machine.old.code.procs }
    ensures vector { vector.new
        ≡ results machine.old.code vector.old (turns_of schedule.now machine.old.code.procs) }
    ensures state { machine.new.state
        ≡ runs machine.old.code vector.old (turns_of schedule.now machine.old.code.procs) }
    ensures code { machine.new.code ≡ machine.old.code }
{
    machine.put(vector);
    machine.run_list(schedule);
    machine.finish();
    take_results(machine, vector);
}

/// Runs the machine on each vector of the data, by the turns of the schedule and those that complete them, and writes
/// the line of its results before it reads the next. Where lines are asked for, one for each turn comes before it.
///
/// The data go on where the feed stands. One that has gone over its limit gives `TooLong`. The slice is room for a vector.
pub fn run_stream<I: Source, O: Sink>(
    machine: &mut Machine,
    schedule: &Schedule,
    lines: bool,
    feed: &mut Feed,
    input: &mut I,
    output: &mut O,
    vector: &mut [u64],
) -> Result<(), StreamFault>
    requires size { length vector.old ≡ machine.old.code.size }
    requires no_stranger { HasNoStranger schedule.now machine.old.code.procs }

    // What it read, wrote and left, also of a source that doesn't tell its bytes.
    ensures streams { Streams
        (run_text lines machine.old.code (turns_of schedule.now machine.old.code.procs))
        (λ x. runs machine.old.code x (turns_of schedule.now machine.old.code.procs))
        machine.old.code.size machine.old.code.modulus feed.old feed.new
        (to_come feed.old (I.told input.old)) (to_come feed.new (I.told input.new))
        (O.taken output.old) (O.taken output.new) machine.old.state machine.new.state result }
    ensures code { machine.new.code ≡ machine.old.code }
    ensures within { result ≢ Err StreamFault.TooLong → feed.new.taken ≤ limit }
    ensures empty { IsErrOf result StreamFault.ReadFault → feed.new.held ≡ [] }

    // A fault has its cause, and is not swallowed.
    ensures read { Reports (I.faults input.old) (I.faults input.new)
        (IsErrOf result StreamFault.ReadFault) }
    ensures write { Reports (O.faults output.old) (O.faults output.new)
        (IsErrOf result StreamFault.WriteFault) }
{
    let mut vectors = Vectors::new(machine.size());
    run_vectors(
        machine,
        schedule,
        lines,
        &mut vectors,
        feed,
        input,
        output,
        vector,
    )
}

/// Goes on as `run_stream` does, after vectors that were read before: tokens are counted from where these began. The slice
/// is room for a vector, which has at least one number.
pub fn run_vectors<I: Source, O: Sink>(
    machine: &mut Machine,
    schedule: &Schedule,
    lines: bool,
    vectors: &mut Vectors,
    feed: &mut Feed,
    input: &mut I,
    output: &mut O,
    vector: &mut [u64],
) -> Result<(), StreamFault>
    requires some { 0 < vectors.old.size }
    requires cut { vectors.old.size ≡ machine.old.code.size }
    requires size { length vector.old ≡ machine.old.code.size }
    requires no_stranger { HasNoStranger schedule.now machine.old.code.procs }
    requires ready { IsReady vectors.old feed.old (to_come feed.old (I.told input.old)) }

    // What it read, wrote and left, also of a source that doesn't tell its bytes.
    ensures streams { StreamsOn
        (run_text lines machine.old.code (turns_of schedule.now machine.old.code.procs))
        (λ x. runs machine.old.code x (turns_of schedule.now machine.old.code.procs))
        machine.old.code.modulus vectors.old feed.old feed.new
        (to_come feed.old (I.told input.old)) (to_come feed.new (I.told input.new))
        (O.taken output.old) (O.taken output.new) machine.old.state machine.new.state result }
    ensures code { machine.new.code ≡ machine.old.code }
    ensures within { result ≢ Err StreamFault.TooLong → feed.new.taken ≤ limit }
    ensures empty { IsErrOf result StreamFault.ReadFault → feed.new.held ≡ [] }

    // A fault has its cause, and is not swallowed.
    ensures read { Reports (I.faults input.old) (I.faults input.new)
        (IsErrOf result StreamFault.ReadFault) }
    ensures write { Reports (O.faults output.old) (O.faults output.new)
        (IsErrOf result StreamFault.WriteFault) }
{
    stream(
        machine,
        Events::Turns(schedule),
        lines,
        vectors,
        feed,
        input,
        output,
        vector,
    )
}
