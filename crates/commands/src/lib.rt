//! The commands of a call, from the input to what they write: by a request, by a formula, by a listing and by a list.
#![tactic(auto)]

ghost use Rattle.std.specs.Prelude.{◌≡◌, ◌≢◌, ◌-◌, ◌≤◌, Bool, ℕ, List, [], true};
ghost use Rattle.std.specs.Io.KnownBytes.{Appends};
ghost use Rattle.io_edge.specs.Told.{IsOver};
ghost use Rattle.matrix_meaning.specs.Valid.{IsInRange};
ghost use Rattle.io_edge.specs.Faults.{Reports};
ghost use Rattle.io_edge.specs.Feed.{to_come, limit};
ghost use Rattle.commands.specs.Input.Commands.{reads_rest, NamesNoStranger};
ghost use Rattle.commands.specs.Input.Stage.{status_of};
ghost use Rattle.commands.specs.Input.Ends.{EndsCleanly};
ghost use Rattle.commands.specs.Input.Outcomes.{Meets, SourceMeets};
ghost use Rattle.commands.specs.Equations.Requests.{outcomes_by_request, work_for};

mod check;
mod convolutions;
mod data;
mod documents;
mod formulas;
mod input;
mod listings;
mod plans;
mod sample;
mod streams;

pub use convolutions::convolve;
use data::{run, trace};
use documents::text_of;
pub use formulas::by_formula;
use input::ask;
pub use input::asked;
use io_edge::{Feed, Sink, Source, write_all};
pub use listings::exec;
use matrix_meaning::Request;
use spiral_words::{Command, Document, RequestCommand, Status};
use std::alloc::Global;

// Writes the text of a document.
fn write_text<O: Sink>(
    alloc: Global,
    document: &Document,
    request: &Request,
    output: &mut O,
) -> Result<(), Status>
    requires in_range { IsInRange request.now }
    requires turns { NamesNoStranger (RequestCommand.Writes document.now) request.now.procs }
    ensures told { (room : ℕ) (bytes : List ℕ) (ended : Bool) →
        Meets (work_for (RequestCommand.Writes document.now) request.now room) bytes bytes ended
        (O.taken output.old) (O.taken output.new) (status_of result) }
    ensures read { status_of result ≢ Status.ReadFault }
    ensures usage { status_of result ≢ Status.Usage }
    ensures write { Reports (O.faults output.old) (O.faults output.new)
        (status_of result ≡ Status.WriteFault) }
    ensures memory { status_of result ≡ Status.NoMemory
        → Appends (O.taken output.old) (O.taken output.new) [] }
{
    let text = text_of(alloc, document, request)?;
    write_all(output, &text)?;
    Ok(())
}

// Does a command for the request.
fn perform_for<I: Source, O: Sink>(
    alloc: Global,
    command: &RequestCommand,
    request: &Request,
    feed: &mut Feed,
    input: &mut I,
    output: &mut O,
) -> Result<(), Status>
    requires in_range { IsInRange request.now }
    requires turns { NamesNoStranger command.now request.now.procs }
    requires line { feed.old.taken ≤ 257 }
    ensures told { SourceMeets (work_for command.now request.now (limit - feed.old.taken))
        (to_come feed.old (I.told input.old)) (to_come feed.new (I.told input.new))
        (O.taken output.old) (O.taken output.new) (status_of result) }
    ensures end { status_of result ≡ Status.Success
        → reads_rest (Command.ByRequest command.now) ≡ true
        → IsOver (to_come feed.new (I.told input.new)) }
    ensures ends { EndsCleanly (status_of result) feed.new.held
        (I.faults input.old) (I.faults input.new) (O.faults output.old) (O.faults output.new)
        (O.taken output.old) (O.taken output.new) }
{
    match command {
        RequestCommand::Writes(document) => write_text(alloc, document, request, output),
        RequestCommand::Runs(order) => run(alloc, request, order, feed, input, output),
        RequestCommand::Traces(order) => trace(alloc, request, order, feed, input, output),
        RequestCommand::Judges => check::check(alloc, request, feed, input, output),
    }
}

/// Does a command that goes by a request, which the first line of the input spells.
pub fn perform<I: Source, O: Sink>(
    alloc: Global,
    command: &RequestCommand,
    feed: &mut Feed,
    input: &mut I,
    output: &mut O,
) -> Result<(), Status>
    requires fresh { feed.old.taken ≡ 0 }
    ensures told { SourceMeets (outcomes_by_request command.now)
        (to_come feed.old (I.told input.old)) (to_come feed.new (I.told input.new))
        (O.taken output.old) (O.taken output.new) (status_of result) }
    ensures end { status_of result ≡ Status.Success
        → reads_rest (Command.ByRequest command.now) ≡ true
        → IsOver (to_come feed.new (I.told input.new)) }
    ensures ends { EndsCleanly (status_of result) feed.new.held
        (I.faults input.old) (I.faults input.new) (O.faults output.old) (O.faults output.new)
        (O.taken output.old) (O.taken output.new) }
{
    let request = ask(command, feed, input)?;
    perform_for(alloc, command, &request, feed, input, output)
}
