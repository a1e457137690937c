// The commands for a request that go over the vectors of the data.
ghost use Rattle.std.specs.Prelude.{◌≡◌, ◌-◌, ◌≤◌};
ghost use Rattle.io_edge.specs.Told.{IsOver};
ghost use Rattle.matrix_meaning.specs.Valid.{IsInRange};
ghost use Rattle.io_edge.specs.Feed.{to_come, limit};
ghost use Rattle.commands.specs.Input.Commands.{NamesNoStranger};
ghost use Rattle.commands.specs.Input.Stage.{status_of};
ghost use Rattle.commands.specs.Input.Ends.{EndsCleanly};
ghost use Rattle.commands.specs.Input.Outcomes.{SourceMeets};
ghost use Rattle.commands.specs.Equations.Requests.{work_for};

use crate::documents::good_program;
use crate::streams::{Prepared, stream};
use io_edge::{Feed, Sink, Source};
use listing_text::print_listing;
use matrix_meaning::Request;
use spiral_words::{Order, RequestCommand, Status};
use std::alloc::Global;

/// Writes the line of each vector's transform.
pub(crate) fn run<I: Source, O: Sink>(
    alloc: Global,
    request: &Request,
    order: &Order,
    feed: &mut Feed,
    input: &mut I,
    output: &mut O,
) -> Result<(), Status>
    requires in_range { IsInRange request.now }
    requires turns { NamesNoStranger (RequestCommand.Runs order.now) request.now.procs }
    requires within { feed.old.taken ≤ limit }
    ensures told { SourceMeets
        (work_for (RequestCommand.Runs order.now) request.now (limit - feed.old.taken))
        (to_come feed.old (I.told input.old)) (to_come feed.new (I.told input.new))
        (O.taken output.old) (O.taken output.new) (status_of result) }
    ensures end { status_of result ≡ Status.Success
        → IsOver (to_come feed.new (I.told input.new)) }
    ensures ends { EndsCleanly (status_of result) feed.new.held
        (I.faults input.old) (I.faults input.new) (O.faults output.old) (O.faults output.new)
        (O.taken output.old) (O.taken output.new) }
{
    let program = good_program(alloc, request)?;
    let made = Prepared {
        program,
        front: Vec::new(alloc),
        lines: false,
    };
    stream(alloc, &made, order, feed, input, output)
}

/// Writes the listing, and then for each vector the lines of its turns and drains and the line of its transform.
pub(crate) fn trace<I: Source, O: Sink>(
    alloc: Global,
    request: &Request,
    order: &Order,
    feed: &mut Feed,
    input: &mut I,
    output: &mut O,
) -> Result<(), Status>
    requires in_range { IsInRange request.now }
    requires turns { NamesNoStranger (RequestCommand.Traces order.now) request.now.procs }
    requires within { feed.old.taken ≤ limit }
    ensures told { SourceMeets
        (work_for (RequestCommand.Traces order.now) request.now (limit - feed.old.taken))
        (to_come feed.old (I.told input.old)) (to_come feed.new (I.told input.new))
        (O.taken output.old) (O.taken output.new) (status_of result) }
    ensures end { status_of result ≡ Status.Success
        → IsOver (to_come feed.new (I.told input.new)) }
    ensures ends { EndsCleanly (status_of result) feed.new.held
        (I.faults input.old) (I.faults input.new) (O.faults output.old) (O.faults output.new)
        (O.taken output.old) (O.taken output.new) }
{
    let program = good_program(alloc, request)?;
    let front = print_listing(alloc, &program)?;
    let made = Prepared {
        program,
        front,
        lines: true,
    };
    stream(alloc, &made, order, feed, input, output)
}
