// The command that judges a certificate.
ghost use Rattle.std.specs.Prelude.{◌≡◌, ◌-◌, ◌≤◌};
ghost use Rattle.io_edge.specs.Told.{IsOver};
ghost use Rattle.matrix_meaning.specs.Valid.{IsInRange};
ghost use Rattle.io_edge.specs.Faults.{HasCause};
ghost use Rattle.io_edge.specs.Feed.{to_come, limit};
ghost use Rattle.io_edge.specs.Taken.{WritesAll};
ghost use Rattle.commands.specs.Checked.{least_line};
ghost use Rattle.commands.specs.Input.Stage.{status_of};
ghost use Rattle.commands.specs.Input.Ends.{EndsCleanly};
ghost use Rattle.commands.specs.Input.Outcomes.{SourceMeets};
ghost use Rattle.commands.specs.Equations.Requests.{work_for};

use data_stream::read_rest;
use generate::admit;
use io_edge::{Feed, Sink, Source, WriteFault, write_parts};
use itoa::Buffer;
use matrix_meaning::Request;
use plan_cert::{Verdict, check_cert};
use spiral_words::{CERTIFICATE_LIMIT, RequestCommand, Status};
use std::alloc::Global;
use tree_model::Ctx;

// Writes the line of a right certificate.
fn write_least<O: Sink>(output: &mut O, cost: u64) -> Result<(), WriteFault>
    ensures bytes { WritesAll (O.taken output.old) (O.taken output.new) result (least_line cost) }
    ensures cause { HasCause (O.faults output.old) (O.faults output.new) result }
{
    let mut buffer = Buffer::new();
    write_parts(output, &[b"least ", buffer.format(cost).as_bytes(), b"\n"])
}

/// Reads the rest of the input, and says of it as a certificate what is to be said.
pub(crate) fn check<I: Source, O: Sink>(
    alloc: Global,
    request: &Request,
    feed: &mut Feed,
    input: &mut I,
    output: &mut O,
) -> Result<(), Status>
    requires in_range { IsInRange request.now }
    requires line { feed.old.taken ≤ 257 }
    ensures told { SourceMeets (work_for RequestCommand.Judges request.now (limit - feed.old.taken))
        (to_come feed.old (I.told input.old)) (to_come feed.new (I.told input.new))
        (O.taken output.old) (O.taken output.new) (status_of result) }
    ensures end { status_of result ≡ Status.Success
        → IsOver (to_come feed.new (I.told input.new)) }
    ensures ends { EndsCleanly (status_of result) feed.new.held
        (I.faults input.old) (I.faults input.new) (O.faults output.old) (O.faults output.new)
        (O.taken output.old) (O.taken output.new) }
{
    admit(request)?;
    let text = read_rest(alloc, feed, input, CERTIFICATE_LIMIT)?;
    match check_cert(alloc, &Ctx::new(request), &text)? {
        Verdict::Least(cost) => {
            write_least(output, cost)?;
            Ok(())
        }
        Verdict::Unread => Err(Status::Unread),
        Verdict::Wrong { size, given, found } => Err(Status::Wrong { size, given, found }),
    }
}
