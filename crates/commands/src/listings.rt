// The command that runs a listing.
ghost use Rattle.std.specs.Prelude.{◌≡◌, ℕ, List, Ok, Err, IfOk, IfErr};
ghost use Rattle.io_edge.specs.Told.{Consumes, IsOver};
ghost use Rattle.io_edge.specs.Feed.{to_come};
ghost use Rattle.icode.specs.Program.{Fits, plain_program};
ghost use Rattle.commands.specs.Equations.Exec.{exec_outcomes};
ghost use Rattle.commands.specs.Listings.Listed.{loaded, GivesListing};
ghost use Rattle.commands.specs.Input.Ends.{EndsCleanly, ReadsCleanly};
ghost use Rattle.commands.specs.Input.Outcomes.{SourceMeets};
ghost use Rattle.commands.specs.Input.Stage.{status_of};
ghost use Rattle.spiral_words.specs.Statuses.Status.{IsDefined};
ghost use Rattle.commands.specs.Input.Refusals.{IsRefusal};
ghost use Rattle.runs.specs.Stream.{HasNoStranger};

use crate::input::check_turns;
use crate::streams::{Prepared, stream_turns};
use code_check::verify;
use data_stream::{RestFault, read_part};
use icode::program::Program;
use io_edge::{Feed, Sink, Source};
use listing_text::read_listing;
use schedules::Schedule;
use spiral_words::Status;
use std::alloc::Global;

/// How many bytes a listing has at most.
const LISTING_LIMIT: u64 = 1_048_576;

// The listing with which the input begins, as it stands there.
fn listing_text<I: Source>(alloc: Global, feed: &mut Feed, input: &mut I) -> Result<Vec<u8>, Status>
    requires fresh { feed.old.taken ≡ 0 }
    ensures told { (read : List ℕ)
        × Consumes (to_come feed.old (I.told input.old)) (to_come feed.new (I.told input.new)) read
        × GivesListing read (IsOver (to_come feed.new (I.told input.new))) feed.new.taken result }
    ensures ends { ReadsCleanly result feed.new.held (I.faults input.old) (I.faults input.new) }
{
    match read_part(alloc, feed, input, LISTING_LIMIT) {
        Ok(text) => Ok(text),
        Err(RestFault::ReadFault) => Err(Status::ReadFault),
        Err(RestFault::TooLong) => Err(Status::TooLong {
            limit: LISTING_LIMIT,
        }),
        Err(RestFault::NoMemory) => Err(Status::NoMemory),
    }
}

// The listing's program, if it passes the check and has the schedule's processors.
fn loaded_program(alloc: Global, text: &[u8], schedule: &Schedule) -> Result<Program, Status>
    ensures program { IfOk result
        (λ program. loaded schedule.now text.now (Ok (plain_program program))) }
    ensures fits { IfOk result Fits }
    ensures turns { IfOk result (λ program. HasNoStranger schedule.now program.procs) }
    ensures refused { IfErr result
        (λ status. IsDefined status → loaded schedule.now text.now (Err status)) }
    ensures refusal { IfErr result IsRefusal }
{
    let program = read_listing(alloc, text)?;
    verify(alloc, &program)?;
    check_turns(schedule.stranger(program.procs), program.procs)?;
    Ok(program)
}

/// Runs the program of the listing with which the input begins on each vector of the data after it, and writes the
/// line of its results. The program runs only if it passes the check.
pub fn exec<I: Source, O: Sink>(
    alloc: Global,
    schedule: &Schedule,
    feed: &mut Feed,
    input: &mut I,
    output: &mut O,
) -> Result<(), Status>
    requires fresh { feed.old.taken ≡ 0 }
    ensures told { SourceMeets (exec_outcomes schedule.now)
        (to_come feed.old (I.told input.old)) (to_come feed.new (I.told input.new))
        (O.taken output.old) (O.taken output.new) (status_of result) }
    ensures end { status_of result ≡ Status.Success
        → IsOver (to_come feed.new (I.told input.new)) }
    ensures ends { EndsCleanly (status_of result) feed.new.held
        (I.faults input.old) (I.faults input.new) (O.faults output.old) (O.faults output.new)
        (O.taken output.old) (O.taken output.new) }
{
    let text = listing_text(alloc, feed, input)?;
    let program = loaded_program(alloc, &text, schedule)?;
    let made = Prepared {
        program,
        front: Vec::new(alloc),
        lines: false,
    };
    stream_turns(alloc, &made, schedule, feed, input, output)
}
