// The command that convolves the vectors of the data with the first of them.
ghost use Rattle.std.specs.Prelude.{◌≡◌, ◌-◌, ◌≤◌, ◌∷◌, Bool, List, ℕ, [], true, false, vec_len, IfOk, IfErr, OnOk};
ghost use Rattle.std.specs.declared.option.Option.{Option};
ghost use Rattle.io_edge.specs.Told.{IsOver};
ghost use Rattle.matrix_meaning.specs.Convolving.{IsConvRequest};
ghost use Rattle.data_stream.specs.Vectors.{IsReady};
ghost use Rattle.io_edge.specs.Feed.{to_come, limit};
ghost use Rattle.schedules.specs.Turns.{named};
ghost use Rattle.commands.specs.Convolutions.Convolved.{IsListProgram, work_by_list};
ghost use Rattle.commands.specs.Equations.Convolutions.{conv_spelt_for};
ghost use Rattle.commands.specs.Equations.Convolve.{outcomes_by_list};
ghost use Rattle.commands.specs.Equations.Front as fronts;
ghost use Rattle.commands.specs.Input.Asking.{Asks};
ghost use Rattle.commands.specs.Input.Commands.{reads_rest};
ghost use Rattle.commands.specs.Input.Ends.{EndsCleanly, ReadsCleanly};
ghost use Rattle.commands.specs.Input.Outcomes.{SourceMeets};
ghost use Rattle.commands.specs.Input.Stage.{status_of};
ghost use Rattle.runs.specs.Progress.{HasCome};
ghost use Rattle.runs.specs.Stream.{HasNoStranger};

use crate::input::{check_turns, read_line};
use data_stream::Vectors;
use generate::{generate_conv, plan_conv};
use icode::program::Program;
use io_edge::{Feed, Sink, Source, write_all};
use listing_text::print_listing;
use matrix_meaning::Request;
use par_machine::Machine;
use request_text::read_conv;
use ring_mod::Modulus;
use runs::{read_first, run_vectors};
use schedules::Schedule;
use spiral_words::{Command, LINE_LIMIT, Status};
use std::alloc::Global;

// The request for convolutions that the first line of the input spells, whose processors are all that the schedule
// names.
fn ask_conv<I: Source>(
    schedule: &Schedule,
    feed: &mut Feed,
    input: &mut I,
) -> Result<Request, Status>
    requires fresh { feed.old.taken ≡ 0 }
    ensures told { Asks (fronts.line 256) (conv_spelt_for (named schedule.now))
        (to_come feed.old (I.told input.old)) (to_come feed.new (I.told input.new))
        feed.new.taken result }
    ensures within { OnOk result (feed.new.taken ≤ 257) }
    ensures request { IfOk result IsConvRequest }
    ensures turns { IfOk result (λ request. HasNoStranger schedule.now request.procs) }
    ensures ends { ReadsCleanly result feed.new.held (I.faults input.old) (I.faults input.new) }
{
    let mut line = [0; LINE_LIMIT];
    let count = read_line(feed, input, &mut line)?;
    let request = read_conv(&line[..count])?;
    check_turns(schedule.stranger(request.procs), request.procs)?;
    Ok(request)
}

// A program for the list with which the data begin, what cuts the vectors after it, and the list.
fn listed_program<I: Source>(
    alloc: Global,
    request: &Request,
    feed: &mut Feed,
    input: &mut I,
) -> Result<(Program, Vectors, Vec<u64>), Status>
    requires request { IsConvRequest request.now }
    requires within { feed.old.taken ≤ limit }
    ensures program { IfOk result (λ made. IsListProgram request.now made.2.items made.0) }
    ensures come { IfOk result (λ made. HasCome request.now.modulus made.1 feed.old feed.new
        (to_come feed.old (I.told input.old)) (to_come feed.new (I.told input.new))
        (made.2.items ∷ [])) }
    ensures ready { IfOk result (λ made.
        IsReady made.1 feed.new (to_come feed.new (I.told input.new))) }
    ensures cut { IfOk result (λ made. made.1.size ≡ request.now.size) }
    ensures room { IfOk result (λ made. vec_len made.2 ≡ request.now.size) }
    ensures within { OnOk result (feed.new.taken ≤ limit) }
    ensures told { IfErr result (λ status. (code : Bool) (out : Option (List ℕ)) →
        SourceMeets (work_by_list code request.now (limit - feed.old.taken))
        (to_come feed.old (I.told input.old))
        (to_come feed.new (I.told input.new)) out out status) }
    ensures ends { ReadsCleanly result feed.new.held (I.faults input.old) (I.faults input.new) }
{
    let plan = plan_conv(alloc, request)?;
    let modulus = Modulus::new(request.modulus).unwrap();
    let mut list = vec![in alloc; 0; request.size as usize]?;
    let mut vectors = Vectors::new(request.size);
    read_first(&mut vectors, &modulus, feed, input, &mut list)?;
    let program = generate_conv(alloc, request, &plan, &list)?;
    Ok((program, vectors, list))
}

// Writes the listing of the program, and reads nothing after the list.
fn print_convolver<I: Source, O: Sink>(
    alloc: Global,
    request: &Request,
    feed: &mut Feed,
    input: &mut I,
    output: &mut O,
) -> Result<(), Status>
    requires request { IsConvRequest request.now }
    requires within { feed.old.taken ≤ limit }
    ensures told { SourceMeets (work_by_list true request.now (limit - feed.old.taken))
        (to_come feed.old (I.told input.old)) (to_come feed.new (I.told input.new))
        (O.taken output.old) (O.taken output.new) (status_of result) }
    ensures ends { EndsCleanly (status_of result) feed.new.held
        (I.faults input.old) (I.faults input.new) (O.faults output.old) (O.faults output.new)
        (O.taken output.old) (O.taken output.new) }
{
    let (program, _, _) = listed_program(alloc, request, feed, input)?;
    let listing = print_listing(alloc, &program)?;
    write_all(output, &listing)?;
    Ok(())
}

// Writes the line of each later vector's convolution with the list.
fn run_convolver<I: Source, O: Sink>(
    alloc: Global,
    schedule: &Schedule,
    request: &Request,
    feed: &mut Feed,
    input: &mut I,
    output: &mut O,
) -> Result<(), Status>
    requires request { IsConvRequest request.now }
    requires turns { HasNoStranger schedule.now 1 }
    requires within { feed.old.taken ≤ limit }
    ensures told { SourceMeets (work_by_list false request.now (limit - feed.old.taken))
        (to_come feed.old (I.told input.old)) (to_come feed.new (I.told input.new))
        (O.taken output.old) (O.taken output.new) (status_of result) }
    ensures end { status_of result ≡ Status.Success
        → IsOver (to_come feed.new (I.told input.new)) }
    ensures ends { EndsCleanly (status_of result) feed.new.held
        (I.faults input.old) (I.faults input.new) (O.faults output.old) (O.faults output.new)
        (O.taken output.old) (O.taken output.new) }
{
    let (program, mut vectors, mut list) = listed_program(alloc, request, feed, input)?;
    let mut machine = Machine::new(alloc, &program)?;
    run_vectors(
        &mut machine,
        schedule,
        false,
        &mut vectors,
        feed,
        input,
        output,
        &mut list,
    )?;
    Ok(())
}

/// Does what is done by the list, for the request that the first line spells. `code`: the program is written.
pub fn convolve<I: Source, O: Sink>(
    alloc: Global,
    schedule: &Schedule,
    code: bool,
    feed: &mut Feed,
    input: &mut I,
    output: &mut O,
) -> Result<(), Status>
    requires fresh { feed.old.taken ≡ 0 }
    ensures told { SourceMeets (outcomes_by_list schedule.now code)
        (to_come feed.old (I.told input.old)) (to_come feed.new (I.told input.new))
        (O.taken output.old) (O.taken output.new) (status_of result) }
    ensures end { status_of result ≡ Status.Success
        → reads_rest (Command.ByList schedule.now code) ≡ true
        → IsOver (to_come feed.new (I.told input.new)) }
    ensures ends { EndsCleanly (status_of result) feed.new.held
        (I.faults input.old) (I.faults input.new) (O.faults output.old) (O.faults output.new)
        (O.taken output.old) (O.taken output.new) }
{
    let request = ask_conv(schedule, feed, input)?;
    if code {
        print_convolver(alloc, &request, feed, input, output)
    } else {
        run_convolver(alloc, schedule, &request, feed, input, output)
    }
}
