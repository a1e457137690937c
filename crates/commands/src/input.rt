// The input of a call: the command that its words ask for, the line with which the input begins, and the request that
// this spells for the command.
ghost use Rattle.std.specs.Prelude.{◌≡◌, ◌≤◌, ℕ, Some, None, Err, IfOk, IfErr, OnOk, map, string_bytes};
ghost use Rattle.matrix_meaning.specs.Valid.{IsInRange};
ghost use Rattle.io_edge.specs.Feed.{to_come};
ghost use Rattle.spiral_words.specs.Asked.{IsAsked};
ghost use Rattle.commands.specs.Input.Ends.{ReadsCleanly};
ghost use Rattle.commands.specs.Input.Commands.{commanded, AreJudged, NamesNoStranger, first_stranger, procs_named};
ghost use Rattle.commands.specs.Input.Orders.{procs_in};
ghost use Rattle.spiral_words.specs.Statuses.Status.{IsDefined};
ghost use Rattle.commands.specs.Input.Asking.{Asks};
ghost use Rattle.commands.specs.Equations.Front as fronts;
ghost use Rattle.commands.specs.Equations.Orders.{spelt_for};
ghost use Rattle.commands.specs.Input.Refusals.{IsEarly};

mod line;

use io_edge::{Feed, Source};
pub(crate) use line::read_line;
use matrix_meaning::Request;
use request_text::read_request;
use spiral_words::{
    Command, Document, LINE_LIMIT, Order, Refusal, RequestCommand, Status, command_of,
};
use std::alloc::Global;

/// The request that the first line of the input spells, for the command.
pub(crate) fn ask<I: Source>(
    command: &RequestCommand,
    feed: &mut Feed,
    input: &mut I,
) -> Result<Request, Status>
    requires fresh { feed.old.taken ≡ 0 }
    ensures told { Asks (fronts.line 256) (spelt_for (procs_named command.now))
        (to_come feed.old (I.told input.old)) (to_come feed.new (I.told input.new)) feed.new.taken result }
    ensures within { OnOk result (feed.new.taken ≤ 257) }
    ensures request { IfOk result IsInRange }
    ensures turns { IfOk result (λ request. NamesNoStranger command.now request.procs) }
    ensures ends { ReadsCleanly result feed.new.held (I.faults input.old) (I.faults input.new) }
{
    let mut line = [0; LINE_LIMIT];
    let count = read_line(feed, input, &mut line)?;
    let request = read_request(&line[..count])?;
    check_turns(stranger(command, request.procs), request.procs)?;
    Ok(request)
}

/// The command that the words ask for.
pub fn asked(alloc: Global, words: &Vec<String>) -> Result<Command, Status>
    ensures command { IfOk result (λ command. IsAsked (map string_bytes words.now.items) command) }
    ensures refused { IfErr result (λ status. IsDefined status
        → commanded (map string_bytes words.now.items) (Err status)) }
    ensures refusal { IfErr result IsEarly }
    ensures words { IfErr result (AreJudged (map string_bytes words.now.items)) }
{
    match command_of(alloc, words) {
        Ok(command) => Ok(command),
        Err(Refusal::Usage) => Err(Status::Usage),
        Err(Refusal::NoMemory) => Err(Status::NoMemory),
    }
}

/// No turn is of a stranger to `p` processors.
pub(crate) fn check_turns(stranger: Option<u64>, p: u64) -> Result<(), Status>
    ensures none { OnOk result (stranger ≡ None) }
    ensures first { IfErr result (λ status.
        (q : ℕ) × (stranger ≡ Some q) × (status ≡ Status.Turn q p)) }
{
    match stranger {
        Some(q) => Err(Status::Turn { q, p }),
        None => Ok(()),
    }
}

// The first stranger to `p` processors that the order names.
fn stranger_in(order: &Order, p: u64) -> Option<u64>
    ensures { result ≡ first_stranger (procs_in order.now) p }
{
    match order {
        Order::Turns(schedule) => schedule.stranger(p),
        Order::Buffered(schedule) => schedule.stranger(p),
        Order::Mixed(mix) => mix.stranger(p),
    }
}

// The first stranger to `p` processors that the words of a document name.
fn stranger_to(document: &Document, p: u64) -> Option<u64>
    ensures { result ≡ first_stranger (procs_named (RequestCommand.Writes document.now)) p }
{
    match document {
        Document::Sample { schedule, .. } => schedule.stranger(p),
        _ => None,
    }
}

// The first stranger to `p` processors that the words of the command name.
fn stranger(command: &RequestCommand, p: u64) -> Option<u64>
    ensures { result ≡ first_stranger (procs_named command.now) p }
{
    match command {
        RequestCommand::Writes(document) => stranger_to(document, p),
        RequestCommand::Runs(order) => stranger_in(order, p),
        RequestCommand::Traces(order) => stranger_in(order, p),
        RequestCommand::Judges => None,
    }
}
