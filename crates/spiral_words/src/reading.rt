// What the words of a command line ask for.
ghost use Rattle.std.specs.Prelude.{◌≡◌, Err, IfOk, map, string_bytes, codes};
ghost use Rattle.clap.specs.Words.{found_of, rows_of};
ghost use Rattle.schedules.specs.Schedule.{schedule_word};
ghost use Rattle.spiral_words.specs.declared.app.OptionName.TheVariants as option;
ghost use Rattle.spiral_words.specs.CommandLine.{text_of};
ghost use Rattle.spiral_words.specs.Asked.{AsksOrder, IsAsked, IsUsage, Means};
ghost use Rattle.spiral_words.specs.Refused.{AsksNoOrder, IsNoSchedule, MeansNothing};

use crate::app::OptionName;
use crate::command::{Command, Document, FormulaCommand, Order, Refusal, RequestCommand};
use crate::line::{is_given, parsed, text_of};
use crate::number::{modulus_of, seed_of};
use crate::order::{order_of, schedule_of};
use clap::ArgMatches;
use schedules::Schedule;
use std::alloc::Global;

/// What the words ask for, the program's name first.
pub fn command_of(alloc: Global, words: &Vec<String>) -> Result<Command, Refusal>
    ensures ok { IfOk result (λ command. IsAsked (map string_bytes words.now.items) command) }
    ensures usage { result ≡ Err Refusal.Usage → IsUsage (map string_bytes words.now.items) }
{
    let matches = parsed(alloc, words)?;
    match matches.subcommand() {
        Some((name, options)) => read(alloc, name, options),
        None => Err(Refusal::Usage),
    }
}

/// The command of this name, with its options read.
fn read(alloc: Global, name: &str, options: &ArgMatches) -> Result<Command, Refusal>
    ensures ok { IfOk result (λ r. Means name.now (rows_of (found_of options.now)) r) }
    ensures usage { result ≡ Err Refusal.Usage
        → MeansNothing name.now (rows_of (found_of options.now)) }
{
    match name {
        "plan" => Ok(Command::ByRequest(RequestCommand::Writes(Document::Plan))),
        "formula" => Ok(Command::ByRequest(RequestCommand::Writes(Document::Formula))),
        "code" => Ok(Command::ByRequest(RequestCommand::Writes(Document::Code))),
        "c" => Ok(Command::ByRequest(RequestCommand::Writes(Document::C))),
        "run" => run_of(alloc, options),
        "trace" => trace_of(alloc, options),
        "cert" => Ok(Command::ByRequest(RequestCommand::Writes(Document::Cert))),
        "check" => Ok(Command::ByRequest(RequestCommand::Judges)),
        "sample" => sample_of(alloc, options),
        "compile" => compile_of(options),
        "apply" => apply_of(alloc, options),
        "exec" => exec_of(alloc, options),
        "convolve" => convolve_of(alloc, options),
        _ => Err(Refusal::Usage),
    }
}

fn run_of(alloc: Global, options: &ArgMatches) -> Result<Command, Refusal>
    ensures ok { IfOk result (λ r. Means (codes "run") (rows_of (found_of options.now)) r) }
    ensures usage { result ≡ Err Refusal.Usage
        → MeansNothing (codes "run") (rows_of (found_of options.now)) }
{
    let order = order_in(alloc, options)?;
    Ok(Command::ByRequest(RequestCommand::Runs(order)))
}

fn trace_of(alloc: Global, options: &ArgMatches) -> Result<Command, Refusal>
    ensures ok { IfOk result (λ r. Means (codes "trace") (rows_of (found_of options.now)) r) }
    ensures usage { result ≡ Err Refusal.Usage
        → MeansNothing (codes "trace") (rows_of (found_of options.now)) }
{
    let order = order_in(alloc, options)?;
    Ok(Command::ByRequest(RequestCommand::Traces(order)))
}

fn sample_of(alloc: Global, options: &ArgMatches) -> Result<Command, Refusal>
    ensures ok { IfOk result (λ r. Means (codes "sample") (rows_of (found_of options.now)) r) }
    ensures usage { result ≡ Err Refusal.Usage
        → MeansNothing (codes "sample") (rows_of (found_of options.now)) }
{
    let seed = seed_of(text_of(options, OptionName::Seed))?;
    let schedule = schedule_in(alloc, options)?;
    let document = Document::Sample { seed, schedule };
    Ok(Command::ByRequest(RequestCommand::Writes(document)))
}

fn compile_of(options: &ArgMatches) -> Result<Command, Refusal>
    ensures ok { IfOk result (λ r. Means (codes "compile") (rows_of (found_of options.now)) r) }
    ensures usage { result ≡ Err Refusal.Usage
        → MeansNothing (codes "compile") (rows_of (found_of options.now)) }
{
    let modulus = modulus_of(text_of(options, OptionName::Modulus))?;
    let command = FormulaCommand::Compile;
    Ok(Command::ByFormula { modulus, command })
}

fn apply_of(alloc: Global, options: &ArgMatches) -> Result<Command, Refusal>
    ensures ok { IfOk result (λ r. Means (codes "apply") (rows_of (found_of options.now)) r) }
    ensures usage { result ≡ Err Refusal.Usage
        → MeansNothing (codes "apply") (rows_of (found_of options.now)) }
{
    let modulus = modulus_of(text_of(options, OptionName::Modulus))?;
    let schedule = schedule_in(alloc, options)?;
    let command = FormulaCommand::Apply(schedule);
    Ok(Command::ByFormula { modulus, command })
}

fn exec_of(alloc: Global, options: &ArgMatches) -> Result<Command, Refusal>
    ensures ok { IfOk result (λ r. Means (codes "exec") (rows_of (found_of options.now)) r) }
    ensures usage { result ≡ Err Refusal.Usage
        → MeansNothing (codes "exec") (rows_of (found_of options.now)) }
{
    let schedule = schedule_in(alloc, options)?;
    Ok(Command::ByListing(schedule))
}

fn convolve_of(alloc: Global, options: &ArgMatches) -> Result<Command, Refusal>
    ensures ok { IfOk result (λ r. Means (codes "convolve") (rows_of (found_of options.now)) r) }
    ensures usage { result ≡ Err Refusal.Usage
        → MeansNothing (codes "convolve") (rows_of (found_of options.now)) }
{
    let code = is_given(options, OptionName::Code);
    let schedule = schedule_in(alloc, options)?;
    Ok(Command::ByList { schedule, code })
}

/// A schedule, or with `--buffers` turns and drains too.
fn order_in(alloc: Global, options: &ArgMatches) -> Result<Order, Refusal>
    ensures ok { IfOk result (λ order. AsksOrder (rows_of (found_of options.now)) order) }
    ensures usage { result ≡ Err Refusal.Usage → AsksNoOrder (rows_of (found_of options.now)) }
{
    let buffers = is_given(options, OptionName::Buffers);
    order_of(alloc, buffers, text_of(options, OptionName::Schedule))
}

fn schedule_in(alloc: Global, options: &ArgMatches) -> Result<Schedule, Refusal>
    ensures ok { IfOk result
        (λ schedule. schedule_word (text_of option.Schedule (rows_of (found_of options.now))) schedule) }
    ensures usage { result ≡ Err Refusal.Usage
        → IsNoSchedule (text_of option.Schedule (rows_of (found_of options.now))) }
{
    schedule_of(alloc, text_of(options, OptionName::Schedule))
}
