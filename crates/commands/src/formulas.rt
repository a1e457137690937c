// The commands that go by a formula: the listing of its program, and its matrix times the vectors of the data.
ghost use Rattle.std.specs.Prelude.{◌≡◌, true};
ghost use Rattle.io_edge.specs.Told.{IsOver};
ghost use Rattle.io_edge.specs.Feed.{to_come};
ghost use Rattle.commands.specs.Equations.Commands.{outcomes_by_formula};
ghost use Rattle.commands.specs.Input.Commands.{reads_rest};
ghost use Rattle.commands.specs.Input.Ends.{EndsCleanly};
ghost use Rattle.commands.specs.Input.Outcomes.{SourceMeets};
ghost use Rattle.commands.specs.Input.Stage.{status_of};

mod apply;
mod compile;
mod line;

use io_edge::{Feed, Sink, Source};
use ring_mod::Modulus;
use spiral_words::{Command, FormulaCommand, Status};
use std::alloc::Global;

/// Does a command that goes by a formula, which the first line of the input spells, modulo this.
pub fn by_formula<I: Source, O: Sink>(
    alloc: Global,
    modulus: &Modulus,
    command: &FormulaCommand,
    feed: &mut Feed,
    input: &mut I,
    output: &mut O,
) -> Result<(), Status>
    requires fresh { feed.old.taken ≡ 0 }
    ensures told { SourceMeets (outcomes_by_formula modulus.now command.now)
        (to_come feed.old (I.told input.old)) (to_come feed.new (I.told input.new))
        (O.taken output.old) (O.taken output.new) (status_of result) }
    ensures end { status_of result ≡ Status.Success
        → reads_rest (Command.ByFormula modulus.now command.now) ≡ true
        → IsOver (to_come feed.new (I.told input.new)) }
    ensures ends { EndsCleanly (status_of result) feed.new.held
        (I.faults input.old) (I.faults input.new) (O.faults output.old) (O.faults output.new)
        (O.taken output.old) (O.taken output.new) }
{
    match command {
        FormulaCommand::Compile => compile::compile(alloc, modulus, feed, input, output),
        FormulaCommand::Apply(schedule) => {
            apply::apply(alloc, modulus, schedule, feed, input, output)
        }
    }
}
