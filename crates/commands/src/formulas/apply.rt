// The command that applies a formula to the vectors of the data.
ghost use Rattle.std.specs.Prelude.{◌≡◌, ◌≤◌, Err, IfOk, IfErr, length};
ghost use Rattle.io_edge.specs.Told.{IsOver};
ghost use Rattle.icode.specs.Program.{Fits};
ghost use Rattle.io_edge.specs.Feed.{to_come};
ghost use Rattle.commands.specs.Equations.Apply.{apply_outcomes};
ghost use Rattle.commands.specs.Equations.Formulas.{formed};
ghost use Rattle.commands.specs.Formulas.Compiled.{IsFormedProgram};
ghost use Rattle.commands.specs.Input.Ends.{EndsCleanly};
ghost use Rattle.commands.specs.Input.Outcomes.{SourceMeets};
ghost use Rattle.commands.specs.Input.Stage.{status_of};
ghost use Rattle.schedules.specs.Turns.{named};
ghost use Rattle.spiral_words.specs.Statuses.Status.{IsDefined};
ghost use Rattle.commands.specs.Input.Refusals.{IsRefusal};
ghost use Rattle.runs.specs.Stream.{HasNoStranger};

use crate::formulas::compile::written_formula;
use crate::formulas::line::formula_line;
use crate::input::check_turns;
use crate::streams::{Prepared, stream_turns};
use generate::formula_program;
use icode::program::Program;
use io_edge::{Feed, Sink, Source};
use ring_mod::Modulus;
use schedules::Schedule;
use spiral_words::Status;
use std::alloc::Global;

// A program for the formula that the text spells, if the schedule names its one processor alone.
fn formed_program(
    alloc: Global,
    modulus: &Modulus,
    schedule: &Schedule,
    text: &[u8],
) -> Result<Program, Status>
    requires short { length text.now ≤ 65536 }
    ensures program { IfOk result (IsFormedProgram modulus.now (named schedule.now) text.now) }
    ensures fits { IfOk result Fits }
    ensures turns { IfOk result (λ program. HasNoStranger schedule.now program.procs) }
    ensures refused { IfErr result (λ status. IsDefined status
        → formed (named schedule.now) text.now (Err status)) }
    ensures refusal { IfErr result IsRefusal }
{
    let formula = written_formula(alloc, text)?;
    check_turns(schedule.stranger(1), 1)?;
    let program = formula_program(alloc, modulus, formula)?;
    Ok(program)
}

/// Writes for each vector of the data after the first line the line of the matrix times it, whose formula the first
/// line spells.
pub(crate) fn apply<I: Source, O: Sink>(
    alloc: Global,
    modulus: &Modulus,
    schedule: &Schedule,
    feed: &mut Feed,
    input: &mut I,
    output: &mut O,
) -> Result<(), Status>
    requires fresh { feed.old.taken ≡ 0 }
    ensures told { SourceMeets (apply_outcomes modulus.now schedule.now)
        (to_come feed.old (I.told input.old)) (to_come feed.new (I.told input.new))
        (O.taken output.old) (O.taken output.new) (status_of result) }
    ensures end { status_of result ≡ Status.Success
        → IsOver (to_come feed.new (I.told input.new)) }
    ensures ends { EndsCleanly (status_of result) feed.new.held
        (I.faults input.old) (I.faults input.new) (O.faults output.old) (O.faults output.new)
        (O.taken output.old) (O.taken output.new) }
{
    let text = formula_line(alloc, feed, input)?;
    let program = formed_program(alloc, modulus, schedule, &text)?;
    let made = Prepared {
        program,
        front: Vec::new(alloc),
        lines: false,
    };
    stream_turns(alloc, &made, schedule, feed, input, output)
}
