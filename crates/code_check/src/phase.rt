// The check of one phase.

ghost use Rattle.std.specs.Prelude.{◌≡◌, ◌^◌, ◌<◌, length, replicate, IfOk, MatchResult};
ghost use Rattle.icode.specs.Program.{plain_program};
ghost use Rattle.code_check.specs.Phases.{IsPhaseSound, IsPhaseFault};
ghost use Rattle.code_check.specs.Refusals.{action_count};
ghost use Rattle.code_check.specs.Uses.{line_count, unused};
ghost use Rattle.code_check.specs.Faults.{fault_of};

use crate::fault::CheckFault;
use crate::lines::{LineUse, Sharing, first_sharing};
use crate::live::live_of;
use crate::walk::{MAX_DEPTH, Offence, Worker, walk_body};
use icode::program::Program;
use memory::NoMemory;
use std::alloc::Global;

// A table for all lines of the four arrays.
fn fresh_table(alloc: Global, program: &Program) -> Result<Vec<LineUse>, NoMemory>
    ensures { IfOk result
        (λ table. table.items ≡ replicate (line_count (plain_program program.now)) unused) }
{
    let count = 4 * ((program.size + (program.line - 1)) / program.line);
    let table = vec![in alloc; LineUse::NONE; count as usize]?;
    Ok(table)
}

fn fault_of(offence: Offence, phase: u64, proc: u64, action: u64) -> CheckFault
    ensures { result ≡ fault_of offence phase proc action }
{
    match offence {
        Offence::Place => CheckFault::Address {
            phase,
            proc,
            action,
        },
        Offence::Register => CheckFault::Register {
            phase,
            proc,
            action,
        },
    }
}

/// Checks the actions of the phase, processor by processor. Where all are sound, it gives the first line that is shared.
pub(crate) fn check_phase(
    alloc: Global,
    program: &Program,
    phase: usize,
) -> Result<Option<Sharing>, CheckFault>
    requires phase { phase < length program.now.phases.items }
    requires few { action_count (plain_program program.now) < 2 ^ 64 }
    ensures { let p = plain_program program.now in
        MatchResult result (IsPhaseSound p phase) (IsPhaseFault p phase) }
{
    let body = live_of(alloc, &program.phases[phase])?;
    if body.is_empty() {
        return Ok(None);
    }
    let mut lines = fresh_table(alloc, program)?;
    let mut values = [0; MAX_DEPTH];
    for proc in 0..program.procs {
        let mut count = 0;
        let worker = Worker { program, proc };
        let walk = walk_body(&body, &worker, &mut values, 0, &mut count, &mut lines);
        if let Err(offence) = walk {
            return Err(fault_of(offence, phase as u64, proc, count));
        }
    }
    Ok(first_sharing(phase as u64, &lines))
}
