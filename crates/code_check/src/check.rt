// The check of a whole program.

ghost use Rattle.std.specs.Prelude.{◌≡◌, ◌≢◌, ◌⊎◌, ℕ, List, [], OnOk, IfOk, IfErr, IsErrAnd};
ghost use Rattle.icode.specs.Machine.{IsApart, runs};
ghost use Rattle.icode.specs.Program.{plain_program, code_of, Fits};
ghost use Rattle.code_check.specs.Refusals.{PassesCheck, IsCause, FitsIfShared};

use crate::count::count_actions;
use crate::fault::{CheckFault, STEP_LIMIT};
use crate::lines::{Sharing, sooner};
use crate::phase::check_phase;
use icode::laws::order_is_free;
use icode::program::Program;
use std::alloc::Global;
use std::marker::Model;

/// A program that was checked: it fits, and in each phase no processor touches a line that another writes.
#[derive(Drop)]
pub struct Verified<'a> {
    program: &'a Program,
}

impl<'a> Model for Verified<'a> {
    ghost use Rattle.icode.specs.declared.program.Program.{Program};
    ghost use Rattle.icode.specs.Program.{plain_program};
    ghost use Rattle.icode.specs.contracts.program.Program as of_program;
    ghost use Rattle.std.specs.Coded.{codes};
    ghost use Rattle.code_check.specs.Refusals.{PassesCheck, action_limit};

    ghost Value = { Program };

    ghost coded = { Prim.hlevel (codes, of_program.the_row.coded) };

    ghost view = { λ v. v.program.now };

    ghost invariant = { λ v. PassesCheck action_limit (plain_program v.program.now) };
}

// The check, phase by phase.
fn judge<'a>(alloc: Global, program: &'a Program) -> Result<Verified<'a>, CheckFault>
    ensures verified { OnOk result (PassesCheck STEP_LIMIT (plain_program program.now)) }
    ensures same { IfOk result (λ v. v ≡ program.now) }
    ensures cause { IfErr result (IsCause STEP_LIMIT (plain_program program.now)) }
{
    if count_actions(program, STEP_LIMIT + 1) > STEP_LIMIT {
        return Err(CheckFault::OverSteps { limit: STEP_LIMIT });
    }
    let mut shared = None;
    for phase in 0..program.phases.len() {
        let found = check_phase(alloc, program, phase)?;
        shared = sooner(shared, found);
    }
    if let Some(Sharing { phase, line, a, b }) = shared {
        return Err(CheckFault::LineShared { phase, line, a, b });
    }
    Ok(Verified { program })
}

/// Checks the program: first its number of actions, then the places and registers of all actions, in the order of
/// phase, processor and action, then the lines that its processors share. Memory may always be wanting.
pub fn verify<'a>(alloc: Global, program: &'a Program) -> Result<Verified<'a>, CheckFault>
    ensures same { IfOk result (λ v. v ≡ program.now) }

    // What is verified passes, and what is refused has this cause.
    ensures verified { OnOk result (PassesCheck STEP_LIMIT (plain_program program.now)) }
    ensures cause { IfErr result (IsCause STEP_LIMIT (plain_program program.now)) }

    // What passes is verified, and what has a cause is refused for it.
    ensures passes { PassesCheck STEP_LIMIT (plain_program program.now)
        → IfErr result (λ fault. fault ≡ CheckFault.NoMemory) }
    ensures refused { (fault : CheckFault) → fault ≢ CheckFault.NoMemory
        → IsCause STEP_LIMIT (plain_program program.now) fault
        → IsErrAnd result (λ answer. (answer ≡ fault) ⊎ (answer ≡ CheckFault.NoMemory)) }

    // A program that shares a line fits: its runs are defined, and may differ.
    ensures shared { IfErr result (FitsIfShared (plain_program program.now)) }
{
    let answer = judge(alloc, program);
    answer
}

impl Verified<'_> {
    /// The program.
    pub fn program(&self) -> &Program
        ensures same { result.now ≡ self.now }
        ensures fits { Fits result.now }
        ensures apart { (phase : ℕ) → IsApart (code_of result.now) phase }
        ensures order { (x turns : List ℕ)
            → (runs (code_of result.now) x turns).memory ≡ (runs (code_of result.now) x []).memory }
    {
        order_is_free();
        self.program
    }
}
