// The programs of merged passes for requests and for formulas.
ghost use Rattle.std.specs.Prelude.{◌≡◌, IfOk};
ghost use Rattle.icode.specs.Program.{plain_program};
ghost use Rattle.code_gen.specs.PassCode.Contract.{Performs};
ghost use Rattle.code_gen.specs.PassCode.Program.{program_of};
ghost use Rattle.sigma_spl.specs.Views.{plain_merged};
ghost use Rattle.code_gen.specs.Machines.{AreAlike};
ghost use Rattle.sigma_spl.specs.Shared.Machine.{plain_machine};
ghost use Rattle.sigma_spl.specs.Shared.Ready.{IsReady};
ghost use Rattle.sigma_spl.specs.Shared.Targets.{target_of};

use crate::program::emit_on;
use icode::program::Program;
use memory::NoMemory;
use ring_mod::Modulus;
use sigma_spl::Merged;
use std::alloc::Global;
use tree_model::Ctx;

/// The program of merged passes on the request's machine. It stands within the limits of programs, and its processors
/// share no line in a phase; run to its end, it leaves what the passes make of its input, in equal shares of what they
/// count.
pub fn emit(alloc: Global, c: &Ctx, merged: &Merged) -> Result<Program, NoMemory>
    requires { IsReady (target_of c.now) (plain_merged merged.now) }
    ensures code { IfOk result (λ p.
        plain_program p ≡ program_of (target_of c.now) (plain_merged merged.now)) }
    ensures performs { IfOk result (λ p.
        Performs (target_of c.now) (plain_merged merged.now) (plain_program p)) }
{
    let request = c.request();
    let modulus = Modulus::new(request.modulus).unwrap();
    let program = emit_on(alloc, &modulus, request.line, merged)?;
    Ok(program)
}

/// The program of merged passes for one processor of one lane: those of a formula.
pub fn emit_formula(alloc: Global, m: &Modulus, merged: &Merged) -> Result<Program, NoMemory>
    requires { IsReady (plain_machine merged.now.size m.now) (plain_merged merged.now) }
    ensures code { IfOk result (λ p. plain_program p
        ≡ program_of (plain_machine merged.now.size m.now) (plain_merged merged.now)) }
    ensures performs { IfOk result (λ p.
        Performs (plain_machine merged.now.size m.now) (plain_merged merged.now) (plain_program p)) }
{
    let program = emit_on(alloc, m, 1, merged)?;
    Ok(program)
}

/// The program of passes that `join` made of those of two requests for one machine.
pub fn emit_joined(
    alloc: Global,
    first: &Ctx,
    second: &Ctx,
    merged: &Merged,
) -> Result<Program, NoMemory>
    requires alike { AreAlike first.now second.now }
    requires ready { IsReady (target_of first.now) (plain_merged merged.now) }
    ensures code { IfOk result (λ p.
        plain_program p ≡ program_of (target_of first.now) (plain_merged merged.now)) }
    ensures performs { IfOk result (λ p.
        Performs (target_of first.now) (plain_merged merged.now) (plain_program p)) }
{
    // For the proof: the second request is valid.
    let _ = second.request();
    let program = emit(alloc, first, merged)?;
    Ok(program)
}
