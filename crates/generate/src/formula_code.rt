// From a formula to a program that computes it.
ghost use Rattle.std.specs.Prelude.{◌≡◌, ◌≤◌, IfOk};
ghost use Rattle.generate.specs.FormulaCode.Code.{IsCodeOf};
ghost use Rattle.generate.specs.FormulaCode.Coalesced.{phases_coalesced};
ghost use Rattle.generate.specs.FormulaCode.Letters.{program_as_it_stands, program_for};
ghost use Rattle.generate.specs.FormulaPasses.Computes.{formula_merged};
ghost use Rattle.icode.specs.Program.{plain_program};
ghost use Rattle.sigma_spl.specs.Views.{plain_merged};
ghost use Rattle.spl_ast.specs.Formula.{parts_of};

use code_gen::emit_formula;
use icode::program::Program;
use loop_merge::{coalesce_copies, merge};
use memory::NoMemory;
use ring_mod::Modulus;
use sigma_lower::lower_formula;
use sigma_spl::Merged;
use spl_ast::{Spl, balance};
use std::alloc::Global;

/// The code of a formula modulo m, for one processor of one lane: its listing can be printed, and under every order of
/// turns it leaves the formula's matrix times the vector. Direct sums are balanced first, so that none stands in a long
/// chain of others.
#[tactic(auto, using(crate::proofs::FormulaCode::Regrouped::few_parts))]
pub fn formula_program(alloc: Global, modulus: &Modulus, formula: Spl) -> Result<Program, NoMemory>
    requires few { parts_of formula ≤ 65536 }
    ensures code { IfOk result (λ program.
        IsCodeOf modulus.now formula (plain_program program)) }
    ensures letters { IfOk result (λ program.
        plain_program program ≡ program_for modulus.now formula) }
{
    let balanced = balance(alloc, formula)?;
    let program = code_of_formula(alloc, modulus, &balanced)?;
    Ok(program)
}

// The code of a formula, its direct sums as they stand.
fn code_of_formula(alloc: Global, modulus: &Modulus, formula: &Spl) -> Result<Program, NoMemory>
    requires few { parts_of formula.now ≤ 65536 }
    ensures code { IfOk result (λ program.
        IsCodeOf modulus.now formula.now (plain_program program)) }
    ensures letters { IfOk result (λ program.
        plain_program program ≡ program_as_it_stands modulus.now formula.now) }
{
    // For the proof: the modulus and the formula are within their limits.
    let _modulus = modulus.get();
    let _rows = formula.rows();
    let merged = merge_formula(alloc, modulus, formula)?;
    let program = emit_formula(alloc, modulus, &merged)?;
    Ok(program)
}

// The passes of a formula, with copies coalesced, as one phase of one processor and one lane.
fn merge_formula(alloc: Global, modulus: &Modulus, formula: &Spl) -> Result<Merged, NoMemory>
    ensures { IfOk result (λ g. plain_merged g ≡ formula_merged modulus.now formula.now) }
{
    let sigma = lower_formula(alloc, modulus, formula)?;
    let merged = merge(alloc, sigma)?;
    let coalesced = coalesce_phases(alloc, merged)?;
    Ok(coalesced)
}

// The passes, with copies coalesced in each phase.
fn coalesce_phases(alloc: Global, merged: Merged) -> Result<Merged, NoMemory>
    ensures { IfOk result (λ g. plain_merged g ≡ phases_coalesced (plain_merged merged)) }
{
    let Merged {
        size,
        procs,
        lanes,
        phases,
    } = merged;
    let mut coalesced = Vec::with_capacity(alloc, phases.len())?;
    for passes in phases {
        coalesced.push(coalesce_copies(alloc, passes)?)?;
    }
    Ok(Merged {
        size,
        procs,
        lanes,
        phases: coalesced,
    })
}
