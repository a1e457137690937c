// Programs of which rounds become lanes.

ghost use Rattle.std.specs.Prelude.{◌≡◌, ◌≤◌, ◌<◌, ◌^◌, IfOk, option_map};
ghost use Rattle.icode.specs.Plain.{plain_stmt, plain_body, plain_phases};
ghost use Rattle.icode.specs.Program.{plain_program};
ghost use Rattle.loop_lanes.specs.Lanes.{IsLanes, laned};
ghost use Rattle.loop_lanes.specs.Views.{nest_if, body_if, phases_if, body_made, phases_made};
ghost use Rattle.loop_lanes.specs.Laws.{LanedLeavesTheSame};

use crate::loops::laned_loop;
use icode::program::{Program, Stmt};
use memory::NoMemory;
use std::alloc::Global;

// The statement on lanes, if it can be laned.
fn laned_nest(alloc: Global, lanes: u64, regs: u64, stmt: &Stmt) -> Result<Option<Stmt>, NoMemory>
    requires some { 1 ≤ lanes }
    requires few { lanes ≤ 16 }
    requires registers { regs < 2 ^ 20 }
    ensures { IfOk result (λ made. option_map plain_stmt made ≡ nest_if lanes regs (plain_stmt stmt.now)) }
{
    match stmt {
        Stmt::Loop { count, body } => laned_loop(alloc, lanes, regs, *count, body),
        Stmt::Do(_) => Ok(None),
    }
}

fn laned_body(
    alloc: Global,
    lanes: u64,
    regs: u64,
    body: &[Stmt],
) -> Result<Option<Vec<Stmt>>, NoMemory>
    requires some { 1 ≤ lanes }
    requires few { lanes ≤ 16 }
    requires registers { regs < 2 ^ 20 }
    ensures { IfOk result (λ made. body_made made ≡ body_if lanes regs (plain_body body.now)) }
{
    let mut stmts = Vec::new(alloc);
    for stmt in body {
        match laned_nest(alloc, lanes, regs, stmt)? {
            Some(nest) => stmts.push(nest)?,
            None => return Ok(None),
        }
    }
    Ok(Some(stmts))
}

fn laned_phases(
    alloc: Global,
    lanes: u64,
    regs: u64,
    phases: &[Vec<Stmt>],
) -> Result<Option<Vec<Vec<Stmt>>>, NoMemory>
    requires some { 1 ≤ lanes }
    requires few { lanes ≤ 16 }
    requires registers { regs < 2 ^ 20 }
    ensures { IfOk result (λ made. phases_made made ≡ phases_if lanes regs (plain_phases phases.now)) }
{
    let mut bodies = Vec::new(alloc);
    for phase in phases {
        match laned_body(alloc, lanes, regs, phase)? {
            Some(body) => bodies.push(body)?,
            None => return Ok(None),
        }
    }
    Ok(Some(bodies))
}

/// The program on these lanes, if it is of one lane and all its statements are loops whose innermost rounds can go a vector
/// at a time; else the program.
pub fn lane_loops(alloc: Global, lanes: u64, program: Program) -> Result<Program, NoMemory>
    requires { IsLanes lanes }
    ensures made { IfOk result (λ p. plain_program p ≡ laned lanes (plain_program program)) }
{
    if program.lanes != 1 || 3 * program.regs >= (1 << 20) {
        return Ok(program);
    }
    let Some(phases) = laned_phases(alloc, lanes, program.regs, &program.phases)? else {
        return Ok(program);
    };
    Ok(Program {
        size: program.size,
        modulus: program.modulus,
        procs: program.procs,
        line: program.line,
        lanes,
        regs: 3 * program.regs,
        tables: program.tables,
        phases,
    })
}

/// Where a program fits and no processor touches a line that another writes in the same phase, its program on lanes fits, its
/// processors share no line either, and it leaves what the program leaves, whatever the orders of turns.
pub fn laned_leaves_the_same()
    ensures { LanedLeavesTheSame }
{}
