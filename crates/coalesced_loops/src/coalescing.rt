// Programs whose loops are coalesced.

ghost use Rattle.std.specs.Prelude.{◌≡◌, ◌+◌, ◌<◌, ◌≤◌, map, IfOk, IsTrue, option_map};
ghost use Rattle.std.specs.Option.{unwrap_or};
ghost use Rattle.icode.specs.Limits.{is_stmt_within, is_body_within, are_phases_within};
ghost use Rattle.icode.specs.Plain.{Loop, plain_stmt, plain_body, plain_phases};
ghost use Rattle.icode.specs.Program.{plain_program};
ghost use Rattle.coalesced_loops.specs.Coalesced.{both_as_one, as_one, coalesced_stmt, coalesced_body, coalesced};
ghost use Rattle.coalesced_loops.specs.Laws.{CoalescedDoesTheSame};

use crate::conditions::body_goes_on;
use crate::lifts::lifted_body;
use icode::copies::copied_tables;
use icode::program::{Program, Stmt};
use memory::NoMemory;
use std::alloc::Global;

/// The greatest number of lanes.
const MOST_LANES: u64 = 16;

// Two loops as one, of which the outer one is at this depth and the inner one is the innermost, if lanes need more rounds
// and all places go on.
fn both_as_one(
    alloc: Global,
    depth: u64,
    count: u64,
    inner: u64,
    body: &[Stmt],
) -> Result<Option<Stmt>, NoMemory>
    requires { depth ≤ 64 }
    ensures { IfOk result
        (λ made. option_map plain_stmt made ≡ both_as_one depth count inner (plain_body body.now)) }
{
    let rounds = count as u128 * inner as u128;
    if inner % MOST_LANES == 0 || rounds >= (1 << 32) || !body_goes_on(depth, inner, body) {
        return Ok(None);
    }
    let round = lifted_body(alloc, depth, body)?;
    Ok(Some(Stmt::Loop {
        count: rounds as u64,
        body: round,
    }))
}

// A loop of `count` rounds of this body as one with the loop that the body is.
fn as_one(alloc: Global, depth: u64, count: u64, body: &[Stmt]) -> Result<Option<Stmt>, NoMemory>
    requires { depth ≤ 64 }
    ensures { IfOk result
        (λ made. option_map plain_stmt made ≡ as_one depth count (plain_body body.now)) }
{
    if body.len() != 1 {
        return Ok(None);
    }
    match &body[0] {
        Stmt::Loop {
            count: inner,
            body: inside,
        } => Ok(both_as_one(alloc, depth, count, *inner, inside)?),
        Stmt::Do(_) => Ok(None),
    }
}

fn coalesced_loop(alloc: Global, depth: u64, count: u64, body: Vec<Stmt>) -> Result<Stmt, NoMemory>
    requires { depth ≤ 64 }
    ensures { let inside = plain_body body.items in
        IfOk result (λ made. plain_stmt made ≡ unwrap_or (as_one depth count inside) (Loop count inside)) }
{
    match as_one(alloc, depth, count, &body)? {
        Some(made) => Ok(made),
        None => Ok(Stmt::Loop { count, body }),
    }
}

// A statement at this depth where loops are coalesced, from the innermost to the outermost.
fn coalesced_stmt(alloc: Global, modulus: u64, depth: u64, stmt: &Stmt) -> Result<Stmt, NoMemory>
    requires depth { depth ≤ 64 }
    requires within { IsTrue (is_stmt_within modulus (plain_stmt stmt.now) depth) }
    ensures { IfOk result
        (λ made. plain_stmt made ≡ coalesced_stmt depth (plain_stmt stmt.now)) }
{
    match stmt {
        Stmt::Loop { count, body } => {
            let mut inside = Vec::new(alloc);
            for inner in body {
                let inner = coalesced_stmt(alloc, modulus, depth + 1, inner)?;
                inside.push(inner)?;
            }
            let made = coalesced_loop(alloc, depth, *count, inside)?;
            Ok(made)
        }
        Stmt::Do(op) => {
            let op = op.copied(alloc)?;
            Ok(Stmt::Do(op))
        }
    }
}

fn coalesced_body(alloc: Global, modulus: u64, body: &[Stmt]) -> Result<Vec<Stmt>, NoMemory>
    requires { IsTrue (is_body_within modulus (plain_body body.now) 0) }
    ensures { IfOk result
        (λ made. plain_body made.items ≡ coalesced_body 0 (plain_body body.now)) }
{
    let mut made = Vec::new(alloc);
    for stmt in body {
        let stmt = coalesced_stmt(alloc, modulus, 0, stmt)?;
        made.push(stmt)?;
    }
    Ok(made)
}

fn coalesced_phases(
    alloc: Global,
    modulus: u64,
    phases: &[Vec<Stmt>],
) -> Result<Vec<Vec<Stmt>>, NoMemory>
    requires { IsTrue (are_phases_within modulus (plain_phases phases.now)) }
    ensures { IfOk result (λ made. plain_phases made.items
        ≡ map (coalesced_body 0) (plain_phases phases.now)) }
{
    let mut made = Vec::new(alloc);
    for body in phases {
        let body = coalesced_body(alloc, modulus, body)?;
        made.push(body)?;
    }
    Ok(made)
}

/// A program that does the same, where an innermost loop and the one in which it stands alone are one loop, as far as all places
/// go on from the last round of the inner loop to its first round in the next of the outer one, and lanes need more rounds.
pub fn coalesce_loops(alloc: Global, program: &Program) -> Result<Program, NoMemory>
    ensures { IfOk result (λ made. plain_program made ≡ coalesced (plain_program program.now)) }
{
    let phases = coalesced_phases(alloc, program.modulus, &program.phases)?;
    let tables = copied_tables(alloc, &program.tables)?;
    Ok(Program {
        size: program.size,
        modulus: program.modulus,
        procs: program.procs,
        line: program.line,
        lanes: program.lanes,
        regs: program.regs,
        tables,
        phases,
    })
}

/// The program with its loops coalesced does the same actions in the same order, and fits where the program fits.
pub fn coalesced_does_the_same()
    ensures { CoalescedDoesTheSame }
{}
