// Why a program stays at one lane. Its statements are tested as they are when they become lanes, one after the other, and the first
// that cannot is told with the first test that fails. This is done only where a program stays as it is, so the pass itself keeps no
// reasons.

ghost use Rattle.std.specs.Prelude.{◌≡◌, ◌≤◌, ◌<◌, ◌^◌, IfOk};
ghost use Rattle.icode.specs.Plain.{Loop, plain_stmt, plain_body, plain_phases};
ghost use Rattle.icode.specs.Program.{plain_program};
ghost use Rattle.loop_lanes.specs.Lanes.{IsLanes};
ghost use Rattle.loop_lanes.specs.Obstacles.{are_straight, fault_of, obstacle_of_body, obstacle_of_phases, first_obstacle, ObstaclesAreAll};

use crate::columns::{Group, count_stores};
use crate::loops::{MOST_STORES, laned_round, last_count};
use icode::program::{Program, Stmt};
use memory::NoMemory;
use nests::{are_fresh, innermost, push_counts};
use std::alloc::Global;

/// Why the rounds of a statement cannot be lanes.
#[derive(Clone, Copy, Debug, PartialEq, Eq)]
pub enum NestFault {
    /// It stands in no loop.
    NoLoop,
    /// Loops stand side by side in a loop, or beside operations.
    Loops,
    /// A round stores more than 256 times.
    Stores,
    /// The rounds of the innermost loop are no multiple of the lanes.
    Rounds,
    /// A round does not put its registers in order, or reads one that it has not put.
    Registers,
    /// Rounds, one after the other, neither load and store words one after the other, nor rows that tiles could turn.
    Places,
}

/// Why a program is not put on lanes.
#[derive(Clone, Copy, Debug, PartialEq, Eq)]
pub enum Obstacle {
    /// It has several lanes.
    Lanes,
    /// Three times its registers are 2^20 or more.
    Registers,
    /// The statement of this number in the phase, both counted from 0, is the first that cannot be laned.
    Statement {
        phase: u64,
        number: u64,
        fault: NestFault,
    },
}

fn are_straight(round: &[Stmt]) -> bool
    ensures { result ≡ are_straight (plain_body round.now) }
{
    for stmt in round {
        if let Stmt::Loop { .. } = stmt {
            return false;
        }
    }
    true
}

// What about the loop of `count` rounds of the body.
fn fault_of_loop(
    alloc: Global,
    lanes: u64,
    regs: u64,
    count: u64,
    body: &[Stmt],
) -> Result<Option<NestFault>, NoMemory>
    requires some { 1 ≤ lanes }
    requires few { lanes ≤ 16 }
    requires registers { regs < 2 ^ 20 }
    ensures { IfOk result (λ fault. fault ≡ fault_of lanes (Loop count (plain_body body.now))) }
{
    let counts = push_counts(Vec::new(alloc), body)?;
    let round = innermost(body);
    if !are_straight(round) {
        return Ok(Some(NestFault::Loops));
    }
    if count_stores(round) > MOST_STORES {
        return Ok(Some(NestFault::Stores));
    }
    if last_count(count, &counts) % lanes != 0 {
        return Ok(Some(NestFault::Rounds));
    }
    if !are_fresh(1, round) {
        return Ok(Some(NestFault::Registers));
    }
    let group = Group {
        lanes,
        depth: counts.len() as u64,
    };
    match laned_round(alloc, group, regs, round)? {
        Some(_) => Ok(None),
        None => Ok(Some(NestFault::Places)),
    }
}

fn fault_of(
    alloc: Global,
    lanes: u64,
    regs: u64,
    stmt: &Stmt,
) -> Result<Option<NestFault>, NoMemory>
    requires some { 1 ≤ lanes }
    requires few { lanes ≤ 16 }
    requires registers { regs < 2 ^ 20 }
    ensures { IfOk result (λ fault. fault ≡ fault_of lanes (plain_stmt stmt.now)) }
{
    match stmt {
        Stmt::Loop { count, body } => fault_of_loop(alloc, lanes, regs, *count, body),
        Stmt::Do(_) => Ok(Some(NestFault::NoLoop)),
    }
}

// The first statement of a phase that cannot be laned.
fn obstacle_of_body(
    alloc: Global,
    lanes: u64,
    regs: u64,
    phase: u64,
    body: &[Stmt],
) -> Result<Option<Obstacle>, NoMemory>
    requires some { 1 ≤ lanes }
    requires few { lanes ≤ 16 }
    requires registers { regs < 2 ^ 20 }
    ensures { IfOk result (λ found. found ≡ obstacle_of_body lanes phase 0 (plain_body body.now)) }
{
    for (number, stmt) in body.iter().enumerate() {
        if let Some(fault) = fault_of(alloc, lanes, regs, stmt)? {
            return Ok(Some(Obstacle::Statement {
                phase,
                number: number as u64,
                fault,
            }));
        }
    }
    Ok(None)
}

fn obstacle_of_phases(
    alloc: Global,
    lanes: u64,
    regs: u64,
    phases: &[Vec<Stmt>],
) -> Result<Option<Obstacle>, NoMemory>
    requires some { 1 ≤ lanes }
    requires few { lanes ≤ 16 }
    requires registers { regs < 2 ^ 20 }
    ensures { IfOk result (λ found. found ≡ obstacle_of_phases lanes 0 (plain_phases phases.now)) }
{
    for (phase, body) in phases.iter().enumerate() {
        if let Some(obstacle) = obstacle_of_body(alloc, lanes, regs, phase as u64, body)? {
            return Ok(Some(obstacle));
        }
    }
    Ok(None)
}

/// Why the program is not put on these lanes, if it is not: of its statements that cannot be laned the first is told.
pub fn first_obstacle(
    alloc: Global,
    lanes: u64,
    program: &Program,
) -> Result<Option<Obstacle>, NoMemory>
    requires { IsLanes lanes }
    ensures { IfOk result (λ found. found ≡ first_obstacle lanes (plain_program program.now)) }
{
    if program.lanes != 1 {
        return Ok(Some(Obstacle::Lanes));
    }
    if 3 * program.regs >= (1 << 20) {
        return Ok(Some(Obstacle::Registers));
    }
    let found = obstacle_of_phases(alloc, lanes, program.regs, &program.phases)?;
    Ok(found)
}

/// There is an obstacle exactly where a program cannot be laned.
pub fn obstacles_are_all()
    ensures { ObstaclesAreAll }
{}
