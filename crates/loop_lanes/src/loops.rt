// Nests of loops whose innermost rounds become lanes, as new statements.

ghost use Rattle.std.specs.Prelude.{◌≡◌, ◌<◌, ◌≤◌, ◌^◌, IfOk, option_map};
ghost use Rattle.icode.specs.Plain.{Loop, plain_stmt, plain_body};
ghost use Rattle.nests.specs.Rounds.{first_store, straight};
ghost use Rattle.loop_lanes.specs.Lanes.{last_count, narrowed};
ghost use Rattle.loop_lanes.specs.Views.{plain_ops, stored_reference, body_made, round_if, nest_if};

use crate::columns::{ArrayReference, Group, count_stores};
use crate::ways::laned_ops;
use icode::program::{Op, Stmt};
use memory::NoMemory;
use nests::{are_fresh, innermost, push_counts};
use std::alloc::Global;

/// How often a round stores at most.
pub(crate) const MOST_STORES: u64 = 256;

// ---- loops one in the other

/// The count of the innermost of loops, of which the outermost has this one.
pub(crate) fn last_count(count: u64, counts: &[u64]) -> u64
    ensures { result ≡ last_count count counts.now }
{
    let Some((inner, rest)) = counts.split_first() else {
        return count;
    };
    last_count(*inner, rest)
}

// Loops of these counts, where the innermost goes a group of rounds at a time.
fn narrowed(
    alloc: Global,
    lanes: u64,
    count: u64,
    counts: &[u64],
    round: Vec<Stmt>,
) -> Result<Stmt, NoMemory>
    requires { 1 ≤ lanes }
    ensures { IfOk result
        (λ stmt. plain_stmt stmt ≡ narrowed lanes count counts.now (plain_body round.items)) }
{
    let Some((inner, rest)) = counts.split_first() else {
        return Ok(Stmt::Loop {
            count: count / lanes,
            body: round,
        });
    };
    let inside = narrowed(alloc, lanes, *inner, rest, round)?;
    let mut body = Vec::new(alloc);
    body.push(inside)?;
    Ok(Stmt::Loop { count, body })
}

// ---- rounds

// Where the first store goes.
fn first_store(round: &[Stmt]) -> Option<ArrayReference<'_>>
    ensures { option_map stored_reference result ≡ first_store (plain_body round.now) }
{
    for stmt in round {
        if let Stmt::Do(Op::Store { array, place, .. }) = stmt {
            return Some(ArrayReference {
                array: *array,
                parts: &place.parts,
            });
        }
    }
    None
}

// The operations as statements.
fn straight(alloc: Global, ops: &[Op]) -> Result<Vec<Stmt>, NoMemory>
    ensures { IfOk result (λ stmts. plain_body stmts.items ≡ straight (plain_ops ops.now)) }
{
    let mut stmts = Vec::new(alloc);
    for op in ops {
        stmts.push(Stmt::Do(op.copied(alloc)?))?;
    }
    Ok(stmts)
}

/// The round of lanes, if it can be done so.
pub(crate) fn laned_round(
    alloc: Global,
    group: Group,
    regs: u64,
    round: &[Stmt],
) -> Result<Option<Vec<Stmt>>, NoMemory>
    requires some { 1 ≤ group.lanes }
    requires few { group.lanes ≤ 16 }
    requires registers { regs < 2 ^ 20 }
    ensures { IfOk result (λ made. body_made made ≡ round_if group.lanes regs group.depth (plain_body round.now)) }
{
    let Some(target) = first_store(round) else {
        return Ok(None);
    };
    match laned_ops(alloc, group, regs, target, round)? {
        Some(ops) => Ok(Some(straight(alloc, &ops)?)),
        None => Ok(None),
    }
}

// ---- nests

// The loop of `count` rounds of the body, on lanes, if it can be laned.
pub(crate) fn laned_loop(
    alloc: Global,
    lanes: u64,
    regs: u64,
    count: u64,
    body: &[Stmt],
) -> Result<Option<Stmt>, NoMemory>
    requires some { 1 ≤ lanes }
    requires few { lanes ≤ 16 }
    requires registers { regs < 2 ^ 20 }
    ensures { IfOk result (λ made. option_map plain_stmt made ≡ nest_if lanes regs (Loop count (plain_body body.now))) }
{
    let counts = push_counts(Vec::new(alloc), body)?;
    let round = innermost(body);
    if count_stores(round) > MOST_STORES {
        return Ok(None);
    }
    if last_count(count, &counts) % lanes != 0 || !are_fresh(1, round) {
        return Ok(None);
    }
    let group = Group {
        lanes,
        depth: counts.len() as u64,
    };
    match laned_round(alloc, group, regs, round)? {
        Some(round) => Ok(Some(narrowed(alloc, lanes, count, &counts, round)?)),
        None => Ok(None),
    }
}
