// The blocks of nests. A round of an outer loop works on a block of words: it touches no word outside of it, and the next round's
// block begins a step farther. Nests that have the same loops, with the same steps, work on the same blocks. If they become one
// nest, a block is still in the cache when the statements of the next one come to it.

ghost use Rattle.std.specs.Prelude.{◌≡◌, ◌≤◌, length, IfOk};
ghost use Rattle.icode.specs.Plain.{Loop, plain_expr, plain_op, plain_stmt, plain_body};
ghost use Rattle.nests.specs.Rounds.{first_load};
ghost use Rattle.nests.specs.Views.{plain_parts};
ghost use Rattle.fused_loops.specs.Blocks.{followed_by, followed_op, followed_in, factors_of, first_steps};
ghost use Rattle.fused_loops.specs.Blocks.{blocks_with, blocks_of, shared};

use crate::followed::{are_values, followed};
use icode::program::{Expr, Op, Part, Stmt};
use memory::NoMemory;
use nests::{innermost, push_counts};
use std::alloc::Global;

/// A loop: how many rounds it has, and how many words of its own each round has.
#[derive(Clone, Copy, Drop, PartialEq, Eq, Debug)]
pub(crate) struct Block {
    pub(crate) count: u64,
    pub(crate) step: u64,
}

// Keeps the steps of the loops that the place follows.
fn keep_followed(lanes: u64, counts: &[u64], place: &Expr, steps: &mut Vec<u64>)
    ensures { steps.new.items ≡ followed_by lanes counts.now (plain_expr place.now) steps.old.items }
{
    if !are_values(&place.parts) {
        steps.clear();
        return;
    }
    let words = place.constant as u128 + lanes as u128;
    let kept = followed(counts, words, 0, steps, &place.parts);
    steps.truncate(kept);
}

fn keep_for_op(lanes: u64, counts: &[u64], op: &Op, steps: &mut Vec<u64>)
    ensures { steps.new.items ≡ followed_op lanes counts.now (plain_op op.now) steps.old.items }
{
    match op {
        Op::Load { place, .. } => keep_followed(lanes, counts, place, steps),
        Op::Store { place, .. } => keep_followed(lanes, counts, place, steps),
        Op::Zero { .. } => (),
        Op::Add { .. } => (),
        Op::Sub { .. } => (),
        Op::Neg { .. } => (),
        Op::MulConst { .. } => (),
        Op::MulTable { .. } => (),
        Op::Tile { .. } => (),
    }
}

// Keeps the steps of the loops that all places of the round follow.
fn keep_for_round(lanes: u64, counts: &[u64], round: &[Stmt], steps: &mut Vec<u64>)
    ensures { steps.new.items ≡ followed_in lanes counts.now (plain_body round.now) steps.old.items }
{
    for stmt in round {
        if let Stmt::Do(op) = stmt {
            keep_for_op(lanes, counts, op, steps);
        }
    }
}

fn factors_of(alloc: Global, parts: &[Part]) -> Result<Vec<u64>, NoMemory>
    ensures { IfOk result (λ made. made.items ≡ factors_of (plain_parts parts.now)) }
{
    let mut made = Vec::new(alloc);
    for part in parts {
        if let Part::Var { factor, .. } = part {
            made.push(*factor)?;
        }
    }
    Ok(made)
}

// The factors of the first place that is loaded from.
fn first_steps(alloc: Global, round: &[Stmt]) -> Result<Vec<u64>, NoMemory>
    ensures { IfOk result (λ made. made.items ≡ first_steps (first_load (plain_body round.now))) }
{
    for stmt in round {
        if let Stmt::Do(Op::Load { place, .. }) = stmt {
            let made = factors_of(alloc, &place.parts)?;
            return Ok(made);
        }
    }
    Ok(Vec::new(alloc))
}

fn blocks_with(alloc: Global, counts: &[u64], steps: &[u64]) -> Result<Vec<Block>, NoMemory>
    ensures { IfOk result (λ made. made.items ≡ blocks_with counts.now steps.now) }
{
    let mut made = Vec::new(alloc);
    for index in 0..counts.len().min(steps.len()) {
        made.push(Block {
            count: counts[index],
            step: steps[index],
        })?;
    }
    Ok(made)
}

// The blocks of the loop of `count` rounds of the body, and of those in it.
fn blocks_of_loop(
    alloc: Global,
    lanes: u64,
    count: u64,
    body: &[Stmt],
) -> Result<Vec<Block>, NoMemory>
    ensures { IfOk result
        (λ made. made.items ≡ blocks_of lanes (Loop count (plain_body body.now))) }
{
    let mut outer = Vec::new(alloc);
    outer.push(count)?;
    let counts = push_counts(outer, body)?;
    let round = innermost(body);
    let mut steps = first_steps(alloc, round)?;
    keep_for_round(lanes, &counts, round, &mut steps);
    let made = blocks_with(alloc, &counts, &steps)?;
    Ok(made)
}

/// The blocks of the loops of a nest, from the outermost inward as far as there are.
pub(crate) fn blocks_of(alloc: Global, lanes: u64, stmt: &Stmt) -> Result<Vec<Block>, NoMemory>
    ensures { IfOk result (λ made. made.items ≡ blocks_of lanes (plain_stmt stmt.now)) }
{
    match stmt {
        Stmt::Loop { count, body } => blocks_of_loop(alloc, lanes, *count, body),
        Stmt::Do(_) => Ok(Vec::new(alloc)),
    }
}

/// How many of the first blocks are the same.
pub(crate) fn shared(blocks: &[Block], others: &[Block]) -> u64
    ensures few { result ≤ length blocks.now }
    ensures value { result ≡ shared blocks.now others.now }
{
    let Some((block, more)) = blocks.split_first() else {
        return 0;
    };
    let Some((other, rest)) = others.split_first() else {
        return 0;
    };
    if block.count != other.count || block.step != other.step {
        return 0;
    }
    1 + shared(more, rest)
}
