// Loops one in the other. A loop goes on inward as long as its body is one loop and nothing else. A nest is such loops, where
// the statements in the innermost are straight and read no register of another round.

ghost use Rattle.std.specs.Prelude.{◌≡◌, ◌+◌, ◌<◌, true, ◌++◌, IfOk};
ghost use Rattle.icode.specs.Plain.{plain_body, Loop, plain_stmt};
ghost use Rattle.nests.specs.Nests.{round_in, is_nest, counts_in};
ghost use Rattle.nests.specs.Views.{plain_parts, loops_in, are_nested_in, last_stride_in};
ghost use Rattle.nests.specs.Rounds.{straight};

use crate::parts::stride;
use crate::registers::are_fresh;
use icode::program::{Part, Stmt};
use memory::NoMemory;

/// The statements in the innermost of the loops that the body is.
pub fn innermost(body: &[Stmt]) -> &[Stmt]
    ensures { plain_body result.now ≡ round_in (plain_body body.now) }
{
    if body.len() != 1 {
        return body;
    }
    match &body[0] {
        Stmt::Loop { body: inside, .. } => innermost(inside),
        Stmt::Do(_) => body,
    }
}

/// After these counts those of the loops that the body is, one in the other.
pub fn push_counts(counts: Vec<u64>, body: &[Stmt]) -> Result<Vec<u64>, NoMemory>
    ensures { IfOk result (λ all. all.items ≡ counts.items ++ counts_in (plain_body body.now)) }
{
    if body.len() != 1 {
        return Ok(counts);
    }
    match &body[0] {
        Stmt::Loop {
            count,
            body: inside,
        } => {
            let mut counts = counts;
            counts.push(*count)?;
            push_counts(counts, inside)
        }
        Stmt::Do(_) => Ok(counts),
    }
}

/// Whether it is loops one in the other, and straight statements in the innermost, which read no register of another round.
pub fn is_nest(lanes: u64, stmt: &Stmt) -> bool
    ensures { result ≡ is_nest lanes (plain_stmt stmt.now) }
{
    match stmt {
        Stmt::Do(_) => false,
        Stmt::Loop { body, .. } => are_fresh(lanes, innermost(body)),
    }
}

/// Whether a step of the loop at this depth, of this body, is as wide as all rounds of the next, and so on inward.
pub(crate) fn are_nested(depth: u64, body: &[Stmt], parts: &[Part]) -> bool
    requires { depth + loops_in (plain_body body.now) < 64 }
    ensures { result ≡ are_nested_in depth (plain_body body.now) (plain_parts parts.now) }
{
    if body.len() != 1 {
        return true;
    }
    match &body[0] {
        Stmt::Loop {
            count,
            body: inside,
        } => {
            let width = *count as u128 * stride(depth + 1, parts) as u128;
            width <= stride(depth, parts) as u128 && are_nested(depth + 1, inside, parts)
        }
        Stmt::Do(_) => true,
    }
}

/// How far the parts go in a round of the innermost loop, from this depth on.
pub(crate) fn last_stride(depth: u64, body: &[Stmt], parts: &[Part]) -> u64
    requires { depth + loops_in (plain_body body.now) < 64 }
    ensures { result ≡ last_stride_in depth (plain_body body.now) (plain_parts parts.now) }
{
    if body.len() != 1 {
        return stride(depth, parts);
    }
    match &body[0] {
        Stmt::Loop { body: inside, .. } => last_stride(depth + 1, inside, parts),
        Stmt::Do(_) => stride(depth, parts),
    }
}
