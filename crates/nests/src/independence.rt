// Whether the rounds of loops are independent of one another, so that they may come in any order. They load from another array
// than they store into, and each stores into words of its own: a step of a loop is as wide as all rounds of the loops inside.

ghost use Rattle.std.specs.Prelude.{◌≡◌, ◌+◌, ◌<◌};
ghost use Rattle.icode.specs.Plain.{plain_op, plain_body};
ghost use Rattle.icode.specs.Actions.{array_start};
ghost use Rattle.nests.specs.Rounds.{same_array, first_store, is_placed, are_placed};
ghost use Rattle.nests.specs.Views.{stored_into, loops_in, are_apart_in, are_independent_in};

use crate::bodies::{are_nested, last_stride};
use crate::parts::{are_linear, same_parts};
use icode::program::{Array, Op, Part, Stmt};

fn order_of(array: Array) -> u64
    ensures { result ≡ array_start 1 array }
{
    match array {
        Array::X => 0,
        Array::Y => 1,
        Array::A => 2,
        Array::B => 3,
    }
}

/// Whether both are the same array.
pub fn same_array(left: Array, right: Array) -> bool
    ensures { result ≡ same_array left right }
{
    order_of(left) == order_of(right)
}

// The operation of a round that stores into the array by these parts, where the innermost loop goes on by `step` words.
fn is_placed(lanes: u64, array: Array, parts: &[Part], step: u64, op: &Op) -> bool
    ensures { result ≡ is_placed lanes (stored_into array parts.now) step (plain_op op.now) }
{
    match op {
        Op::Load {
            array: from,
            place,
            ..
        } => !same_array(*from, array) && are_linear(&place.parts),
        Op::Store {
            array: into,
            place,
            ..
        } => {
            let end = place.constant as u128 + lanes as u128;
            same_array(*into, array) && (same_parts(&place.parts, parts) && end <= step as u128)
        }
        Op::MulTable { place, .. } => are_linear(&place.parts),
        Op::Zero { .. } => true,
        Op::Add { .. } => true,
        Op::Sub { .. } => true,
        Op::Neg { .. } => true,
        Op::MulConst { .. } => true,
        Op::Tile { .. } => true,
    }
}

fn are_placed(lanes: u64, array: Array, parts: &[Part], step: u64, round: &[Stmt]) -> bool
    ensures { result
        ≡ are_placed lanes (stored_into array parts.now) step (plain_body round.now) }
{
    for stmt in round {
        match stmt {
            Stmt::Loop { .. } => return false,
            Stmt::Do(op) => {
                if !is_placed(lanes, array, parts, step, op) {
                    return false;
                }
            }
        }
    }
    true
}

// Whether the rounds of the outermost loop, of this body, and of those in it, store into words of their own.
fn are_apart(lanes: u64, body: &[Stmt], array: Array, parts: &[Part], round: &[Stmt]) -> bool
    requires { loops_in (plain_body body.now) < 64 }
    ensures { let inside = plain_body body.now in let to = stored_into array parts.now in
        result ≡ are_apart_in lanes inside to (plain_body round.now) }
{
    are_linear(parts)
        && (are_nested(0, body, parts)
            && are_placed(lanes, array, parts, last_stride(0, body, parts), round))
}

/// Whether the rounds of the outermost loop, of this body, and of those in it, are independent of one another.
pub fn are_independent(lanes: u64, body: &[Stmt], round: &[Stmt]) -> bool
    requires { loops_in (plain_body body.now) < 64 }
    ensures { let inside = plain_body body.now in let stmts = plain_body round.now in
        result ≡ are_independent_in lanes inside (first_store stmts) stmts }
{
    for stmt in round {
        if let Stmt::Do(Op::Store { array, place, .. }) = stmt {
            return are_apart(lanes, body, *array, &place.parts, round);
        }
    }
    false
}
