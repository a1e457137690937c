// Rounds of which a number, one after the other, can be one round of lanes.

ghost use Rattle.std.specs.Prelude.{◌≡◌, ◌+◌, ◌*◌, ◌^◌, ◌<◌, length, IfOk};
ghost use Rattle.std.specs.List.{list_all};
ghost use Rattle.icode.specs.Plain.{plain_op, plain_body};
ghost use Rattle.nests.specs.Places.{stride};
ghost use Rattle.nests.specs.Views.{plain_parts, stored_into};
ghost use Rattle.nests.specs.Rounds.{ops_in};
ghost use Rattle.loop_lanes.specs.Rows.{stored_constants, stored_registers, is_by_lane, is_clear, are_clear, are_from};
ghost use Rattle.loop_lanes.specs.Rows.{are_rows, widened_parts, in_row};
ghost use Rattle.loop_lanes.specs.Views.{stride_in};

use icode::program::{Array, Op, Part, Stmt};
use memory::NoMemory;
use nests::{are_linear, same_array, same_parts, stride};
use std::alloc::Global;

/// Whether the operation of a round that stores into the array by these parts can be done in lanes, where the loop at this depth
/// goes several rounds at a time.
pub(crate) fn is_by_lane(depth: u64, array: Array, parts: &[Part], op: &Op) -> bool
    ensures { result ≡ is_by_lane depth (stored_into array parts.now) (plain_op op.now) }
{
    match op {
        Op::Load {
            array: from,
            place,
            ..
        } => {
            !same_array(*from, array)
                && (are_linear(&place.parts) && stride(depth, &place.parts) == 1)
        }
        Op::Store {
            array: into,
            place,
            ..
        } => same_array(*into, array) && same_parts(&place.parts, parts),
        Op::MulTable { place, .. } => {
            are_linear(&place.parts) && stride(depth, &place.parts) <= 1
        }
        Op::Zero { .. } => true,
        Op::Add { .. } => true,
        Op::Sub { .. } => true,
        Op::Neg { .. } => true,
        Op::MulConst { .. } => true,
        Op::Tile { .. } => false,
    }
}

fn are_by_lane(depth: u64, array: Array, parts: &[Part], round: &[Stmt]) -> bool
    ensures { let to = stored_into array parts.now in
        result ≡ list_all (is_by_lane depth to) (ops_in (plain_body round.now)) }
{
    for stmt in round {
        if let Stmt::Do(op) = stmt {
            if !is_by_lane(depth, array, parts, op) {
                return false;
            }
        }
    }
    true
}

/// The constants of the places of stores.
pub(crate) fn stored_constants(alloc: Global, round: &[Stmt]) -> Result<Vec<u64>, NoMemory>
    ensures { IfOk result (λ ks. ks.items ≡ stored_constants (ops_in (plain_body round.now))) }
{
    let mut constants = Vec::new(alloc);
    for stmt in round {
        if let Stmt::Do(Op::Store { place, .. }) = stmt {
            constants.push(place.constant)?;
        }
    }
    Ok(constants)
}

/// The registers that are stored.
pub(crate) fn stored_registers(alloc: Global, round: &[Stmt]) -> Result<Vec<u64>, NoMemory>
    ensures { IfOk result (λ rs. rs.items ≡ stored_registers (ops_in (plain_body round.now))) }
{
    let mut registers = Vec::new(alloc);
    for stmt in round {
        if let Stmt::Do(Op::Store { register, .. }) = stmt {
            registers.push(*register)?;
        }
    }
    Ok(registers)
}

fn is_clear(lanes: u64, left: u64, right: u64) -> bool
    ensures { result ≡ is_clear lanes left right }
{
    let (left, right, lanes) = (left as u128, right as u128, lanes as u128);
    left + lanes <= right || right + lanes <= left
}

fn is_clear_of(lanes: u64, constant: u64, others: &[u64]) -> bool
    ensures { result ≡ list_all (is_clear lanes constant) others.now }
{
    for other in others {
        if !is_clear(lanes, constant, *other) {
            return false;
        }
    }
    true
}

/// Whether the words of the lanes from each constant on meet those from no other.
pub(crate) fn are_clear(lanes: u64, constants: &[u64]) -> bool
    ensures { result ≡ are_clear lanes constants.now }
{
    let Some((first, rest)) = constants.split_first() else {
        return true;
    };
    is_clear_of(lanes, *first, rest) && are_clear(lanes, rest)
}

/// Whether the numbers stand one after the other, from this one on.
pub(crate) fn are_from(from: u128, numbers: &[u64]) -> bool
    requires { from + length numbers.now < 2 ^ 66 }
    ensures { result ≡ are_from from numbers.now }
{
    let Some((first, rest)) = numbers.split_first() else {
        return true;
    };
    *first as u128 == from && are_from(from + 1, rest)
}

/// Whether rounds, one for each lane, store rows.
pub(crate) fn are_rows(
    lanes: u64,
    depth: u64,
    array: Array,
    parts: &[Part],
    round: &[Stmt],
    constants: &[u64],
) -> bool
    requires { constants.now ≡ stored_constants (ops_in (plain_body round.now)) }
    ensures { result ≡ are_rows lanes depth (stored_into array parts.now) (ops_in (plain_body round.now)) }
{
    stride(depth, parts) == 1
        && (are_by_lane(depth, array, parts, round) && are_clear(lanes, constants))
}

/// A step of the loop at this depth becomes as wide as a round for each lane.
pub(crate) fn widen_parts(lanes: u64, depth: u64, parts: &mut [Part])
    requires { lanes * stride depth (plain_parts parts.old) < 2 ^ 64 }
    ensures { plain_parts parts.new ≡ widened_parts lanes depth (plain_parts parts.old) }
{
    let Some((part, rest)) = parts.split_first_mut() else {
        return;
    };
    if let Part::Var { depth: of, factor } = part {
        if *of == depth {
            *factor = lanes * *factor;
            return;
        }
    }
    widen_parts(lanes, depth, rest);
}

/// The operation on lanes, one for each round.
pub(crate) fn put_in_row(lanes: u64, depth: u64, op: &mut Op)
    requires { lanes * stride_in depth (plain_op op.old) < 2 ^ 64 }
    ensures { plain_op op.new ≡ in_row lanes depth (plain_op op.old) }
{
    match op {
        Op::Load { place, .. } => widen_parts(lanes, depth, &mut place.parts),
        Op::Store { place, .. } => widen_parts(lanes, depth, &mut place.parts),
        Op::MulTable { place, step, .. } => {
            *step = stride(depth, &place.parts);
            widen_parts(lanes, depth, &mut place.parts);
        }
        Op::Zero { .. } => (),
        Op::Add { .. } => (),
        Op::Sub { .. } => (),
        Op::Neg { .. } => (),
        Op::MulConst { .. } => (),
        Op::Tile { .. } => (),
    }
}
