// Rounds that load rows. Each of the rounds that become lanes loads words one after the other, and one load on lanes takes them
// for one round. As many loads as there are lanes are a square of words. A tile turns it, so that each round has its words in a
// lane of its own, as if they had been loaded by lane.

ghost use Rattle.std.specs.Prelude.{◌≡◌, ◌^◌, ◌<◌, ◌≤◌, ◌++◌, [], ◌∷◌, true, nat_le, length, IfOk, OnOk, option_map};
ghost use Rattle.std.specs.List.{list_all};
ghost use Rattle.icode.specs.Plain.{plain_op, plain_body};
ghost use Rattle.loop_lanes.specs.Loads.{first_load, is_loaded, row_length, are_whole, are_rows_behind, behind};
ghost use Rattle.loop_lanes.specs.Loads.{are_behind};
ghost use Rattle.nests.specs.Rounds.{ops_in};
ghost use Rattle.loop_lanes.specs.Rows.{stores, stored_constants};
ghost use Rattle.loop_lanes.specs.Views.{plain_ops, plain_factors, columns_of, has_entries, stored_reference, ops_made};
ghost use Rattle.loop_lanes.specs.Views.{has_room, load_of, load_tile_of, loads_of, in_loaded_if};

use crate::columns::{ArrayReference, Columns, Group, are_columns, are_ops_by_lane};
use crate::rows::are_clear;
use crate::tiles::{Tiles, column_ops, placed};
use icode::program::{Op, Stmt};
use memory::NoMemory;
use nests::{are_linear, same_array, same_parts, stride};
use std::alloc::Global;

// ---- rows

/// Where the first operation loads from, if it is a load.
pub(crate) fn first_load(ops: &[Op]) -> Option<ArrayReference<'_>>
    ensures { option_map stored_reference result ≡ first_load (plain_ops ops.now) }
{
    match ops.first() {
        Some(Op::Load { array, place, .. }) => Some(ArrayReference {
            array: *array,
            parts: &place.parts,
        }),
        _ => None,
    }
}

// Whether it loads the word of this number into the register of this number.
fn is_loaded(from: ArrayReference<'_>, number: u64, op: &Op) -> bool
    ensures { result ≡ is_loaded (stored_reference from.entry) number (plain_op op.now) }
{
    match op {
        Op::Load {
            register,
            array,
            place,
        } => {
            *register == number
                && (place.constant == number
                    && (same_array(*array, from.array) && same_parts(&place.parts, from.parts)))
        }
        _ => false,
    }
}

/// How many such loads, one after the other from 0 on, the operations begin with.
pub(crate) fn row_length(from: ArrayReference<'_>, ops: &[Op]) -> u64
    ensures few { result ≤ length ops.now }
    ensures is { result ≡ row_length (stored_reference from.entry) 0 (plain_ops ops.now) }
{
    let mut count = 0;
    for op in ops {
        if !is_loaded(from, count, op) {
            return count;
        }
        count += 1;
    }
    count
}

// Whether `count` loads are whole tiles, from another array than the stores.
fn are_whole(group: Group, target: ArrayReference<'_>, from: ArrayReference<'_>, count: u64) -> bool
    requires { 1 ≤ group.lanes }
    ensures { result ≡ are_whole group.lanes group.depth (stored_reference target.entry) (stored_reference from.entry) count }
{
    let width = group.lanes as u128 * stride(group.depth, from.parts) as u128;
    (0 < count && (count % group.lanes == 0 && !same_array(from.array, target.array)))
        && (are_linear(from.parts) && count as u128 + width < (1 << 32))
}

/// Whether the first `count` operations are loads that can become tiles, and rows come after them.
pub(crate) fn are_rows_behind(
    group: Group,
    target: ArrayReference<'_>,
    from: ArrayReference<'_>,
    count: u64,
    ops: &[Op],
    constants: &[u64],
) -> bool
    requires some { 1 ≤ group.lanes }
    requires few { count ≤ length ops.now }
    requires constants { constants.now ≡ stored_constants (plain_ops ops.now) }
    ensures { result
        ≡ are_rows_behind group.lanes group.depth (stored_reference target.entry) (plain_ops ops.now)
        (stored_reference from.entry) count }
{
    let (_, rest) = ops.split_at(count as usize);
    are_whole(group, target, from, count)
        && (stride(group.depth, target.parts) == 1
            && (are_ops_by_lane(group.depth, target.array, target.parts, rest)
                && are_clear(group.lanes, constants)))
}

// ---- columns after them

// The columns after the first `count` operations.
fn behind<'a>(count: u64, columns: Columns<'a>) -> Columns<'a>
    requires { count ≤ length columns.front.now }
    ensures { columns_of result ≡ behind count (columns_of columns.entry) }
{
    let (_, front) = columns.front.split_at(count as usize);
    Columns {
        front,
        turned: columns.turned,
        by: columns.by,
    }
}

fn are_least(least: u64, registers: &[u64]) -> bool
    ensures { result ≡ list_all (nat_le least) registers.now }
{
    for register in registers {
        if *register < least {
            return false;
        }
    }
    true
}

// Whether the first `count` operations are loads that can become tiles, and columns of other registers come after them.
fn are_behind(
    group: Group,
    target: ArrayReference<'_>,
    from: ArrayReference<'_>,
    count: u64,
    round: &[Stmt],
    columns: Columns<'_>,
) -> bool
    requires some { 1 ≤ group.lanes }
    requires few { count ≤ length columns.front.now }
    ensures { result
        ≡ are_behind group.lanes group.depth (stored_reference target.entry) (ops_in (plain_body round.now))
        (columns_of columns.entry) (stored_reference from.entry) count }
{
    are_whole(group, target, from, count)
        && (are_least(count, columns.turned)
            && are_columns(
                group,
                target.array,
                target.parts,
                round,
                behind(count, columns),
            ))
}

// ---- the operations

// Loads the words from `word` on of the round of lane `lane` into register `register + lane`.
fn push_load(
    alloc: Global,
    tiles: Tiles<'_>,
    register: u64,
    word: u64,
    lane: u64,
    ops: &mut Vec<Op>,
) -> Result<(), NoMemory>
    requires room { has_room tiles ≡ true }
    requires register { register < 2 ^ 40 }
    requires word { word < tiles.count }
    requires lane { lane < tiles.group.lanes }
    requires few { tiles.group.lanes ≤ 16 }
    ensures { OnOk result (plain_ops ops.new.items
        ≡ plain_ops ops.old.items ++ load_of tiles.entry register word lane ∷ []) }
{
    let place = placed(alloc, tiles.group, lane, word, tiles.parts)?;
    ops.push(Op::Load {
        register: register + lane,
        array: tiles.array,
        place,
    })?;
    Ok(())
}

// The tile of the words from this one on, by way of the registers from this one on.
fn push_load_tile(
    alloc: Global,
    tiles: Tiles<'_>,
    register: u64,
    word: u64,
    ops: &mut Vec<Op>,
) -> Result<(), NoMemory>
    requires few { tiles.group.lanes ≤ 16 }
    requires room { has_room tiles ≡ true }
    requires register { register < 2 ^ 40 }
    requires word { word < tiles.count }
    ensures { OnOk result (plain_ops ops.new.items
        ≡ plain_ops ops.old.items ++ load_tile_of tiles.entry register word) }
{
    for lane in 0..tiles.group.lanes {
        push_load(alloc, tiles, register, word, lane, ops)?;
    }
    ops.push(Op::Tile {
        register: word,
        source: register,
    })?;
    Ok(())
}

/// All tiles.
#[tactic(auto, using(crate::proofs::Made::tile_low))]
pub(crate) fn load_tiles(
    alloc: Global,
    tiles: Tiles<'_>,
    register: u64,
) -> Result<Vec<Op>, NoMemory>
    requires some { 1 ≤ tiles.group.lanes }
    requires few { tiles.group.lanes ≤ 16 }
    requires room { has_room tiles ≡ true }
    requires register { register < 2 ^ 40 }
    ensures { IfOk result (λ ops. plain_ops ops.items ≡ loads_of tiles.entry register) }
{
    let mut ops = Vec::new(alloc);
    for tile in 0..tiles.count / tiles.group.lanes {
        let word = tile * tiles.group.lanes;
        push_load_tile(alloc, tiles, register, word, &mut ops)?;
    }
    Ok(ops)
}

pub(crate) fn appended(ops: Vec<Op>, more: Vec<Op>) -> Result<Vec<Op>, NoMemory>
    ensures { IfOk result (λ all. all.items ≡ ops.items ++ more.items) }
{
    let mut all = ops;
    let mut more = more;
    all.append(&mut more)?;
    Ok(all)
}

/// The operations of rounds that load a row and store these columns, if they can.
pub(crate) fn loaded(
    alloc: Global,
    group: Group,
    regs: u64,
    target: ArrayReference<'_>,
    round: &[Stmt],
    columns: Columns<'_>,
) -> Result<Option<Vec<Op>>, NoMemory>
    requires few { group.lanes ≤ 16 }
    requires some { 1 ≤ group.lanes }
    requires registers { regs < 2 ^ 20 }
    requires entries { has_entries group.lanes group.depth (length (stores (ops_in (plain_body round.now))))
        (option_map plain_factors columns.by) ≡ true }
    ensures { IfOk result (λ made. ops_made made
        ≡ in_loaded_if group.lanes regs group.depth (stored_reference target.entry) (ops_in (plain_body round.now))
        (columns_of columns.entry)) }
{
    let Some(from) = first_load(columns.front) else {
        return Ok(None);
    };
    let count = row_length(from, columns.front);
    if are_behind(group, target, from, count, round, columns) {
        let tiles = Tiles {
            group,
            array: from.array,
            parts: from.parts,
            by: None,
            count,
        };
        let loads = load_tiles(alloc, tiles, 2 * regs)?;
        let more = column_ops(alloc, group, regs, target, behind(count, columns))?;
        return Ok(Some(appended(loads, more)?));
    }
    Ok(None)
}
