// Rounds of lanes that store columns, as operations: those in front of the tiles, and for each tile the turned registers, their
// products by a table's entries, if there are any, and their stores, row by row.

ghost use Rattle.std.specs.Prelude.{◌≡◌, ◌+◌, ◌*◌, ◌^◌, ◌<◌, ◌≤◌, ◌++◌, true, length, IfOk, OnOk};
ghost use Rattle.std.specs.List.{list_all};
ghost use Rattle.icode.specs.Plain.{Sum, plain_expr, plain_op};
ghost use Rattle.nests.specs.Places.{stride};
ghost use Rattle.nests.specs.Views.{plain_parts, stored_into};
ghost use Rattle.loop_lanes.specs.Columns.{renumbered, renumbered_op};
ghost use Rattle.loop_lanes.specs.Rows.{is_by_lane, widened_parts};
ghost use Rattle.loop_lanes.specs.Views.{plain_ops, laned_front, has_room, product_of, row_of, tile_of, tiles_of};
ghost use Rattle.loop_lanes.specs.Views.{can_tile, laned_columns};

use crate::columns::{ArrayReference, Columns, Factors, Group};
use crate::rows::{put_in_row, widen_parts};
use icode::program::{Array, Expr, Op, Part};
use memory::NoMemory;
use nests::stride;
use std::alloc::Global;

/// Tiles: how many rounds become lanes, where they store, and by what they multiply before.
#[derive(Clone, Copy)]
pub(crate) struct Tiles<'a> {
    pub(crate) group: Group,
    pub(crate) array: Array,
    pub(crate) parts: &'a [Part],
    pub(crate) by: Option<Factors<'a>>,
    /// How many registers are turned.
    pub(crate) count: u64,
}

// ---- registers that are turned get numbers of their own

fn renumbered(at: u64, turned: &[u64], register: u64) -> u64
    requires { at + length turned.now < 2 ^ 64 }
    ensures { result ≡ renumbered at turned.now register }
{
    let Some((first, rest)) = turned.split_first() else {
        return register;
    };
    if register == *first {
        at
    } else {
        renumbered(at + 1, rest, register)
    }
}

fn renumber_op(at: u64, turned: &[u64], op: &mut Op)
    requires { at + length turned.now < 2 ^ 64 }
    ensures { plain_op op.new ≡ renumbered_op (renumbered at turned.now) (plain_op op.old) }
{
    match op {
        Op::Load { register, .. } => *register = renumbered(at, turned, *register),
        Op::Store { register, .. } => *register = renumbered(at, turned, *register),
        Op::Zero { register } => *register = renumbered(at, turned, *register),
        Op::Add {
            register,
            left,
            right,
        } => {
            *register = renumbered(at, turned, *register);
            *left = renumbered(at, turned, *left);
            *right = renumbered(at, turned, *right);
        }
        Op::Sub {
            register,
            left,
            right,
        } => {
            *register = renumbered(at, turned, *register);
            *left = renumbered(at, turned, *left);
            *right = renumbered(at, turned, *right);
        }
        Op::Neg { register, source } => {
            *register = renumbered(at, turned, *register);
            *source = renumbered(at, turned, *source);
        }
        Op::MulConst {
            register,
            source,
            ..
        } => {
            *register = renumbered(at, turned, *register);
            *source = renumbered(at, turned, *source);
        }
        Op::MulTable {
            register,
            source,
            ..
        } => {
            *register = renumbered(at, turned, *register);
            *source = renumbered(at, turned, *source);
        }
        Op::Tile { register, source } => {
            *register = renumbered(at, turned, *register);
            *source = renumbered(at, turned, *source);
        }
    }
}

// ---- places

fn copied_parts(alloc: Global, parts: &[Part]) -> Result<Vec<Part>, NoMemory>
    ensures { IfOk result (λ copies. plain_parts copies.items ≡ plain_parts parts.now) }
{
    let mut copies = Vec::new(alloc);
    for part in parts {
        copies.push(part.copied(alloc)?)?;
    }
    Ok(copies)
}

/// The place a number of lanes after one of this constant, where a step of the loop is as wide as the group.
pub(crate) fn placed(
    alloc: Global,
    group: Group,
    lane: u64,
    from: u64,
    parts: &[Part],
) -> Result<Expr, NoMemory>
    requires lane { lane < group.lanes }
    requires from { from < 2 ^ 40 }
    requires wide { group.lanes * stride group.depth (plain_parts parts.now) < 2 ^ 32 }
    ensures { IfOk result (λ place. plain_expr place
        ≡ Sum (from + stride group.depth (plain_parts parts.now) * lane)
        (widened_parts group.lanes group.depth (plain_parts parts.now))) }
{
    let constant = from + stride(group.depth, parts) * lane;
    let mut parts = copied_parts(alloc, parts)?;
    widen_parts(group.lanes, group.depth, &mut parts);
    Ok(Expr { constant, parts })
}

// ---- the operations

// The operations before the tiles.
fn front_ops(
    alloc: Global,
    group: Group,
    from: u64,
    target: ArrayReference<'_>,
    columns: Columns<'_>,
) -> Result<Vec<Op>, NoMemory>
    requires registers { from + length columns.turned.now < 2 ^ 64 }
    requires few { group.lanes ≤ 16 }
    requires wide { group.lanes * stride group.depth (plain_parts target.parts.now) < 2 ^ 32 }
    requires by_lane { list_all (is_by_lane group.depth (stored_into target.array target.parts.now))
        (plain_ops columns.front.now) ≡ true }
    ensures { IfOk result (λ ops. plain_ops ops.items
        ≡ laned_front group.lanes from group.depth columns.entry.turned.now (plain_ops columns.entry.front.now)) }
{
    let mut ops = Vec::new(alloc);
    for op in columns.front {
        let mut copy = op.copied(alloc)?;
        put_in_row(group.lanes, group.depth, &mut copy);
        renumber_op(from, columns.turned, &mut copy);
        ops.push(copy)?;
    }
    Ok(ops)
}

// The product of a row of a tile, from this word on, if there is one.
fn push_product(
    alloc: Global,
    tiles: Tiles<'_>,
    register: u64,
    word: u64,
    lane: u64,
    ops: &mut Vec<Op>,
) -> Result<(), NoMemory>
    requires room { has_room tiles ≡ true }
    requires word { word < tiles.count }
    requires lane { lane < tiles.group.lanes }
    ensures { OnOk result (plain_ops ops.new.items
        ≡ plain_ops ops.old.items ++ product_of tiles.entry register word lane) }
{
    let Some(by) = tiles.by else {
        return Ok(());
    };
    let place = placed(alloc, tiles.group, lane, by.constant + word, by.parts)?;
    ops.push(Op::MulTable {
        register,
        source: register,
        table: by.table,
        place,
        step: 1,
    })?;
    Ok(())
}

// A row of a tile of the registers from this one on, which is stored from this word on.
fn push_row(
    alloc: Global,
    tiles: Tiles<'_>,
    register: u64,
    word: u64,
    lane: u64,
    ops: &mut Vec<Op>,
) -> Result<(), NoMemory>
    requires few { tiles.group.lanes ≤ 16 }
    requires room { has_room tiles ≡ true }
    requires register { register < 2 ^ 40 }
    requires word { word < tiles.count }
    requires lane { lane < tiles.group.lanes }
    ensures { OnOk result (plain_ops ops.new.items ≡ plain_ops ops.old.items ++ row_of tiles.entry register word lane) }
{
    push_product(alloc, tiles, register + lane, word, lane, ops)?;
    let place = placed(alloc, tiles.group, lane, word, tiles.parts)?;
    ops.push(Op::Store {
        array: tiles.array,
        place,
        register: register + lane,
    })?;
    Ok(())
}

// The tile of the registers from the source on, which are turned into those from the register on, and stored from the word on.
fn push_tile(
    alloc: Global,
    tiles: Tiles<'_>,
    register: u64,
    source: u64,
    word: u64,
    ops: &mut Vec<Op>,
) -> Result<(), NoMemory>
    requires few { tiles.group.lanes ≤ 16 }
    requires room { has_room tiles ≡ true }
    requires register { register < 2 ^ 40 }
    requires word { word < tiles.count }
    ensures { OnOk result (plain_ops ops.new.items
        ≡ plain_ops ops.old.items ++ tile_of tiles.entry register source word) }
{
    ops.push(Op::Tile { register, source })?;
    for lane in 0..tiles.group.lanes {
        push_row(alloc, tiles, register, word, lane, ops)?;
    }
    Ok(())
}

// The tiles of the registers from this one on.
#[tactic(auto, using(crate::proofs::Made::tile_low))]
fn push_tiles(alloc: Global, tiles: Tiles<'_>, from: u64, ops: &mut Vec<Op>) -> Result<(), NoMemory>
    requires some { 1 ≤ tiles.group.lanes }
    requires few { tiles.group.lanes ≤ 16 }
    requires room { has_room tiles ≡ true }
    requires from { from < 2 ^ 32 }
    ensures { OnOk result (plain_ops ops.new.items ≡ plain_ops ops.old.items ++ tiles_of tiles.entry from) }
{
    for tile in 0..tiles.count / tiles.group.lanes {
        let word = tile * tiles.group.lanes;
        push_tile(
            alloc,
            tiles,
            from + tiles.count + word,
            from + word,
            word,
            ops,
        )?;
    }
    Ok(())
}

/// The operations of rounds that store columns, on registers below this one.
pub(crate) fn column_ops(
    alloc: Global,
    group: Group,
    regs: u64,
    target: ArrayReference<'_>,
    columns: Columns<'_>,
) -> Result<Vec<Op>, NoMemory>
    requires few { group.lanes ≤ 16 }
    requires some { 1 ≤ group.lanes }
    requires registers { regs < 2 ^ 20 }
    requires room { can_tile group target columns ≡ true }
    requires by_lane { list_all (is_by_lane group.depth (stored_into target.array target.parts.now))
        (plain_ops columns.front.now) ≡ true }
    ensures { IfOk result (λ ops. plain_ops ops.items
        ≡ laned_columns group regs target.entry columns.entry) }
{
    let mut ops = front_ops(alloc, group, regs, target, columns)?;
    let tiles = Tiles {
        group,
        array: target.array,
        parts: target.parts,
        by: columns.by,
        count: columns.turned.len() as u64,
    };
    push_tiles(alloc, tiles, regs, &mut ops)?;
    Ok(ops)
}
