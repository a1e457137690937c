// Which way a number of rounds becomes one of lanes, and its operations. The first way that is open is taken. In rows each
// operation is done on all lanes as it stands: the rounds load and store words one after the other. In columns each round stores
// a row of words of its own, so tiles turn the registers before they are stored, and products may come after the tiles. Where it
// is the loads that take a row for each round, tiles turn what is loaded, and rows or columns come after them.

ghost use Rattle.std.specs.Prelude.{◌≡◌, ◌-◌, ◌<◌, ◌≤◌, ◌^◌, ◌*◌, true, IfOk};
ghost use Rattle.std.specs.List.{list_all};
ghost use Rattle.icode.specs.Plain.{plain_body};
ghost use Rattle.nests.specs.Places.{stride};
ghost use Rattle.nests.specs.Views.{plain_parts};
ghost use Rattle.nests.specs.Rounds.{ops_in};
ghost use Rattle.loop_lanes.specs.Rows.{others, is_by_lane};
ghost use Rattle.loop_lanes.specs.Views.{plain_ops, plain_factors, are_factors, stored_reference, ops_made, rows_of};
ghost use Rattle.loop_lanes.specs.Views.{by_lane_if, loaded_rows_if, loaded_columns_if, loaded_if, loaded_factored_if};
ghost use Rattle.loop_lanes.specs.Views.{ops_if, factored_if};

use crate::columns::{
    ArrayReference, Columns, Factors, Group, are_columns, are_products, count_stores,
    factored_registers, first_factors, others,
};
use crate::loads::{appended, are_rows_behind, first_load, load_tiles, loaded, row_length};
use crate::rows::{are_from, are_rows, put_in_row, stored_constants, stored_registers};
use crate::tiles::{Tiles, column_ops};
use icode::program::{Op, Stmt};
use memory::NoMemory;
use nests::{are_linear, stride};
use std::alloc::Global;

// Copies of the operations.
fn copied_ops(alloc: Global, round: &[Stmt]) -> Result<Vec<Op>, NoMemory>
    ensures { IfOk result (λ ops. plain_ops ops.items ≡ ops_in (plain_body round.now)) }
{
    let mut ops = Vec::new(alloc);
    for stmt in round {
        if let Stmt::Do(op) = stmt {
            ops.push(op.copied(alloc)?)?;
        }
    }
    Ok(ops)
}

// The operations in rows.
fn rows(
    alloc: Global,
    group: Group,
    target: ArrayReference<'_>,
    ops: &[Op],
) -> Result<Vec<Op>, NoMemory>
    requires few { group.lanes ≤ 16 }
    requires unit { stride group.depth (plain_parts target.parts.now) ≡ 1 }
    requires by_lane { list_all (is_by_lane group.depth (stored_reference target)) (plain_ops ops.now) ≡ true }
    ensures { IfOk result (λ rows. plain_ops rows.items ≡ rows_of group.lanes group.depth (plain_ops ops.now)) }
{
    let mut rows = Vec::new(alloc);
    for op in ops {
        let mut copy = op.copied(alloc)?;
        put_in_row(group.lanes, group.depth, &mut copy);
        rows.push(copy)?;
    }
    Ok(rows)
}

// Whether these are products by the factors of registers below the bound, stored in their order, and `count` in number.
fn are_factors(
    group: Group,
    by: Factors<'_>,
    bound: u64,
    count: u64,
    products: &[Op],
    stored: &[u64],
) -> bool
    ensures { result
        ≡ are_factors group.lanes group.depth (plain_factors by.entry) bound count (plain_ops products.now) stored.now }
{
    let width = group.lanes as u128 * stride(group.depth, by.parts) as u128;
    (are_linear(by.parts) && by.constant as u128 + (count as u128 + width) < (1 << 32))
        && (are_products(by, bound, products) && are_from(bound as u128, stored))
}

// The operations in columns that are multiplied after the tiles, if they can be so.
fn factored(
    alloc: Global,
    group: Group,
    regs: u64,
    target: ArrayReference<'_>,
    round: &[Stmt],
    ops: &[Op],
) -> Result<Option<Vec<Op>>, NoMemory>
    requires some { 1 ≤ group.lanes }
    requires few { group.lanes ≤ 16 }
    requires registers { regs < 2 ^ 20 }
    requires ops { plain_ops ops.now ≡ others (ops_in (plain_body round.now)) }
    ensures { IfOk result (λ made. ops_made made
        ≡ factored_if group.lanes regs group.depth (stored_reference target.entry) (ops_in (plain_body round.now))) }
{
    let count = count_stores(round);
    let stored = stored_registers(alloc, round)?;
    let bound = (ops.len() as u64).saturating_sub(count);
    let (front, products) = ops.split_at(bound as usize);
    let Some(by) = first_factors(products) else {
        return Ok(None);
    };
    let turned = factored_registers(alloc, products)?;
    let columns = Columns {
        front,
        turned: &turned,
        by: Some(by),
    };
    if are_factors(group, by, bound, count, products, &stored)
        && are_columns(group, target.array, target.parts, round, columns)
    {
        return Ok(Some(column_ops(alloc, group, regs, target, columns)?));
    }
    Ok(None)
}

// The operations of rounds whose loads are all by lane, if they become lanes.
fn by_lane_ops(
    alloc: Global,
    group: Group,
    regs: u64,
    target: ArrayReference<'_>,
    round: &[Stmt],
) -> Result<Option<Vec<Op>>, NoMemory>
    requires some { 1 ≤ group.lanes }
    requires few { group.lanes ≤ 16 }
    requires registers { regs < 2 ^ 20 }
    ensures { IfOk result (λ made. ops_made made
        ≡ by_lane_if group.lanes regs group.depth (stored_reference target.entry) (ops_in (plain_body round.now))) }
{
    let constants = stored_constants(alloc, round)?;
    if are_rows(
        group.lanes,
        group.depth,
        target.array,
        target.parts,
        round,
        &constants,
    ) {
        let ops = copied_ops(alloc, round)?;
        return Ok(Some(rows(alloc, group, target, &ops)?));
    }
    let front = others(alloc, round)?;
    let turned = stored_registers(alloc, round)?;
    let columns = Columns {
        front: &front,
        turned: &turned,
        by: None,
    };
    if are_columns(group, target.array, target.parts, round, columns) {
        return Ok(Some(column_ops(alloc, group, regs, target, columns)?));
    }
    factored(alloc, group, regs, target, round, &front)
}

// The operations of rounds that load a row and store rows, if they can.
fn loaded_rows(
    alloc: Global,
    group: Group,
    regs: u64,
    target: ArrayReference<'_>,
    round: &[Stmt],
) -> Result<Option<Vec<Op>>, NoMemory>
    requires few { group.lanes ≤ 16 }
    requires some { 1 ≤ group.lanes }
    requires registers { regs < 2 ^ 20 }
    ensures { IfOk result (λ made. ops_made made
        ≡ loaded_rows_if group.lanes regs group.depth (stored_reference target.entry) (ops_in (plain_body round.now))) }
{
    let ops = copied_ops(alloc, round)?;
    let constants = stored_constants(alloc, round)?;
    let Some(from) = first_load(&ops) else {
        return Ok(None);
    };
    let count = row_length(from, &ops);
    if are_rows_behind(group, target, from, count, &ops, &constants) {
        let tiles = Tiles {
            group,
            array: from.array,
            parts: from.parts,
            by: None,
            count,
        };
        let loads = load_tiles(alloc, tiles, 2 * regs)?;
        let (_, rest) = ops.split_at(count as usize);
        let more = rows(alloc, group, target, rest)?;
        return Ok(Some(appended(loads, more)?));
    }
    Ok(None)
}

// The operations of rounds that load rows, and are multiplied after the tiles, if they become lanes.
fn loaded_factored(
    alloc: Global,
    group: Group,
    regs: u64,
    target: ArrayReference<'_>,
    round: &[Stmt],
    ops: &[Op],
) -> Result<Option<Vec<Op>>, NoMemory>
    requires some { 1 ≤ group.lanes }
    requires few { group.lanes ≤ 16 }
    requires registers { regs < 2 ^ 20 }
    requires ops { plain_ops ops.now ≡ others (ops_in (plain_body round.now)) }
    ensures { IfOk result (λ made. ops_made made
        ≡ loaded_factored_if group.lanes regs group.depth (stored_reference target.entry)
        (ops_in (plain_body round.now))) }
{
    let count = count_stores(round);
    let stored = stored_registers(alloc, round)?;
    let bound = (ops.len() as u64).saturating_sub(count);
    let (front, products) = ops.split_at(bound as usize);
    let Some(by) = first_factors(products) else {
        return Ok(None);
    };
    if !are_factors(group, by, bound, count, products, &stored) {
        return Ok(None);
    }
    let turned = factored_registers(alloc, products)?;
    let columns = Columns {
        front,
        turned: &turned,
        by: Some(by),
    };
    loaded(alloc, group, regs, target, round, columns)
}

// The operations of rounds that load rows and store columns, if they become lanes.
fn loaded_columns(
    alloc: Global,
    group: Group,
    regs: u64,
    target: ArrayReference<'_>,
    round: &[Stmt],
) -> Result<Option<Vec<Op>>, NoMemory>
    requires some { 1 ≤ group.lanes }
    requires few { group.lanes ≤ 16 }
    requires registers { regs < 2 ^ 20 }
    ensures { IfOk result (λ made. ops_made made
        ≡ loaded_columns_if group.lanes regs group.depth (stored_reference target.entry) (ops_in (plain_body round.now))) }
{
    let front = others(alloc, round)?;
    let turned = stored_registers(alloc, round)?;
    let columns = Columns {
        front: &front,
        turned: &turned,
        by: None,
    };
    match loaded(alloc, group, regs, target, round, columns)? {
        Some(ops) => Ok(Some(ops)),
        None => {
            let made = loaded_factored(alloc, group, regs, target, round, &front)?;
            Ok(made)
        }
    }
}

// The operations of rounds that load rows, if they become lanes.
fn loaded_ops(
    alloc: Global,
    group: Group,
    regs: u64,
    target: ArrayReference<'_>,
    round: &[Stmt],
) -> Result<Option<Vec<Op>>, NoMemory>
    requires some { 1 ≤ group.lanes }
    requires few { group.lanes ≤ 16 }
    requires registers { regs < 2 ^ 20 }
    ensures { IfOk result (λ made. ops_made made
        ≡ loaded_if group.lanes regs group.depth (stored_reference target.entry) (ops_in (plain_body round.now))) }
{
    match loaded_rows(alloc, group, regs, target, round)? {
        Some(ops) => Ok(Some(ops)),
        None => {
            let made = loaded_columns(alloc, group, regs, target, round)?;
            Ok(made)
        }
    }
}

/// The operations of rounds that become lanes, on registers below this one, if they can.
pub(crate) fn laned_ops(
    alloc: Global,
    group: Group,
    regs: u64,
    target: ArrayReference<'_>,
    round: &[Stmt],
) -> Result<Option<Vec<Op>>, NoMemory>
    requires some { 1 ≤ group.lanes }
    requires few { group.lanes ≤ 16 }
    requires registers { regs < 2 ^ 20 }
    ensures { IfOk result (λ made. ops_made made
        ≡ ops_if group.lanes regs group.depth (stored_reference target.entry) (ops_in (plain_body round.now))) }
{
    if !are_linear(target.parts) {
        return Ok(None);
    }
    match by_lane_ops(alloc, group, regs, target, round)? {
        Some(ops) => Ok(Some(ops)),
        None => {
            let made = loaded_ops(alloc, group, regs, target, round)?;
            Ok(made)
        }
    }
}
