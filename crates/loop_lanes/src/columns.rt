// Whether rounds can store columns. Each of the rounds that become lanes stores words one after the other, but a register on
// lanes has one word of every round. As many registers as there are lanes are a square of words. A tile turns it, so that each
// register has the words of one round, and they are stored row by row.

ghost use Rattle.std.specs.Prelude.{◌≡◌, ◌≤◌, ◌==◌, not, length, IfOk, option_map};
ghost use Rattle.std.specs.List.{list_all};
ghost use Rattle.icode.specs.Plain.{plain_op, plain_body};
ghost use Rattle.nests.specs.Views.{stored_into};
ghost use Rattle.loop_lanes.specs.Rows.{is_store, stores, others, stored_constants, is_by_lane, are_from};
ghost use Rattle.nests.specs.Rounds.{ops_in};
ghost use Rattle.loop_lanes.specs.Columns.{are_distinct, are_products, factored_registers, first_factors, are_tiles};
ghost use Rattle.loop_lanes.specs.Columns.{are_columns};
ghost use Rattle.loop_lanes.specs.Views.{plain_ops, plain_factors, columns_of, is_product};

use crate::rows::is_by_lane;
use icode::program::{Array, Op, Part, Stmt};
use memory::NoMemory;
use nests::{same_parts, stride};
use std::alloc::Global;

/// How many rounds become lanes, and the depth of their loop.
#[derive(Clone, Copy)]
pub(crate) struct Group {
    pub(crate) lanes: u64,
    pub(crate) depth: u64,
}

/// Where a round stores: into which array, and by which parts of its places.
#[derive(Clone, Copy)]
pub(crate) struct ArrayReference<'a> {
    pub(crate) array: Array,
    pub(crate) parts: &'a [Part],
}

/// What products are by: a table, and where their entries begin.
#[derive(Clone, Copy)]
pub(crate) struct Factors<'a> {
    pub(crate) table: u64,
    pub(crate) constant: u64,
    pub(crate) parts: &'a [Part],
}

/// The operations before the tiles, the registers that are turned, and what they are then multiplied by, if by anything.
#[derive(Clone, Copy)]
pub(crate) struct Columns<'a> {
    pub(crate) front: &'a [Op],
    pub(crate) turned: &'a [u64],
    pub(crate) by: Option<Factors<'a>>,
}

// ---- the operations of a round

fn is_store(op: &Op) -> bool
    ensures { result ≡ is_store (plain_op op.now) }
{
    match op {
        Op::Store { .. } => true,
        Op::Load { .. } => false,
        Op::Zero { .. } => false,
        Op::Add { .. } => false,
        Op::Sub { .. } => false,
        Op::Neg { .. } => false,
        Op::MulConst { .. } => false,
        Op::MulTable { .. } => false,
        Op::Tile { .. } => false,
    }
}

/// Copies of the operations that are no stores.
pub(crate) fn others(alloc: Global, round: &[Stmt]) -> Result<Vec<Op>, NoMemory>
    ensures { IfOk result (λ ops. plain_ops ops.items ≡ others (ops_in (plain_body round.now))) }
{
    let mut ops = Vec::new(alloc);
    for stmt in round {
        if let Stmt::Do(op) = stmt {
            if !is_store(op) {
                ops.push(op.copied(alloc)?)?;
            }
        }
    }
    Ok(ops)
}

/// How many stores there are.
pub(crate) fn count_stores(round: &[Stmt]) -> u64
    ensures { result ≡ length (stores (ops_in (plain_body round.now))) }
{
    let mut count = 0;
    for stmt in round {
        if let Stmt::Do(op) = stmt {
            if is_store(op) {
                count += 1;
            }
        }
    }
    count
}

// Whether the stores' constants are 0, 1 and so on, in their order.
fn are_stored_in_order(round: &[Stmt]) -> bool
    ensures { result ≡ are_from 0 (stored_constants (ops_in (plain_body round.now))) }
{
    let mut next = 0;
    for stmt in round {
        if let Stmt::Do(Op::Store { place, .. }) = stmt {
            if place.constant != next {
                return false;
            }
            next += 1;
        }
    }
    true
}

fn are_stores_by_lane(depth: u64, array: Array, parts: &[Part], round: &[Stmt]) -> bool
    ensures { let to = stored_into array parts.now in
        result ≡ list_all (is_by_lane depth to) (stores (ops_in (plain_body round.now))) }
{
    for stmt in round {
        if let Stmt::Do(op) = stmt {
            if is_store(op) && !is_by_lane(depth, array, parts, op) {
                return false;
            }
        }
    }
    true
}

/// Whether each can be done in lanes.
pub(crate) fn are_ops_by_lane(depth: u64, array: Array, parts: &[Part], ops: &[Op]) -> bool
    ensures { let to = stored_into array parts.now in
        result ≡ list_all (is_by_lane depth to) (plain_ops ops.now) }
{
    for op in ops {
        if !is_by_lane(depth, array, parts, op) {
            return false;
        }
    }
    true
}

// ---- registers

fn is_absent(register: u64, registers: &[u64]) -> bool
    ensures { result ≡ list_all (λ y. not (register == y)) registers.now }
{
    for other in registers {
        if register == *other {
            return false;
        }
    }
    true
}

fn are_distinct(registers: &[u64]) -> bool
    ensures { result ≡ are_distinct registers.now }
{
    let Some((first, rest)) = registers.split_first() else {
        return true;
    };
    is_absent(*first, rest) && are_distinct(rest)
}

// ---- products

/// What the first operation multiplies by, if it is a product.
pub(crate) fn first_factors<'a>(ops: &'a [Op]) -> Option<Factors<'a>>
    ensures { option_map plain_factors result ≡ first_factors (plain_ops ops.now) }
{
    match ops.first() {
        Some(Op::MulTable { table, place, .. }) => Some(Factors {
            table: *table,
            constant: place.constant,
            parts: &place.parts,
        }),
        _ => None,
    }
}

// Whether it is a product of a register below the bound by the entry of this number.
fn is_product(by: Factors<'_>, bound: u64, number: u64, op: &Op) -> bool
    ensures { result ≡ is_product (plain_factors by.entry) bound number (plain_op op.now) }
{
    match op {
        Op::MulTable {
            source,
            table,
            place,
            ..
        } => {
            let constant = by.constant as u128 + number as u128;
            *source < bound
                && (*table == by.table
                    && (place.constant as u128 == constant && same_parts(&place.parts, by.parts)))
        }
        _ => false,
    }
}

/// Whether they are products of registers below the bound, by entries one after the other.
pub(crate) fn are_products(by: Factors<'_>, bound: u64, ops: &[Op]) -> bool
    ensures { result ≡ are_products (plain_factors by.entry) bound 0 (plain_ops ops.now) }
{
    let mut number = 0;
    for op in ops {
        if !is_product(by, bound, number, op) {
            return false;
        }
        number += 1;
    }
    true
}

/// The registers that are multiplied.
pub(crate) fn factored_registers(alloc: Global, ops: &[Op]) -> Result<Vec<u64>, NoMemory>
    ensures { IfOk result (λ rs. rs.items ≡ factored_registers (plain_ops ops.now)) }
{
    let mut registers = Vec::new(alloc);
    for op in ops {
        if let Op::MulTable { source, .. } = op {
            registers.push(*source)?;
        }
    }
    Ok(registers)
}

// ---- columns

fn are_tiles(group: Group, parts: &[Part], round: &[Stmt], columns: Columns<'_>) -> bool
    requires { 1 ≤ group.lanes }
    ensures { (array : Array) → result
        ≡ are_tiles group.lanes group.depth (stored_into array parts.now) (ops_in (plain_body round.now))
        (columns_of columns.entry) }
{
    let count = columns.turned.len() as u64;
    let step = stride(group.depth, parts);
    let width = group.lanes as u128 * step as u128;
    (count_stores(round) == count
        && (count % group.lanes == 0 && count <= columns.front.len() as u64))
        && (are_stored_in_order(round) && (count <= step && (1 << 20) + width < (1 << 32)))
}

/// Whether whole tiles are stored in their order, into words of their own, of registers that are put in lanes.
pub(crate) fn are_columns(
    group: Group,
    array: Array,
    parts: &[Part],
    round: &[Stmt],
    columns: Columns<'_>,
) -> bool
    requires { 1 ≤ group.lanes }
    ensures { result
        ≡ are_columns group.lanes group.depth (stored_into array parts.now) (ops_in (plain_body round.now))
        (columns_of columns.entry) }
{
    are_tiles(group, parts, round, columns)
        && (are_stores_by_lane(group.depth, array, parts, round)
            && (are_ops_by_lane(group.depth, array, parts, columns.front)
                && are_distinct(columns.turned)))
}
