// The note of an operation on doubles. A number stands for its residue up to a multiple of the modulus, of either
// sign, so differences need nothing beside them. A product takes off the nearest multiple of the modulus, which is
// found by the inverse of the modulus as a double; what the rounding of the product lost is known exactly, by a
// fused operation, and is added again. Only where a sum or a factor would pass what doubles hold are registers
// reduced, before the operation.

ghost use Rattle.std.specs.Prelude.{◌≡◌, ℕ, ◌+◌, ◌*◌, ◌^◌, ◌<◌, ◌≤◌, min, replicate};
ghost use Rattle.std.specs.Prelude.{slice_set, IfOk, OnOk, IsTrue, pos, ℤ};
ghost use Rattle.icode.specs.Limits.{is_op_within};
ghost use Rattle.icode.specs.Machine.{with_words};
ghost use Rattle.icode.specs.Plain.{Add, Sub, Tile, plain_op};
ghost use Rattle.double_code.specs.Doubled.{bound_at, product_noted, store_noted};
ghost use Rattle.double_code.specs.Doubled.{no_note as no_note_plain};
ghost use Rattle.double_code.specs.DoubleProgram.{has_residues};
ghost use Rattle.double_code.specs.Kinds.{NeedsNoReductions};
ghost use Rattle.double_code.specs.Reductions.{limit_of};
ghost use Rattle.double_code.specs.Setting.{IsSettingWithin, AreBoundsWithin, noted_in};
ghost use Rattle.double_code.specs.Views.{plain_note};

use crate::limits::{
    bound_of, bound_of_array, greatest_of, limit_of, most_of, product_bound, put_bound,
};
use crate::program::{Note, Setting};
use crate::settle::settle;
use crate::tables::centred;
use icode::program::{Array, Op};
use memory::NoMemory;
use std::alloc::Global;

fn put_bounds(bounds: &mut [u64], register: u64, count: u64, bound: u64)
    requires { register + count < 2 ^ 64 }
    ensures { bounds.new ≡ with_words bounds.old register (replicate count bound) }
{
    if count == 0 {
        return;
    }
    put_bound(bounds, register, bound);
    put_bounds(bounds, register + 1, count - 1, bound);
}

fn no_note(alloc: Global) -> Note
    ensures { plain_note result ≡ no_note_plain }
{
    Note {
        before: Vec::new(alloc),
        factor: 0,
    }
}

fn has_residues(array: Array) -> bool
    ensures { result ≡ has_residues array }
{
    match array {
        Array::X => true,
        Array::Y => true,
        Array::A => false,
        Array::B => false,
    }
}

/// What two registers' bounds add up to, within the limit.
fn sum_of(modulus: u64, bounds: &[u64], left: u64, right: u64) -> u64
    requires sane { (r : ℕ) → bound_at modulus bounds.now r ≤ limit_of modulus }
    ensures { result ≡ min (limit_of modulus)
        (bound_at modulus bounds.now left + bound_at modulus bounds.now right) }
{
    limit_of(modulus).min(bound_of(modulus, bounds, left) + bound_of(modulus, bounds, right))
}

/// The note of an operation that needs nothing beside it: its register gets the bound.
fn note_of_put(alloc: Global, register: u64, bound: u64, bounds: &mut [u64]) -> Note
    ensures note { plain_note result ≡ no_note_plain }
    ensures after { bounds.new ≡ slice_set bounds.old register bound }
{
    put_bound(bounds, register, bound);
    no_note(alloc)
}

/// The note of a store.
fn note_of_store(
    alloc: Global,
    setting: Setting,
    array: Array,
    register: u64,
    bounds: &mut [u64],
) -> Result<Note, NoMemory>
    requires setting { IsSettingWithin setting }
    requires sane { AreBoundsWithin setting bounds.old }
    ensures note { IfOk result (λ n. plain_note n ≡ (store_noted setting.modulus array register bounds.old).note) }
    ensures after { OnOk result
        (bounds.new ≡ (store_noted setting.modulus array register bounds.old).bounds) }
{
    if has_residues(array) {
        return Ok(no_note(alloc));
    }
    let most = 2 * bound_of_array(setting.modulus, array);
    let before = settle(alloc, setting, register, register, most, bounds)?;
    Ok(Note { before, factor: 0 })
}

/// The note of a sum or of a difference.
fn note_of_sum(
    alloc: Global,
    setting: Setting,
    register: u64,
    left: u64,
    right: u64,
    bounds: &mut [u64],
) -> Result<Note, NoMemory>
    requires setting { IsSettingWithin setting }
    requires sane { AreBoundsWithin setting bounds.old }
    ensures note { IfOk result
        (λ n. plain_note n ≡ (noted_in setting (Add register left right) bounds.old).note) }
    ensures after { OnOk result
        (bounds.new ≡ (noted_in setting (Add register left right) bounds.old).bounds) }
{
    let limit = limit_of(setting.modulus);
    let before = settle(alloc, setting, left, right, limit, bounds)?;
    let sum = sum_of(setting.modulus, bounds, left, right);
    put_bound(bounds, register, sum);
    Ok(Note { before, factor: 0 })
}

/// The note of a product by this factor.
fn note_of_product(
    alloc: Global,
    setting: Setting,
    register: u64,
    source: u64,
    factor: i64,
    bounds: &mut [u64],
) -> Result<Note, NoMemory>
    requires setting { IsSettingWithin setting }
    requires sane { AreBoundsWithin setting bounds.old }
    ensures note { IfOk result (λ n. plain_note n
        ≡ (product_noted setting.modulus register source factor bounds.old).note) }
    ensures after { OnOk result (bounds.new
        ≡ (product_noted setting.modulus register source factor bounds.old).bounds) }
{
    let most = 2 * most_of(setting.modulus);
    let before = settle(alloc, setting, source, source, most, bounds)?;
    let bound = product_bound(setting.modulus, bound_of(setting.modulus, bounds, source));
    put_bound(bounds, register, bound);
    Ok(Note { before, factor })
}

/// The note of a tile, whose registers all get the greatest bound.
fn note_of_tile(
    alloc: Global,
    setting: Setting,
    register: u64,
    source: u64,
    bounds: &mut [u64],
) -> Note
    requires setting { IsSettingWithin setting }
    requires register { register < 2 ^ 32 }
    requires source { source < 2 ^ 32 }
    ensures note { plain_note result ≡ no_note_plain }
    ensures after { bounds.new ≡ (noted_in setting (Tile register source) bounds.old).bounds }
{
    let greatest = greatest_of(setting.modulus, bounds, setting.lanes, source);
    put_bounds(bounds, register, setting.lanes, greatest);
    no_note(alloc)
}

/// The note of an operation whatever the bounds of the registers that it reads.
fn note_without_reductions(
    alloc: Global,
    setting: Setting,
    depth: u64,
    op: &Op,
    bounds: &mut [u64],
) -> Note
    requires within { IsTrue (is_op_within setting.modulus (plain_op op.now) depth) }
    requires setting { IsSettingWithin setting }
    requires kind { NeedsNoReductions (plain_op op.now) }
    ensures note { plain_note result ≡ (noted_in setting (plain_op op.now) bounds.old).note }
    ensures after { bounds.new ≡ (noted_in setting (plain_op op.now) bounds.old).bounds }
{
    match op {
        Op::Load {
            register,
            array,
            ..
        } => note_of_put(
            alloc,
            *register,
            bound_of_array(setting.modulus, *array),
            bounds,
        ),
        Op::Zero { register } => note_of_put(alloc, *register, 0, bounds),
        Op::Neg { register, source } => {
            let bound = bound_of(setting.modulus, bounds, *source);
            note_of_put(alloc, *register, bound, bounds)
        }
        Op::Tile { register, source } => note_of_tile(alloc, setting, *register, *source, bounds),
        Op::Store { .. }
        | Op::Add { .. }
        | Op::Sub { .. }
        | Op::MulConst { .. }
        | Op::MulTable { .. } => unreachable!(),
    }
}

/// The note of an operation, with the bounds of the registers after it.
pub(crate) fn note_of(
    alloc: Global,
    setting: Setting,
    depth: u64,
    op: &Op,
    bounds: &mut [u64],
) -> Result<Note, NoMemory>
    requires within { IsTrue (is_op_within setting.modulus (plain_op op.now) depth) }
    requires setting { IsSettingWithin setting }
    requires sane { AreBoundsWithin setting bounds.old }
    ensures note { IfOk result
        (λ n. plain_note n ≡ (noted_in setting (plain_op op.now) bounds.old).note) }
    ensures after { OnOk result
        (bounds.new ≡ (noted_in setting (plain_op op.now) bounds.old).bounds) }
{
    match op {
        Op::Store {
            array,
            register,
            ..
        } => note_of_store(alloc, setting, *array, *register, bounds),
        Op::Add {
            register,
            left,
            right,
        } => note_of_sum(alloc, setting, *register, *left, *right, bounds),
        Op::Sub {
            register,
            left,
            right,
        } => note_of_sum(alloc, setting, *register, *left, *right, bounds),
        Op::MulConst {
            register,
            source,
            factor,
        } => note_of_product(
            alloc,
            setting,
            *register,
            *source,
            centred(setting.modulus, *factor),
            bounds,
        ),
        Op::MulTable {
            register,
            source,
            ..
        } => note_of_product(alloc, setting, *register, *source, 0, bounds),
        _ => Ok(note_without_reductions(alloc, setting, depth, op, bounds)),
    }
}
