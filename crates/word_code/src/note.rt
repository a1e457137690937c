// The note of an operation. A residue is kept up to a multiple of the modulus m, as a word below a known multiple of m: its bound.
// A product by a known factor is Shoup's: with the factor's quotient, factor * base / m rounded down, the high half of one product
// tells which multiple of m the other one is to lose. What is left is below 2m, or 4m where that half is rough, and no reduction
// follows. Sums and differences are those of Harvey's lazy butterflies (Journal of Symbolic Computation, 2014): they are not reduced
// either, and a difference gets a multiple of m, its bias, so that it does not fall below 0. Only where a bound would pass the limit
// of the words are registers reduced, before the operation.

ghost use Rattle.std.specs.Prelude.{◌≡◌, ℕ, ◌+◌, ◌*◌, ◌^◌, ◌<◌, ◌≤◌, min, replicate};
ghost use Rattle.std.specs.Prelude.{slice_set, IfOk, OnOk, IsTrue};
ghost use Rattle.icode.specs.Limits.{is_op_within};
ghost use Rattle.icode.specs.Machine.{with_words};
ghost use Rattle.icode.specs.Plain.{Add, Sub, Neg, Tile, plain_op};
ghost use Rattle.word_code.specs.Words.{quotient_of, product_bound};
ghost use Rattle.word_code.specs.Kinds.{NeedsNoReductions};
ghost use Rattle.word_code.specs.Quicken.{bound_at, array_bound, no_note as no_note_plain};
ghost use Rattle.word_code.specs.Setting.{IsSettingWithin, AreBoundsWithin, settled_in, bound_in};
ghost use Rattle.word_code.specs.Setting.{note_after, note_of_factor, noted_in};
ghost use Rattle.word_code.specs.Views.{lazy_of, plain_note};

use crate::program::{Laziness, Note, Setting};
use crate::settle::{bound_of, greatest_of, put_bound, settle};
use icode::program::{Array, Op};
use memory::NoMemory;
use std::alloc::Global;

pub(crate) fn bound_of_array(laziness: Laziness, array: Array) -> u64
    ensures { result ≡ array_bound (lazy_of laziness).kept array }
{
    match array {
        Array::X => 1,
        Array::Y => 1,
        Array::A => laziness.keep_a,
        Array::B => laziness.keep_b,
    }
}

pub(crate) fn bound_of_product(laziness: Laziness) -> u64
    ensures { result ≡ product_bound (lazy_of laziness).width }
{
    if laziness.rough { 4 } else { 2 }
}

/// The quotient of a factor.
pub(crate) fn quotient(half: u64, modulus: u64, factor: u64) -> u64
    requires factor { factor < modulus }
    requires half { half ≤ 2 ^ 32 }
    ensures { result ≡ quotient_of (half * half) modulus factor }
{
    let base = half as u128 * half as u128;
    (factor as u128 * base / modulus as u128) as u64
}

/// A multiple of the modulus.
fn multiple(limit: u64, modulus: u64, bound: u64) -> u64
    requires room { limit * modulus < 2 ^ 64 }
    requires bound { bound ≤ limit }
    ensures { result ≡ bound * modulus }
{
    bound * modulus
}

fn put_bounds(bounds: &mut [u64], register: u64, count: u64, bound: u64)
    requires { register + count < 2 ^ 64 }
    ensures { bounds.new ≡ with_words bounds.old register (replicate count bound) }
{
    if count == 0 {
        return;
    }
    put_bound(bounds, register, bound);
    put_bounds(bounds, register + 1, count - 1, bound);
}

fn no_note(alloc: Global) -> Note
    ensures { plain_note result ≡ no_note_plain }
{
    Note {
        before: Vec::new(alloc),
        bias: 0,
        quotient: 0,
    }
}

/// What two registers' bounds add up to.
fn sum_of(limit: u64, bounds: &[u64], left: u64, right: u64) -> u64
    requires small { limit < 2 ^ 32 }
    requires sane { (r : ℕ) → bound_at limit bounds.now r ≤ limit }
    ensures { result
        ≡ min limit (bound_at limit bounds.now left + bound_at limit bounds.now right) }
{
    limit.min(bound_of(limit, bounds, left) + bound_of(limit, bounds, right))
}

/// The note of an operation that needs nothing beside it: its register gets the bound.
fn note_of_put(alloc: Global, register: u64, bound: u64, bounds: &mut [u64]) -> Note
    ensures note { plain_note result ≡ no_note_plain }
    ensures after { bounds.new ≡ slice_set bounds.old register bound }
{
    put_bound(bounds, register, bound);
    no_note(alloc)
}

/// The note of a store.
fn note_of_store(
    alloc: Global,
    setting: Setting,
    array: Array,
    register: u64,
    bounds: &mut [u64],
) -> Result<Note, NoMemory>
    requires setting { IsSettingWithin setting }
    requires sane { AreBoundsWithin setting bounds.old }
    ensures note { IfOk result (λ n. let most = 2 * bound_in setting array in
        plain_note n ≡ note_after (settled_in setting register register most bounds.old)) }
    ensures after { OnOk result (let most = 2 * bound_in setting array in
        bounds.new ≡ (settled_in setting register register most bounds.old).bounds) }
{
    let most = 2 * bound_of_array(setting.laziness, array);
    let before = settle(alloc, setting, register, register, most, bounds)?;
    Ok(Note {
        before,
        bias: 0,
        quotient: 0,
    })
}

/// The note of a sum.
fn note_of_sum(
    alloc: Global,
    setting: Setting,
    register: u64,
    left: u64,
    right: u64,
    bounds: &mut [u64],
) -> Result<Note, NoMemory>
    requires setting { IsSettingWithin setting }
    requires sane { AreBoundsWithin setting bounds.old }
    ensures note { IfOk result
        (λ n. plain_note n ≡ (noted_in setting (Add register left right) bounds.old).note) }
    ensures after { OnOk result
        (bounds.new ≡ (noted_in setting (Add register left right) bounds.old).bounds) }
{
    let limit = setting.laziness.limit;
    let before = settle(alloc, setting, left, right, limit, bounds)?;
    let sum = sum_of(limit, bounds, left, right);
    put_bound(bounds, register, sum);
    Ok(Note {
        before,
        bias: 0,
        quotient: 0,
    })
}

/// The note of a difference.
fn note_of_difference(
    alloc: Global,
    setting: Setting,
    register: u64,
    left: u64,
    right: u64,
    bounds: &mut [u64],
) -> Result<Note, NoMemory>
    requires setting { IsSettingWithin setting }
    requires sane { AreBoundsWithin setting bounds.old }
    ensures note { IfOk result
        (λ n. plain_note n ≡ (noted_in setting (Sub register left right) bounds.old).note) }
    ensures after { OnOk result
        (bounds.new ≡ (noted_in setting (Sub register left right) bounds.old).bounds) }
{
    let limit = setting.laziness.limit;
    let before = settle(alloc, setting, left, right, limit, bounds)?;
    let sum = sum_of(limit, bounds, left, right);
    let bias = multiple(limit, setting.modulus, bound_of(limit, bounds, right));
    put_bound(bounds, register, sum);
    Ok(Note {
        before,
        bias,
        quotient: 0,
    })
}

/// The note of a negative.
fn note_of_negative(
    alloc: Global,
    setting: Setting,
    register: u64,
    source: u64,
    bounds: &mut [u64],
) -> Result<Note, NoMemory>
    requires setting { IsSettingWithin setting }
    requires sane { AreBoundsWithin setting bounds.old }
    ensures note { IfOk result
        (λ n. plain_note n ≡ (noted_in setting (Neg register source) bounds.old).note) }
    ensures after { OnOk result
        (bounds.new ≡ (noted_in setting (Neg register source) bounds.old).bounds) }
{
    let limit = setting.laziness.limit;
    let before = settle(alloc, setting, source, source, 2 * (limit - 1), bounds)?;
    let of_source = bound_of(limit, bounds, source);
    let bias = multiple(limit, setting.modulus, of_source);
    put_bound(bounds, register, limit.min(of_source + 1));
    Ok(Note {
        before,
        bias,
        quotient: 0,
    })
}

/// The note of a product by a constant factor.
fn note_of_product(
    alloc: Global,
    setting: Setting,
    register: u64,
    factor: u64,
    bounds: &mut [u64],
) -> Note
    requires setting { IsSettingWithin setting }
    requires factor { factor < setting.modulus }
    ensures note { plain_note result ≡ note_of_factor setting factor }
    ensures after { bounds.new
        ≡ slice_set bounds.old register (product_bound (lazy_of setting.laziness).width) }
{
    put_bound(bounds, register, bound_of_product(setting.laziness));
    Note {
        before: Vec::new(alloc),
        bias: 0,
        quotient: quotient(setting.laziness.half, setting.modulus, factor),
    }
}

/// The note of a tile, whose registers all get the greatest bound.
fn note_of_tile(
    alloc: Global,
    setting: Setting,
    register: u64,
    source: u64,
    bounds: &mut [u64],
) -> Note
    requires setting { IsSettingWithin setting }
    requires register { register < 2 ^ 32 }
    requires source { source < 2 ^ 32 }
    ensures note { plain_note result ≡ no_note_plain }
    ensures after { bounds.new ≡ (noted_in setting (Tile register source) bounds.old).bounds }
{
    let greatest = greatest_of(setting.laziness.limit, bounds, setting.lanes, source);
    put_bounds(bounds, register, setting.lanes, greatest);
    no_note(alloc)
}

/// The note of an operation whatever the bounds of the registers that it reads.
fn note_without_reductions(
    alloc: Global,
    setting: Setting,
    depth: u64,
    op: &Op,
    bounds: &mut [u64],
) -> Note
    requires within { IsTrue (is_op_within setting.modulus (plain_op op.now) depth) }
    requires setting { IsSettingWithin setting }
    requires kind { NeedsNoReductions (plain_op op.now) }
    ensures note { plain_note result ≡ (noted_in setting (plain_op op.now) bounds.old).note }
    ensures after { bounds.new ≡ (noted_in setting (plain_op op.now) bounds.old).bounds }
{
    match op {
        Op::Load {
            register,
            array,
            ..
        } => note_of_put(
            alloc,
            *register,
            bound_of_array(setting.laziness, *array),
            bounds,
        ),
        Op::Zero { register } => note_of_put(alloc, *register, 1, bounds),
        Op::MulConst {
            register,
            factor,
            ..
        } => note_of_product(alloc, setting, *register, *factor, bounds),
        Op::MulTable { register, .. } => {
            note_of_put(alloc, *register, bound_of_product(setting.laziness), bounds)
        }
        Op::Tile { register, source } => note_of_tile(alloc, setting, *register, *source, bounds),
        Op::Store { .. } | Op::Add { .. } | Op::Sub { .. } | Op::Neg { .. } => unreachable!(),
    }
}

/// The note of an operation, with the bounds of the registers after it.
pub(crate) fn note_of(
    alloc: Global,
    setting: Setting,
    depth: u64,
    op: &Op,
    bounds: &mut [u64],
) -> Result<Note, NoMemory>
    requires within { IsTrue (is_op_within setting.modulus (plain_op op.now) depth) }
    requires setting { IsSettingWithin setting }
    requires sane { AreBoundsWithin setting bounds.old }
    ensures note { IfOk result
        (λ n. plain_note n ≡ (noted_in setting (plain_op op.now) bounds.old).note) }
    ensures after { OnOk result
        (bounds.new ≡ (noted_in setting (plain_op op.now) bounds.old).bounds) }
{
    match op {
        Op::Store {
            array,
            register,
            ..
        } => note_of_store(alloc, setting, *array, *register, bounds),
        Op::Add {
            register,
            left,
            right,
        } => note_of_sum(alloc, setting, *register, *left, *right, bounds),
        Op::Sub {
            register,
            left,
            right,
        } => note_of_difference(alloc, setting, *register, *left, *right, bounds),
        Op::Neg { register, source } => {
            note_of_negative(alloc, setting, *register, *source, bounds)
        }
        _ => Ok(note_without_reductions(alloc, setting, depth, op, bounds)),
    }
}
