//! Index functions at places that are sums of loop variables.
#![tactic(auto)]

mod display;
mod parts;
mod sums;

ghost use Rattle.std.specs.Prelude.{◌+◌, ◌*◌, ◌/◌, ◌%◌, ◌^◌, ◌<◌, ◌≤◌, IfOk};
ghost use Rattle.index_fn.specs.Index.{mapping_of};
ghost use Rattle.index_fn.specs.Mapping.{at, IsDefinedAt, IsWellFormed, Strided, ThomasBack, ThomasOut};
ghost use Rattle.perm_algebra.specs.Affine.{HasNoList, SimplifiedKeeps};
ghost use Rattle.perm_algebra.specs.Contract.{EachValue, FitsOver, HasRoomOver, IsImage, IsSimplified, IsSumOver};
ghost use Rattle.perm_algebra.specs.Room.{RoomDecided};
ghost use Rattle.perm_algebra.specs.ShapeLaw.{ShapeKept};

use index_fn::Index;
use memory::NoMemory;
pub use parts::{Parts, divide, greatest, others, reduce, residues};
use std::alloc::Global;
pub use sums::{both, copy, multiple};

/// A sum of a constant and of multiples of variables, remainders and quotients. Each part has its factor, and then the
/// rest of the sum; the constant ends it. A variable is a number: what it runs below is the count at that number.
#[derive(Drop)]
pub enum Affine {
    Constant(u64),
    /// A factor, a variable, and the rest.
    Variable(u64, u64, Box<Affine>),
    /// A factor, of what sum, the remainder by which divisor, and the rest.
    Remainder(u64, Box<Affine>, u64, Box<Affine>),
    /// A factor, of what sum, the quotient by which divisor, and the rest.
    Quotient(u64, Box<Affine>, u64, Box<Affine>),
}

/// The function `f` at the place `arg`, where the variable d runs below `counts[d]`.
pub fn simplify(alloc: Global, f: &Index, arg: &Affine, counts: &[u64]) -> Result<Affine, NoMemory>
    requires formed { IsWellFormed (mapping_of f.now) }
    requires no_list { HasNoList (mapping_of f.now) }
    requires affine { IsSumOver counts.now arg.now }
    requires fits { FitsOver counts.now arg.now }
    requires defined { EachValue counts.now (IsDefinedAt (mapping_of f.now)) arg.now }
    ensures value { IfOk result (IsImage counts.now (at (mapping_of f.now)) arg.now) }
    ensures affine { IfOk result (IsSumOver counts.now) }
    ensures fits { IfOk result (FitsOver counts.now) }
    ensures form { HasRoomOver counts.now (mapping_of f.now) arg.now
        → IfOk result (IsSimplified counts.now (mapping_of f.now) arg.now) }
{
    match f {
        Index::Identity => {
            let sum = copy(alloc, arg)?;
            Ok(sum)
        }
        Index::Constant(value) => Ok(Affine::Constant(*value)),
        Index::Stride(base, step) => {
            let by_step = multiple(*step, copy(alloc, arg)?);
            Ok(both(Affine::Constant(*base), by_step))
        }
        Index::StridePermutation(r, s) => {
            let sum = turn(alloc, counts, *r, *s, arg)?;
            Ok(sum)
        }
        Index::ThomasIn(r, s) => {
            let sum = mix(alloc, counts, *r, *s, Multiples { quot: *s, rem: *r }, arg)?;
            Ok(sum)
        }
        Index::ThomasOut(r, s) => {
            let sum = remainders(alloc, counts, *r, *s, arg)?;
            Ok(sum)
        }
        Index::ThomasBack(r, s, e, g) => {
            let sum = mix(alloc, counts, *r, *s, Multiples { quot: *e, rem: *g }, arg)?;
            Ok(sum)
        }
        Index::Explicit(_) => unreachable!(),
        Index::Tensor(f, c, g, d) => {
            let Parts { quot, rem } = divide(alloc, counts, arg, *d)?;
            let left = simplify(alloc, f, &quot, counts)?;
            let right = simplify(alloc, g, &rem, counts)?;
            Ok(both(multiple(*c, left), right))
        }
        Index::Composed(f, g) => {
            let inner = simplify(alloc, g, arg, counts)?;
            let sum = simplify(alloc, f, &inner, counts)?;
            Ok(sum)
        }
    }
}

// `r` times the remainder by `s`, and the quotient.
#[tactic(auto, using(crate::proofs::PartLaws::turned_below))]
fn turn(alloc: Global, counts: &[u64], r: u64, s: u64, arg: &Affine) -> Result<Affine, NoMemory>
    requires formed { IsWellFormed (Strided r s) }
    requires affine { IsSumOver counts.now arg.now }
    requires fits { FitsOver counts.now arg.now }
    requires defined { EachValue counts.now (λ i. i < r * s) arg.now }
    ensures value { IfOk result (IsImage counts.now (at (Strided r s)) arg.now) }
    ensures affine { IfOk result (IsSumOver counts.now) }
    ensures fits { IfOk result (FitsOver counts.now) }
    ensures form { HasRoomOver counts.now (Strided r s) arg.now
        → IfOk result (IsSimplified counts.now (Strided r s) arg.now) }
{
    let Parts { quot, rem } = divide(alloc, counts, arg, s)?;
    Ok(both(multiple(r, rem), quot))
}

/// What the quotient and the remainder are multiplied by.
#[derive(Clone, Copy)]
pub struct Multiples {
    pub quot: u64,
    pub rem: u64,
}

// The sum of multiples of the quotient and of the remainder by `s`, modulo `r * s`.
fn mix(
    alloc: Global,
    counts: &[u64],
    r: u64,
    s: u64,
    by: Multiples,
    arg: &Affine,
) -> Result<Affine, NoMemory>
    requires factors { (1 ≤ r) × (1 ≤ s) × (r * s < 2 ^ 64) }
    requires affine { IsSumOver counts.now arg.now }
    requires fits { FitsOver counts.now arg.now }
    requires defined { EachValue counts.now
        (λ i. by.quot * (i / s) + by.rem * (i % s) < 2 ^ 64) arg.now }
    ensures value { IfOk result (IsImage counts.now
        (λ i. (by.quot * (i / s) + by.rem * (i % s)) % (r * s)) arg.now) }
    ensures affine { IfOk result (IsSumOver counts.now) }
    ensures fits { IfOk result (FitsOver counts.now) }
    ensures form { HasRoomOver counts.now (ThomasBack r s by.quot by.rem) arg.now
        → IfOk result (IsSimplified counts.now (ThomasBack r s by.quot by.rem) arg.now) }
{
    let Parts { quot, rem } = divide(alloc, counts, arg, s)?;
    let quot = multiple(by.quot, quot);
    let rem = multiple(by.rem, rem);
    let both = both(quot, rem);
    let sum = reduce(alloc, counts, r * s, &both)?;
    Ok(sum)
}

// The remainder by `r`, times `s`, and the remainder by `s`.
#[tactic(auto, using(crate::proofs::PartLaws::remainders_below))]
fn remainders(
    alloc: Global,
    counts: &[u64],
    r: u64,
    s: u64,
    arg: &Affine,
) -> Result<Affine, NoMemory>
    requires formed { IsWellFormed (ThomasOut r s) }
    requires affine { IsSumOver counts.now arg.now }
    requires fits { FitsOver counts.now arg.now }
    requires defined { EachValue counts.now (λ i. i < r * s) arg.now }
    ensures value { IfOk result (IsImage counts.now (at (ThomasOut r s)) arg.now) }
    ensures affine { IfOk result (IsSumOver counts.now) }
    ensures fits { IfOk result (FitsOver counts.now) }
    ensures form { HasRoomOver counts.now (ThomasOut r s) arg.now
        → IfOk result (IsSimplified counts.now (ThomasOut r s) arg.now) }
{
    let Parts { quot: _, rem } = divide(alloc, counts, arg, r)?;
    let left = multiple(s, rem);
    let Parts { quot: _, rem } = divide(alloc, counts, arg, s)?;
    Ok(both(left, rem))
}

/// A simplified sum has the function's value.
pub fn simplified_keeps()
    ensures { SimplifiedKeeps }
{}

/// What simplification adds to a sum that a divisor takes apart.
pub fn shape_kept()
    ensures { ShapeKept }
{}

/// Whether every number on the way to a simplified sum fits can be tested.
pub fn room_decided()
    ensures { RoomDecided }
{}

/// The steps of simplification.
#[derive(Clone, Copy, PartialEq, Eq, Debug)]
pub enum IndexRule {
    /// A multiple of a sum multiplies its constant and its factors.
    Scale,
    /// The sum of two sums has the parts of both.
    Add,
    /// The parts whose factors a divisor divides are a multiple of it.
    TakeMultiples,
    /// Where the other parts stay below the divisor, they are the remainder, and what is multiplied is the quotient.
    ReadOff,
    /// A quotient or a remainder that the parts do not show is written out.
    WriteOut,
    /// Inside a remainder the constant and the factors count modulo the divisor.
    ReduceFactors,
    /// A remainder of what stays below the divisor is not written.
    DropRemainder,
    /// A tensor takes a place apart by its divisor.
    SplitTensor,
    /// A composition takes the place that the inner function gives.
    NestComposed,
}

impl IndexRule {
    ghost use Rattle.perm_algebra.specs.Rules.{Holds};

    /// The law of the step.
    pub fn holds(self)
        ensures { Holds self }
    {}
}
