// Simplification that gives up. As `perm_algebra::simplify`, it writes an index function at a sum as a sum again. But it tests each
// number on the way, and refuses where one would not fit 64 bits: then the permutation stays a pass of its own.
ghost use Rattle.std.specs.Prelude.{◌≡◌, ℕ, ◌+◌, ◌*◌, ◌/◌, ◌%◌, ◌^◌, ◌<◌, List, true, false, slice_index};
ghost use Rattle.std.specs.Option.{ForNone, ForSome};
ghost use Rattle.index_fn.specs.Index.{mapping_of};
ghost use Rattle.index_fn.specs.Mapping.{IsDefinedAt, IsWellFormed, Strided, ThomasBack, ThomasOut, at};
ghost use Rattle.perm_algebra.specs.Affine.{HasNoList, constant, divided, added, mods, reduced, scaled, value};
ghost use Rattle.perm_algebra.specs.Contract.{EachTwo, EachValue, FitsOver, IsImage, IsImageOfTwo, IsSimplified, IsSumOver};
ghost use Rattle.perm_algebra.specs.Room.{can_divide, can_add, can_mix, can_scale, constant_of, has_top};
ghost use Rattle.perm_algebra.specs.Views.{plain_sum};
ghost use Rattle.loop_nests.specs.Limits.Contract.{has_room_over};
ghost use Rattle.loop_nests.specs.Limits.Mixes.{can_line, can_scale_and_add, mixed};
ghost use Rattle.loop_nests.specs.Limits.Outcomes.{IfMade, IfRefused};

use crate::limits::{greatest_factor, top_of};
use index_fn::Index;
use memory::NoMemory;
use perm_algebra::{
    Affine, Multiples, Parts, both, copy, divide, multiple, others, reduce, residues,
};
use std::alloc::Global;

/// The function `f` at the place `arg`, where the variable d runs below `counts[d]`, if every number on the way fits 64
/// bits.
pub(crate) fn simplify_in_room(
    alloc: Global,
    f: &Index,
    arg: &Affine,
    counts: &[u64],
) -> Result<Option<Affine>, NoMemory>
    requires formed { IsWellFormed (mapping_of f.now) }
    requires no_list { HasNoList (mapping_of f.now) }
    requires affine { IsSumOver counts.now arg.now }
    requires fits { FitsOver counts.now arg.now }
    requires defined { EachValue counts.now (IsDefinedAt (mapping_of f.now)) arg.now }
    ensures some { IfMade result (IsSimplified counts.now (mapping_of f.now) arg.now) }
    ensures room { IfMade result
        (λ sum. has_room_over counts.now (mapping_of f.now) arg.now ≡ true) }
    ensures none { IfRefused result
        (has_room_over counts.now (mapping_of f.now) arg.now ≡ false) }
    ensures value { IfMade result (IsImage counts.now (at (mapping_of f.now)) arg.now) }
    ensures affine { IfMade result (IsSumOver counts.now) }
    ensures fits { IfMade result (FitsOver counts.now) }
{
    if let Affine::Constant(number) = arg {
        return Ok(Some(Affine::Constant(f.at(*number))));
    }
    match f {
        Index::Identity => Ok(Some(copy(alloc, arg)?)),
        Index::Constant(value) => Ok(Some(Affine::Constant(*value))),
        Index::Stride(base, step) => Ok(line(alloc, *base, *step, arg)?),
        Index::StridePermutation(r, s) => Ok(turn(alloc, counts, *r, *s, arg)?),
        Index::ThomasIn(r, s) => {
            let by = Multiples { quot: *s, rem: *r };
            Ok(mixed(alloc, counts, *r, *s, by, arg)?)
        }
        Index::ThomasOut(r, s) => Ok(remainders(alloc, counts, *r, *s, arg)?),
        Index::ThomasBack(r, s, e, g) => {
            let by = Multiples { quot: *e, rem: *g };
            Ok(mixed(alloc, counts, *r, *s, by, arg)?)
        }
        Index::Explicit(_) => unreachable!(),
        Index::Tensor(f, c, g, d) => {
            let Some(Parts { quot, rem }) = divide_in_room(alloc, counts, arg, *d)? else {
                return Ok(None);
            };
            let Some(left) = simplify_in_room(alloc, f, &quot, counts)? else {
                return Ok(None);
            };
            let Some(right) = simplify_in_room(alloc, g, &rem, counts)? else {
                return Ok(None);
            };
            Ok(scale_and_add(*c, left, right))
        }
        Index::Composed(f, g) => {
            let Some(inner) = simplify_in_room(alloc, g, arg, counts)? else {
                return Ok(None);
            };
            Ok(simplify_in_room(alloc, f, &inner, counts)?)
        }
    }
}

// A base, and a multiple of the place.
fn line(alloc: Global, base: u64, step: u64, arg: &Affine) -> Result<Option<Affine>, NoMemory>
    ensures some { IfMade result (λ sum.
        plain_sum sum ≡ added (constant base) (scaled step (plain_sum arg.now))) }
    ensures room { IfMade result (λ sum. can_line base step (plain_sum arg.now) ≡ true) }
    ensures none { IfRefused result (can_line base step (plain_sum arg.now) ≡ false) }
    ensures value { IfMade result (λ sum. (vs : ℕ → ℕ) →
        value (plain_sum sum) vs ≡ base + step * value (plain_sum arg.now) vs) }
    ensures affine { (counts : List ℕ) →
        IsSumOver counts arg.now → IfMade result (IsSumOver counts) }
{
    let Some(multiple) = scale_in_room(step, copy(alloc, arg)?) else {
        return Ok(None);
    };
    Ok(add_in_room(Affine::Constant(base), multiple))
}

// `r` times the remainder by `s`, and the quotient.
#[tactic(auto, using(perm_algebra::proofs::PartLaws::turned_below))]
fn turn(
    alloc: Global,
    counts: &[u64],
    r: u64,
    s: u64,
    arg: &Affine,
) -> Result<Option<Affine>, NoMemory>
    requires formed { IsWellFormed (Strided r s) }
    requires affine { IsSumOver counts.now arg.now }
    requires fits { FitsOver counts.now arg.now }
    requires defined { EachValue counts.now (λ i. i < r * s) arg.now }
    ensures some { IfMade result (IsSimplified counts.now (Strided r s) arg.now) }
    ensures room { IfMade result (λ sum. has_room_over counts.now (Strided r s) arg.now ≡ true) }
    ensures none { IfRefused result (has_room_over counts.now (Strided r s) arg.now ≡ false) }
    ensures value { IfMade result (IsImage counts.now (at (Strided r s)) arg.now) }
    ensures affine { IfMade result (IsSumOver counts.now) }
    ensures fits { IfMade result (FitsOver counts.now) }
{
    let Some(Parts { quot, rem }) = divide_in_room(alloc, counts, arg, s)? else {
        return Ok(None);
    };
    Ok(scale_and_add(r, rem, quot))
}

// The remainder by `r`, times `s`, and the remainder by `s`.
fn remainders(
    alloc: Global,
    counts: &[u64],
    r: u64,
    s: u64,
    arg: &Affine,
) -> Result<Option<Affine>, NoMemory>
    requires formed { IsWellFormed (ThomasOut r s) }
    requires affine { IsSumOver counts.now arg.now }
    requires fits { FitsOver counts.now arg.now }
    requires defined { EachValue counts.now (λ i. i < r * s) arg.now }
    ensures some { IfMade result (IsSimplified counts.now (ThomasOut r s) arg.now) }
    ensures room { IfMade result (λ sum. has_room_over counts.now (ThomasOut r s) arg.now ≡ true) }
    ensures none { IfRefused result (has_room_over counts.now (ThomasOut r s) arg.now ≡ false) }
    ensures value { IfMade result (IsImage counts.now (at (ThomasOut r s)) arg.now) }
    ensures affine { IfMade result (IsSumOver counts.now) }
    ensures fits { IfMade result (FitsOver counts.now) }
{
    let Some(Parts { quot: _, rem }) = divide_in_room(alloc, counts, arg, r)? else {
        return Ok(None);
    };
    let Some(Parts { quot: _, rem: last }) = divide_in_room(alloc, counts, arg, s)? else {
        return Ok(None);
    };
    Ok(scale_and_add(s, rem, last))
}

// The sum of multiples of the quotient and of the remainder by `s`, modulo `r * s`.
fn mixed(
    alloc: Global,
    counts: &[u64],
    r: u64,
    s: u64,
    by: Multiples,
    arg: &Affine,
) -> Result<Option<Affine>, NoMemory>
    requires divisor { 0 < s }
    requires modulus { 0 < r * s }
    requires size { r * s < 2 ^ 64 }
    requires affine { IsSumOver counts.now arg.now }
    requires fits { FitsOver counts.now arg.now }
    requires mixed { EachValue counts.now
        (λ i. by.quot * (i / s) + by.rem * (i % s) < 2 ^ 64) arg.now }
    ensures some { IfMade result
        (IsSimplified counts.now (ThomasBack r s by.quot by.rem) arg.now) }
    ensures room { IfMade result
        (λ sum. has_room_over counts.now (ThomasBack r s by.quot by.rem) arg.now ≡ true) }
    ensures none { IfRefused result
        (has_room_over counts.now (ThomasBack r s by.quot by.rem) arg.now ≡ false) }
    ensures value { IfMade result (IsImage counts.now
        (λ i. (by.quot * (i / s) + by.rem * (i % s)) % (r * s)) arg.now) }
    ensures affine { IfMade result (IsSumOver counts.now) }
{
    let Some(parts) = divide_in_room(alloc, counts, arg, s)? else {
        return Ok(None);
    };
    let sum = mix(alloc, counts, parts, by, r * s)?;
    Ok(sum)
}

// The sum of multiples of the quotient and of the remainder, modulo `n`.
fn mix(
    alloc: Global,
    counts: &[u64],
    parts: Parts,
    by: Multiples,
    n: u64,
) -> Result<Option<Affine>, NoMemory>
    requires divisor { 0 < n }
    requires quot { IsSumOver counts.now parts.quot }
    requires rem { IsSumOver counts.now parts.rem }
    requires fits { EachTwo counts.now
        (λ i j. by.quot * i + by.rem * j < 2 ^ 64) parts.quot parts.rem }
    ensures some { IfMade result (λ sum. plain_sum sum ≡ mixed (slice_index counts.now) n
        by.quot by.rem (plain_sum parts.quot) (plain_sum parts.rem)) }
    ensures room { IfMade result (λ sum. can_mix (slice_index counts.now) n
        by.quot by.rem (plain_sum parts.quot) (plain_sum parts.rem) ≡ true) }
    ensures none { IfRefused result (can_mix (slice_index counts.now) n
        by.quot by.rem (plain_sum parts.quot) (plain_sum parts.rem) ≡ false) }
    ensures value { IfMade result (IsImageOfTwo counts.now
        (λ i j. (by.quot * i + by.rem * j) % n) parts.quot parts.rem) }
    ensures affine { IfMade result (IsSumOver counts.now) }
{
    let Parts { quot, rem } = parts;
    let Some(quot) = scale_in_room(by.quot, quot) else {
        return Ok(None);
    };
    let Some(rem) = scale_in_room(by.rem, rem) else {
        return Ok(None);
    };
    let Some(both) = add_in_room(quot, rem) else {
        return Ok(None);
    };
    let sum = reduce_in_room(alloc, counts, n, &both)?;
    Ok(sum)
}

// The quotient and the remainder by `s`, if the bounds on what `s` does not divide fit.
fn divide_in_room(
    alloc: Global,
    counts: &[u64],
    sum: &Affine,
    s: u64,
) -> Result<Option<Parts>, NoMemory>
    requires divisor { 0 < s }
    requires affine { IsSumOver counts.now sum.now }
    requires fits { FitsOver counts.now sum.now }
    ensures quot { IfMade result (λ p. IsImage counts.now (λ i. i / s) sum.now p.quot) }
    ensures rem { IfMade result (λ p. IsImage counts.now (λ i. i % s) sum.now p.rem) }
    ensures quot_affine { IfMade result (λ p. IsSumOver counts.now p.quot) }
    ensures rem_affine { IfMade result (λ p. IsSumOver counts.now p.rem) }
    ensures quot_form { IfMade result (λ p.
        plain_sum p.quot ≡ (divided (slice_index counts.now) s (plain_sum sum.now)).quot) }
    ensures rem_form { IfMade result (λ p.
        plain_sum p.rem ≡ (divided (slice_index counts.now) s (plain_sum sum.now)).rem) }
    ensures room { IfMade result (λ p.
        can_divide (slice_index counts.now) s (plain_sum sum.now) ≡ true) }
    ensures none { IfRefused result
        (can_divide (slice_index counts.now) s (plain_sum sum.now) ≡ false) }
{
    let rest = others(alloc, s, sum)?;
    match top_of(counts, &rest) {
        None => Ok(None),
        Some(_) => {
            let parts = divide(alloc, counts, sum, s)?;
            Ok(Some(parts))
        }
    }
}

// The sum modulo `n`, if its bounds fit.
fn reduce_in_room(
    alloc: Global,
    counts: &[u64],
    n: u64,
    sum: &Affine,
) -> Result<Option<Affine>, NoMemory>
    requires divisor { 0 < n }
    requires affine { IsSumOver counts.now sum.now }
    requires fits { FitsOver counts.now sum.now }
    ensures some { IfMade result (λ a.
        plain_sum a ≡ reduced (slice_index counts.now) n (plain_sum sum.now)) }
    ensures room { IfMade result (λ a.
        has_top (slice_index counts.now) (mods n (plain_sum sum.now)) ≡ true) }
    ensures none { IfRefused result
        (has_top (slice_index counts.now) (mods n (plain_sum sum.now)) ≡ false) }
    ensures value { IfMade result (IsImage counts.now (λ i. i % n) sum.now) }
    ensures affine { IfMade result (IsSumOver counts.now) }
{
    let small = residues(alloc, n, sum)?;
    match top_of(counts, &small) {
        None => Ok(None),
        Some(_) => {
            let sum = reduce(alloc, counts, n, sum)?;
            Ok(Some(sum))
        }
    }
}

// `k` times the sum, if each factor fits.
fn scale_in_room(k: u64, sum: Affine) -> Option<Affine>
    ensures some { ForSome result (λ a. plain_sum a ≡ scaled k (plain_sum sum)) }
    ensures room { ForSome result (λ a. can_scale k (plain_sum sum) ≡ true) }
    ensures none { ForNone result (can_scale k (plain_sum sum) ≡ false) }
    ensures value { ForSome result (λ a. (vs : ℕ → ℕ) →
        value (plain_sum a) vs ≡ k * value (plain_sum sum) vs) }
    ensures affine { (counts : List ℕ) → IsSumOver counts sum → ForSome result (IsSumOver counts) }
{
    if k.checked_mul(greatest_factor(&sum)).is_none() {
        return None;
    }
    Some(multiple(k, sum))
}

// `k` times a sum, and another, if each factor and the constant fit.
fn scale_and_add(k: u64, a: Affine, b: Affine) -> Option<Affine>
    ensures some { ForSome result (λ c.
        plain_sum c ≡ added (scaled k (plain_sum a)) (plain_sum b)) }
    ensures room { ForSome result (λ c. can_scale_and_add k (plain_sum a) (plain_sum b) ≡ true) }
    ensures none { ForNone result (can_scale_and_add k (plain_sum a) (plain_sum b) ≡ false) }
    ensures value { ForSome result (λ c. (vs : ℕ → ℕ) →
        value (plain_sum c) vs ≡ k * value (plain_sum a) vs + value (plain_sum b) vs) }
    ensures affine { (counts : List ℕ) → IsSumOver counts a → IsSumOver counts b
        → ForSome result (IsSumOver counts) }
{
    let multiple = scale_in_room(k, a)?;
    add_in_room(multiple, b)
}

// The sum of two sums, if its constant fits.
fn add_in_room(a: Affine, b: Affine) -> Option<Affine>
    ensures some { ForSome result (λ c. plain_sum c ≡ added (plain_sum a) (plain_sum b)) }
    ensures room { ForSome result (λ c. can_add (plain_sum a) (plain_sum b) ≡ true) }
    ensures none { ForNone result (can_add (plain_sum a) (plain_sum b) ≡ false) }
    ensures value { ForSome result (λ c. (vs : ℕ → ℕ) →
        value (plain_sum c) vs ≡ value (plain_sum a) vs + value (plain_sum b) vs) }
    ensures affine { (counts : List ℕ) → IsSumOver counts a → IsSumOver counts b
        → ForSome result (IsSumOver counts) }
{
    if constant_of(&a).checked_add(constant_of(&b)).is_none() {
        return None;
    }
    Some(both(a, b))
}

fn constant_of(sum: &Affine) -> u64
    ensures { result ≡ constant_of (plain_sum sum.now) }
{
    match sum {
        Affine::Constant(c) => *c,
        Affine::Variable(_, _, rest)
        | Affine::Remainder(_, _, _, rest)
        | Affine::Quotient(_, _, _, rest) => constant_of(rest),
    }
}
