// The quotient and the remainder of a sum by a divisor.
ghost use Rattle.std.specs.Prelude.{◌≡◌, ◌/◌, ◌%◌, ◌<◌, ◌≤◌, IfOk, slice_index};
ghost use Rattle.perm_algebra.specs.Affine.{top, head, rest_of, divided, mods, reduced};
ghost use Rattle.perm_algebra.specs.Contract.{EachValue, FitsOver, IsImage, IsSumOver};
ghost use Rattle.perm_algebra.specs.Room.{HasTop, CanDivide};
ghost use Rattle.perm_algebra.specs.Views.{plain_sum};

use crate::Affine;
use crate::sums::copy;
use memory::NoMemory;
use std::alloc::Global;

/// The quotient and the remainder of a sum by a divisor.
#[derive(Drop)]
pub struct Parts {
    pub quot: Affine,
    pub rem: Affine,
}

// The parts whose factors s divides, divided by it.
fn multiples(alloc: Global, s: u64, sum: &Affine) -> Result<Affine, NoMemory>
    requires { 0 < s }
    ensures { IfOk result (λ a. plain_sum a ≡ head s (plain_sum sum.now)) }
{
    let mut whole = copy(alloc, sum)?;
    keep_multiples(s, &mut whole);
    Ok(whole)
}

fn keep_multiples(s: u64, sum: &mut Affine)
    requires { 0 < s }
    ensures { plain_sum sum.new ≡ head s (plain_sum sum.old) }
{
    match sum {
        Affine::Constant(c) => *c /= s,
        Affine::Variable(factor, _, rest) => {
            keep_multiples(s, rest);
            if *factor % s == 0 {
                *factor /= s;
            } else {
                *sum = taken(rest);
            }
        }
        Affine::Remainder(factor, _, _, rest) => {
            keep_multiples(s, rest);
            if *factor % s == 0 {
                *factor /= s;
            } else {
                *sum = taken(rest);
            }
        }
        Affine::Quotient(factor, _, _, rest) => {
            keep_multiples(s, rest);
            if *factor % s == 0 {
                *factor /= s;
            } else {
                *sum = taken(rest);
            }
        }
    }
}

/// The parts whose factors `s` does not divide, and the remainder of the constant.
pub fn others(alloc: Global, s: u64, sum: &Affine) -> Result<Affine, NoMemory>
    requires { 0 < s }
    ensures { IfOk result (λ a. plain_sum a ≡ rest_of s (plain_sum sum.now)) }
{
    let mut left = copy(alloc, sum)?;
    keep_others(s, &mut left);
    Ok(left)
}

fn keep_others(s: u64, sum: &mut Affine)
    requires { 0 < s }
    ensures { plain_sum sum.new ≡ rest_of s (plain_sum sum.old) }
{
    match sum {
        Affine::Constant(c) => *c %= s,
        Affine::Variable(factor, _, rest) => {
            keep_others(s, rest);
            if *factor % s == 0 {
                *sum = taken(rest);
            }
        }
        Affine::Remainder(factor, _, _, rest) => {
            keep_others(s, rest);
            if *factor % s == 0 {
                *sum = taken(rest);
            }
        }
        Affine::Quotient(factor, _, _, rest) => {
            keep_others(s, rest);
            if *factor % s == 0 {
                *sum = taken(rest);
            }
        }
    }
}

/// The constant and the factors modulo `s`, and no part whose factor is then 0.
pub fn residues(alloc: Global, s: u64, sum: &Affine) -> Result<Affine, NoMemory>
    requires { 0 < s }
    ensures { IfOk result (λ a. plain_sum a ≡ mods s (plain_sum sum.now)) }
{
    let mut small = copy(alloc, sum)?;
    keep_residues(s, &mut small);
    Ok(small)
}

fn keep_residues(s: u64, sum: &mut Affine)
    requires { 0 < s }
    ensures { plain_sum sum.new ≡ mods s (plain_sum sum.old) }
{
    match sum {
        Affine::Constant(c) => *c %= s,
        Affine::Variable(factor, _, rest) => {
            keep_residues(s, rest);
            *factor %= s;
            if *factor == 0 {
                *sum = taken(rest);
            }
        }
        Affine::Remainder(factor, _, _, rest) => {
            keep_residues(s, rest);
            *factor %= s;
            if *factor == 0 {
                *sum = taken(rest);
            }
        }
        Affine::Quotient(factor, _, _, rest) => {
            keep_residues(s, rest);
            *factor %= s;
            if *factor == 0 {
                *sum = taken(rest);
            }
        }
    }
}

// The sum, which leaves 0 in its place.
fn taken(sum: &mut Affine) -> Affine
    ensures { result ≡ sum.old }
{
    std::mem::replace(sum, Affine::Constant(0))
}

/// A number that no value of the sum is above, where each variable runs below its count.
#[tactic(auto, using(crate::proofs::PartLaws::quotient_le, crate::proofs::PartLaws::in_range_at))]
pub fn greatest(counts: &[u64], sum: &Affine) -> u64
    requires affine { IsSumOver counts.now sum.now }
    requires fits { FitsOver counts.now sum.now }
    ensures bound { EachValue counts.now (λ i. i ≤ result) sum.now }
    ensures form { HasTop (slice_index counts.now) (plain_sum sum.now)
        → result ≡ top (plain_sum sum.now) (slice_index counts.now) }
{
    match sum {
        Affine::Constant(c) => *c,
        Affine::Variable(factor, variable, rest) => {
            let most = counts[*variable as usize].saturating_sub(1);
            factor
                .saturating_mul(most)
                .saturating_add(greatest(counts, rest))
        }
        Affine::Remainder(factor, _, divisor, rest) => {
            let most = *divisor - 1;
            factor
                .saturating_mul(most)
                .saturating_add(greatest(counts, rest))
        }
        Affine::Quotient(factor, of, divisor, rest) => {
            let most = greatest(counts, of) / *divisor;
            factor
                .saturating_mul(most)
                .saturating_add(greatest(counts, rest))
        }
    }
}

/// The quotient and the remainder by `s`: read off where the parts show them, else written out.
#[tactic(auto, using(crate::proofs::Division::affine_head, crate::proofs::Division::affine_rest, crate::proofs::Division::fits_rest, crate::proofs::Division::quotient_read, crate::proofs::Division::remainder_read, crate::proofs::Division::quotient_form, crate::proofs::Division::remainder_form, crate::proofs::Division::quotient_written, crate::proofs::Division::remainder_written))]
pub fn divide(alloc: Global, counts: &[u64], sum: &Affine, s: u64) -> Result<Parts, NoMemory>
    requires divisor { 0 < s }
    requires affine { IsSumOver counts.now sum.now }
    requires fits { FitsOver counts.now sum.now }
    ensures quot { IfOk result (λ p. IsImage counts.now (λ i. i / s) sum.now p.quot) }
    ensures rem { IfOk result (λ p. IsImage counts.now (λ i. i % s) sum.now p.rem) }
    ensures quot_affine { IfOk result (λ p. IsSumOver counts.now p.quot) }
    ensures rem_affine { IfOk result (λ p. IsSumOver counts.now p.rem) }

    // As the definition has them, where the bounds fit.
    ensures quot_form { CanDivide (slice_index counts.now) s (plain_sum sum.now) → IfOk result
        (λ p. plain_sum p.quot ≡ (divided (slice_index counts.now) s (plain_sum sum.now)).quot) }
    ensures rem_form { CanDivide (slice_index counts.now) s (plain_sum sum.now) → IfOk result
        (λ p. plain_sum p.rem ≡ (divided (slice_index counts.now) s (plain_sum sum.now)).rem) }
{
    let rem = others(alloc, s, sum)?;
    if greatest(counts, &rem) < s {
        let quot = multiples(alloc, s, sum)?;
        Ok(Parts { quot, rem })
    } else {
        let of = Box::new(alloc, copy(alloc, sum)?)?;
        let end = Box::new(alloc, Affine::Constant(0))?;
        let quot = Affine::Quotient(1, of, s, end);
        let of = Box::new(alloc, copy(alloc, sum)?)?;
        let end = Box::new(alloc, Affine::Constant(0))?;
        let rem = Affine::Remainder(1, of, s, end);
        Ok(Parts { quot, rem })
    }
}

/// The sum modulo `n`: a remainder only where the ranges do not show it away.
#[tactic(auto, using(crate::proofs::Division::affine_mods, crate::proofs::Division::fits_mods, crate::proofs::Division::reduced_read, crate::proofs::Division::reduced_written, crate::proofs::Division::reduced_form, crate::proofs::Division::reduced_form_written))]
pub fn reduce(alloc: Global, counts: &[u64], n: u64, sum: &Affine) -> Result<Affine, NoMemory>
    requires divisor { 0 < n }
    requires affine { IsSumOver counts.now sum.now }
    requires fits { FitsOver counts.now sum.now }
    ensures value { IfOk result (IsImage counts.now (λ i. i % n) sum.now) }
    ensures affine { IfOk result (IsSumOver counts.now) }
    ensures form { HasTop (slice_index counts.now) (mods n (plain_sum sum.now))
        → IfOk result (λ a. plain_sum a ≡ reduced (slice_index counts.now) n (plain_sum sum.now)) }
{
    let small = residues(alloc, n, sum)?;
    if greatest(counts, &small) < n {
        Ok(small)
    } else {
        let of = Box::new(alloc, small)?;
        let end = Box::new(alloc, Affine::Constant(0))?;
        Ok(Affine::Remainder(1, of, n, end))
    }
}
