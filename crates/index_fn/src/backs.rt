// Back past functions, by formulas.
ghost use Rattle.std.specs.Prelude.{◌≡◌, ◌*◌, ◌%◌, ◌^◌, ◌<◌, ◌≤◌, ◌==◌, ◌&&◌, IfOk};
ghost use Rattle.index_fn.specs.Back.{HasBack, back_of, has_back, has_size, inverse_below, is_same, multiple_below, unit_below};
ghost use Rattle.index_fn.specs.Index.{mapping_of};
ghost use Rattle.index_fn.specs.Mapping.{IsWellFormed, ThomasIn};

use crate::Index;
use memory::NoMemory;
use std::alloc::Global;

/// Whether a formula undoes the function.
pub(crate) fn has_back(f: &Index) -> bool
    requires { IsWellFormed (mapping_of f.now) }
    ensures { result ≡ has_back (mapping_of f.now) }
{
    match f {
        Index::Identity => true,
        Index::Constant(_) => true,
        Index::Stride(_, _) => true,
        Index::StridePermutation(_, _) => true,
        Index::ThomasIn(r, s) => r * s < 1 << 32,
        Index::ThomasOut(r, s) => r * s < 1 << 32,
        Index::ThomasBack(_, _, _, _) => true,
        Index::Explicit(_) => false,
        Index::Tensor(f, c, g, d) => {
            let parts_have = has_back(f) && has_back(g);
            let is_alike = !has_size(f) || *c == *d && is_same(g);
            parts_have && is_alike
        }
        Index::Composed(f, g) => {
            let parts_have = has_back(f) && has_back(g);
            parts_have && !has_size(g)
        }
    }
}

// Whether it has a size.
fn has_size(f: &Index) -> bool
    ensures { result ≡ has_size (mapping_of f.now) }
{
    match f {
        Index::Identity => false,
        Index::Constant(_) => false,
        Index::Stride(_, _) => false,
        Index::StridePermutation(_, _) => true,
        Index::ThomasIn(_, _) => true,
        Index::ThomasOut(_, _) => true,
        Index::ThomasBack(_, _, _, _) => true,
        Index::Explicit(_) => true,
        Index::Tensor(f, _, _, _) => has_size(f),
        Index::Composed(_, g) => has_size(g),
    }
}

fn is_same(f: &Index) -> bool
    ensures { result ≡ is_same (mapping_of f.now) }
{
    match f {
        Index::Identity => true,
        Index::Constant(_) => false,
        Index::Stride(_, _) => false,
        Index::StridePermutation(_, _) => false,
        Index::ThomasIn(_, _) => false,
        Index::ThomasOut(_, _) => false,
        Index::ThomasBack(_, _, _, _) => false,
        Index::Explicit(_) => false,
        Index::Tensor(_, _, _, _) => false,
        Index::Composed(_, _) => false,
    }
}

/// The formula that undoes the function.
pub(crate) fn back_of(alloc: Global, f: &Index) -> Result<Index, NoMemory>
    requires formed { IsWellFormed (mapping_of f.now) }
    requires has { HasBack (mapping_of f.now) }
    ensures { IfOk result (λ g. mapping_of g ≡ back_of (mapping_of f.now)) }
{
    match f {
        Index::Identity => Ok(Index::Identity),
        Index::Constant(value) => Ok(Index::Constant(*value)),
        Index::Stride(base, step) => Ok(Index::Stride(*base, *step)),
        Index::StridePermutation(r, s) => Ok(Index::StridePermutation(*s, *r)),
        Index::ThomasIn(r, s) => back_in(alloc, *r, *s),
        Index::ThomasOut(r, s) => Ok(Index::ThomasBack(*r, *s, unit(*r, *s), unit(*s, *r))),
        Index::ThomasBack(r, s, _, _) => Ok(Index::ThomasOut(*r, *s)),
        Index::Explicit(places) => Ok(Index::Explicit(Vec::from_slice(alloc, places)?)),
        Index::Tensor(f, c, g, d) => {
            let f = Box::new(alloc, back_of(alloc, f)?)?;
            let g = Box::new(alloc, back_of(alloc, g)?)?;
            Ok(Index::Tensor(f, *c, g, *d))
        }
        Index::Composed(f, g) => {
            let last = Box::new(alloc, back_of(alloc, g)?)?;
            let first = Box::new(alloc, back_of(alloc, f)?)?;
            Ok(Index::Composed(last, first))
        }
    }
}

// Back from the places before a step by coprime factors.
fn back_in(alloc: Global, r: u64, s: u64) -> Result<Index, NoMemory>
    requires factors { (1 ≤ r) × (1 ≤ s) }
    requires small { r * s < 2 ^ 32 }
    ensures { IfOk result (λ g. mapping_of g ≡ back_of (ThomasIn r s)) }
{
    let multiple = Box::new(alloc, multiple_below(alloc, r * s, inverse(r, s))?)?;
    let out = Box::new(alloc, Index::ThomasOut(r, s))?;
    Ok(Index::Composed(out, multiple))
}

// `times` times a number below `n`, reduced.
fn multiple_below(alloc: Global, n: u64, times: u64) -> Result<Index, NoMemory>
    ensures { IfOk result (λ g. mapping_of g ≡ multiple_below n times) }
{
    let none = Box::new(alloc, Index::Constant(0))?;
    let same = Box::new(alloc, Index::Identity)?;
    let remainder = Box::new(alloc, Index::Tensor(none, 0, same, n))?;
    let multiple = Box::new(alloc, Index::Stride(0, times))?;
    let number = Box::new(alloc, Index::StridePermutation(1, n))?;
    let multiple = Box::new(alloc, Index::Composed(multiple, number))?;
    Ok(Index::Composed(remainder, multiple))
}

/// A multiple of `s` that leaves 1 by `r`, or 0 where there is none.
pub fn unit(r: u64, s: u64) -> u64
    requires { r * s < 2 ^ 64 }
    ensures { result ≡ unit_below r s r }
{
    let mut found = 0;
    for k in 0..r {
        if s * k % r == 1 % r {
            found = s * k;
        }
    }
    found
}

// A number that times each of the two leaves 1 by the other, or 0 where there is none.
fn inverse(r: u64, s: u64) -> u64
    requires factors { (1 ≤ r) × (1 ≤ s) }
    requires small { r * s < 2 ^ 32 }
    ensures { result ≡ inverse_below r s (r * s) }
{
    let mut found = 0;
    for b in 0..r * s {
        if is_inverse(r, s, b) {
            found = b;
        }
    }
    found
}

#[tactic(auto, using(crate::proofs::Fitting::left_fits, crate::proofs::Fitting::right_fits))]
fn is_inverse(r: u64, s: u64, b: u64) -> bool
    requires factors { (1 ≤ r) × (1 ≤ s) }
    requires small { r * s < 2 ^ 32 }
    requires below { b < r * s }
    ensures { result ≡ ((s * b) % r == 1 % r && (r * b) % s == 1 % s) }
{
    let left = s * b % r;
    let right = r * b % s;
    left == 1 % r && right == 1 % s
}
