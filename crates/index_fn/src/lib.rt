//! Functions from indices to indices, as terms: what gathers and scatters read and store by (Franchetti et al., 2005).
#![tactic(auto)]

mod backs;

ghost use Rattle.std.specs.Prelude.{◌≡◌, ℕ, ◌*◌, ◌^◌, ◌<◌, ◌≤◌, false, Some, IfOk, IfSome};
ghost use Rattle.std.specs.Option.{IsSomeAnd};
ghost use Rattle.index_fn.specs.Index.{mapping_of};
ghost use Rattle.index_fn.specs.Back.{HasBack, back_of, has_back};
ghost use Rattle.index_fn.specs.Inverse.{Permutes, Undoes};
ghost use Rattle.index_fn.specs.Mapping.{After, at, size_of, IsDefinedAt, IsWellFormed};

use crate::backs::{back_of, has_back};
pub use backs::unit;
use memory::NoMemory;
use std::alloc::Global;

/// A function of an index. A permutation and a list have a size, and take the indices below it; the first three have
/// none, and take every index.
#[derive(Drop)]
pub enum Index {
    /// The index itself.
    Identity,
    /// Always this number.
    Constant(u64),
    /// A base, and a step for each index.
    Stride(u64, u64),
    /// The stride permutation `L(r * s, r)`, by `r` and `s`.
    StridePermutation(u64, u64),
    /// The places before a step by coprime factors `r` and `s` (Good and Thomas): `(s * i + r * j) mod r * s` at `i * s + j`.
    ThomasIn(u64, u64),
    /// The places after such a step: `(k mod r) * s + k mod s` at `k`.
    ThomasOut(u64, u64),
    /// Back from the places after such a step. After `r` and `s` stand the multiple of `s` that leaves 1 by `r` and that
    /// of `r` that leaves 1 by `s`, both below `r * s`.
    ThomasBack(u64, u64, u64, u64),
    /// Places in a list.
    Explicit(Vec<u64>),
    /// `Tensor(f, c, g, d)` is `f` at the quotient by `d`, times `c`, and `g` at the remainder.
    Tensor(Box<Index>, u64, Box<Index>, u64),
    /// The first at what the second gives.
    Composed(Box<Index>, Box<Index>),
}

impl Index {
    /// The value at `i`.
    pub fn at(&self, i: u64) -> u64
        requires well_formed { IsWellFormed (mapping_of self.now) }
        requires defined { IsDefinedAt (mapping_of self.now) i }
        ensures { result ≡ at (mapping_of self.now) i }
    {
        match self {
            Index::Identity => i,
            Index::Constant(value) => *value,
            Index::Stride(base, step) => base + step * i,
            Index::StridePermutation(r, s) => (i % s) * r + i / s,
            Index::ThomasIn(r, s) => (s * (i / s) + r * (i % s)) % (r * s),
            Index::ThomasOut(r, s) => (i % r) * s + i % s,
            Index::ThomasBack(r, s, e, g) => ((i / s) * e + (i % s) * g) % (r * s),
            Index::Explicit(places) => places[i as usize],
            Index::Tensor(f, c, g, d) => f.at(i / d) * c + g.at(i % d),
            Index::Composed(f, g) => f.at(g.at(i)),
        }
    }

    /// The size of a function that has one.
    pub fn size(&self) -> Option<u64>
        requires well_formed { IsWellFormed (mapping_of self.now) }
        requires fits { IfSome (size_of (mapping_of self.now)) (λ n. n < 2 ^ 64) }
        ensures { result ≡ size_of (mapping_of self.now) }
    {
        match self {
            Index::Identity | Index::Constant(_) | Index::Stride(_, _) => None,
            Index::StridePermutation(r, s)
            | Index::ThomasIn(r, s)
            | Index::ThomasOut(r, s)
            | Index::ThomasBack(r, s, _, _) => Some(r * s),
            Index::Explicit(places) => Some(places.len() as u64),
            Index::Tensor(f, _, _, d) => match f.size() {
                Some(n) => Some(n * d),
                None => None,
            },
            Index::Composed(_, g) => g.size(),
        }
    }

    /// A copy of the function.
    pub fn copy(&self, alloc: Global) -> Result<Index, NoMemory>
        ensures { IfOk result (λ g. mapping_of g ≡ mapping_of self.now) }
    {
        match self {
            Index::Identity => Ok(Index::Identity),
            Index::Constant(value) => Ok(Index::Constant(*value)),
            Index::Stride(base, step) => Ok(Index::Stride(*base, *step)),
            Index::StridePermutation(r, s) => Ok(Index::StridePermutation(*r, *s)),
            Index::ThomasIn(r, s) => Ok(Index::ThomasIn(*r, *s)),
            Index::ThomasOut(r, s) => Ok(Index::ThomasOut(*r, *s)),
            Index::ThomasBack(r, s, e, g) => Ok(Index::ThomasBack(*r, *s, *e, *g)),
            Index::Explicit(places) => Ok(Index::Explicit(Vec::from_slice(alloc, places)?)),
            Index::Tensor(f, c, g, d) => {
                let f = Box::new(alloc, f.copy(alloc)?)?;
                let g = Box::new(alloc, g.copy(alloc)?)?;
                Ok(Index::Tensor(f, *c, g, *d))
            }
            Index::Composed(f, g) => {
                let f = Box::new(alloc, f.copy(alloc)?)?;
                let g = Box::new(alloc, g.copy(alloc)?)?;
                Ok(Index::Composed(f, g))
            }
        }
    }

    /// The function that undoes it: a formula where there is one, part by part for tensors and compositions, and else a
    /// list.
    pub fn inverse(&self, alloc: Global) -> Result<Index, NoMemory>
        requires well_formed { IsWellFormed (mapping_of self.now) }
        requires permutes { has_back (mapping_of self.now) ≡ false
            → IsSomeAnd (size_of (mapping_of self.now)) (Permutes (mapping_of self.now)) }
        ensures undone { IfOk result (λ g. IfSome (size_of (mapping_of self.now))
            (λ n. Permutes (mapping_of self.now) n
            → Undoes (mapping_of self.now) (mapping_of g) n)) }
        ensures form { IfOk result (λ g.
            HasBack (mapping_of self.now) → mapping_of g ≡ back_of (mapping_of self.now)) }
    {
        if has_back(self) {
            let back = back_of(alloc, self)?;
            return Ok(back);
        }
        let size = self.size().unwrap();
        let list = inverse_table(alloc, self, size)?;
        Ok(list)
    }
}

/// The function `f` after `g`.
pub fn compose(alloc: Global, f: &Index, g: &Index) -> Result<Index, NoMemory>
    ensures { IfOk result (λ h. mapping_of h ≡ After (mapping_of f.now) (mapping_of g.now)) }
{
    let outer = Box::new(alloc, f.copy(alloc)?)?;
    let inner = Box::new(alloc, g.copy(alloc)?)?;
    Ok(Index::Composed(outer, inner))
}

// The inverse of a permutation of the numbers below `size`, by its table.
fn inverse_table(alloc: Global, f: &Index, size: u64) -> Result<Index, NoMemory>
    requires well_formed { IsWellFormed (mapping_of f.now) }
    requires permutes { Permutes (mapping_of f.now) size }
    ensures { IfOk result (λ g. Undoes (mapping_of f.now) (mapping_of g) size) }
{
    let mut table = vec![in alloc; 0; size as usize]?;
    for i in 0..size {
        table[f.at(i) as usize] = i;
    }
    Ok(Index::Explicit(table))
}
