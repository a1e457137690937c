// Permutations and diagonals.
ghost use Rattle.std.specs.Prelude.{◌≡◌, ◌%◌, ◌<◌, length, IfOk};
ghost use Rattle.index_fn.specs.Index.{mapping_of};
ghost use Rattle.index_fn.specs.Mapping.{at};
ghost use Rattle.operators.specs.Operator.{gather};
ghost use Rattle.operators.specs.Sum.{list_below};
ghost use Rattle.sigma_spl.specs.Nest.{factor_at, factor_count, inner_of};
ghost use Rattle.sigma_spl.specs.Room.{HasCount, HasRoom};
ghost use Rattle.sigma_spl.specs.Term.{scat, term_on};
ghost use Rattle.sigma_spl.specs.Views.{plain_factors};
ghost use Rattle.sigma_spl.specs.Plain.Copies.{scaled, scaled_at};
ghost use Rattle.sigma_spl.specs.Plain.Shape.{StaysInside};
ghost use Rattle.spl_ast.specs.Meaning.{IsVector};
ghost use Rattle.spl_ast.specs.Shape.{IsSize};
ghost use Rattle.operators.specs.Paths.Tensors.{size_under};

use crate::{Factors, size_of_whole};
use index_fn::Index;
use matrix_meaning::twiddle_factor;
use memory::NoMemory;
use operators::Tensor;
use ring_mod::Modulus;
use std::alloc::Global;

/// The item of `x` at the function's value for each place.
pub(crate) fn gathered(alloc: Global, n: u64, f: &Index, x: &[u64]) -> Result<Vec<u64>, NoMemory>
    requires size { IsSize n }
    requires inside { StaysInside n (mapping_of f.now) }
    requires long { length x.now ≡ n }
    ensures { IfOk result (λ y. y.items ≡ gather n (at (mapping_of f.now)) x.now) }
{
    Ok(
        (0..n)
            .map(|i| x[place_of(n, f, i) as usize])
            .collect(alloc)?,
    )
}

fn place_of(n: u64, f: &Index, i: u64) -> u64
    requires inside { StaysInside n (mapping_of f.now) }
    requires place { i < n }
    ensures value { result ≡ at (mapping_of f.now) i }
    ensures inside { result < n }
{
    let _ = n;
    f.at(i)
}

/// Each item of `x` at the place that is the function's value.
pub(crate) fn scattered(
    alloc: Global,
    m: &Modulus,
    n: u64,
    f: &Index,
    x: &[u64],
) -> Result<Vec<u64>, NoMemory>
    requires size { IsSize n }
    requires inside { StaysInside n (mapping_of f.now) }
    requires vector { IsVector m.now n x.now }
    ensures { IfOk result (λ y. y.items ≡ term_on m.now n (scat (mapping_of f.now)) x.now) }
{
    let mut stored = zeros(alloc, n)?;
    for i in 0..n {
        let p = place_of(n, f, i) as usize;
        stored[p] = m.add(stored[p], x[i as usize]);
    }
    Ok(stored)
}

fn zeros(alloc: Global, size: u64) -> Result<Vec<u64>, NoMemory>
    ensures { IfOk result (λ y. y.items ≡ list_below size (λ p. 0)) }
{
    Ok((0..size).map(|_| 0).collect(alloc)?)
}

/// The diagonal under the tensors of the path, times `x`.
#[tactic(auto, using(crate::proofs::PlainLemmas::Rooms::has_count, crate::proofs::PlainLemmas::Rooms::part_room))]
pub(crate) fn multiplied(
    alloc: Global,
    m: &Modulus,
    n: u64,
    path: &[Tensor],
    by: &Factors,
    x: &[u64],
) -> Result<Vec<u64>, NoMemory>
    requires size { IsSize n }
    requires sized { size_under path.now (factor_count (plain_factors by.now)) ≡ n }
    requires vector { IsVector m.now n x.now }
    ensures { IfOk result (λ y. y.items ≡ scaled m.now n path.now (plain_factors by.now) x.now) }
{
    let y = products(alloc, m, n, path, by, x)?;
    Ok(y)
}

// The diagonal times `x`, where the numbers of items are words.
fn products(
    alloc: Global,
    m: &Modulus,
    n: u64,
    path: &[Tensor],
    by: &Factors,
    x: &[u64],
) -> Result<Vec<u64>, NoMemory>
    requires counted { HasCount (plain_factors by.now) }
    requires room { HasRoom path.now (factor_count (plain_factors by.now)) }
    requires sized { size_under path.now (factor_count (plain_factors by.now)) ≡ n }
    requires vector { IsVector m.now n x.now }
    ensures { IfOk result (λ y. y.items ≡ scaled m.now n path.now (plain_factors by.now) x.now) }
{
    Ok(
        (0..n)
            .map(|w| product_at(m, n, path, by, x, w))
            .collect(alloc)?,
    )
}

// The item of `x` at the place `w`, times its factor.
#[tactic(auto, using(spl_ast::proofs::Vectors::residue_at, spl_ast::proofs::Residues::product_of_reduced))]
fn product_at(m: &Modulus, n: u64, path: &[Tensor], by: &Factors, x: &[u64], w: u64) -> u64
    requires counted { HasCount (plain_factors by.now) }
    requires room { HasRoom path.now (factor_count (plain_factors by.now)) }
    requires sized { size_under path.now (factor_count (plain_factors by.now)) ≡ n }
    requires vector { IsVector m.now n x.now }
    requires place { w < n }
    ensures { result ≡ scaled_at m.now path.now (plain_factors by.now) x.now w }
{
    let _ = n;
    let item = item_in_copy(path, count_of(by), w);
    m.mul(factor(m, by, item), x[w as usize])
}

// How many factors there are.
fn count_of(factors: &Factors) -> u64
    requires { HasCount (plain_factors factors.now) }
    ensures { result ≡ factor_count (plain_factors factors.now) }
{
    match factors {
        Factors::Values(entries) => entries.len() as u64,
        Factors::Twiddles { rows, cols, .. } => rows * cols,
        Factors::Repeated { count, .. } => *count,
        Factors::Spread { path, factors } => size_of_whole(path, count_of(factors)),
    }
}

// The factor `i`, as a residue.
#[tactic(auto, using(spl_ast::proofs::Residues::power_of_reduced, operators::proofs::Lists::factor_positive))]
fn factor(m: &Modulus, factors: &Factors, i: u64) -> u64
    requires counted { HasCount (plain_factors factors.now) }
    requires item { i < factor_count (plain_factors factors.now) }
    ensures value { result ≡ factor_at m.now (plain_factors factors.now) i % m.now }
    ensures residue { result < m.now }
{
    match factors {
        Factors::Values(entries) => m.reduce(entries[i as usize]),
        Factors::Twiddles { cols, root, .. } => twiddle_factor(m, *cols, m.reduce(*root), i),
        Factors::Repeated { value, .. } => m.reduce(*value),
        Factors::Spread { path, factors } => {
            let item = item_in_copy(path, count_of(factors), i);
            factor(m, factors, item)
        }
    }
}

// Which item of its copy, of size `n`, stands at the place `w`.
#[tactic(auto, using(crate::proofs::PlainLemmas::Rooms::inner_of_blocks, crate::proofs::PlainLemmas::Rooms::inner_of_columns))]
fn item_in_copy(path: &[Tensor], n: u64, w: u64) -> u64
    requires room { HasRoom path.now n }
    requires inside { w < size_under path.now n }
    ensures value { result ≡ at (inner_of path.now n) w }
    ensures item { result < n }
{
    match path.split_first() {
        None => w,
        Some((tensor, rest)) => match tensor {
            Tensor::Blocks(_) => item_in_copy(rest, n, w % size_of_whole(rest, n)),
            Tensor::Columns(count) => item_in_copy(rest, n, w / count),
        },
    }
}
