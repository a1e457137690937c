//! What a formula does to a list, by its definition.

ghost use Rattle.std.specs.Prelude.{◌≡◌, ℕ, ◌+◌, ◌*◌, ◌/◌, ◌%◌, ◌<◌, ◌≤◌, length, slice_index, IfOk};
ghost use Rattle.matrix_meaning.specs.Kind.{transform};
ghost use Rattle.matrix_meaning.specs.Laws.{twiddle};
ghost use Rattle.operators.specs.Operator.{gather, on_blocks, on_columns, scale, stride, good_thomas_in, good_thomas_out};
ghost use Rattle.ring_mod.specs.Residue.{power_mod};
ghost use Rattle.spl_ast.specs.Formula.{size_of};
ghost use Rattle.spl_ast.specs.Meaning.{apply, IsVector};
ghost use Rattle.spl_ast.specs.Shape.{AreGoodThomasFactors, IsMultiple, IsSize};

use crate::places::{by_places, turned};
use crate::{NoMemory, Node, Spl};
use matrix_meaning::{Kind, times_plain};
use ring_mod::Modulus;
use std::alloc::Global;

impl Spl {
    /// The formula times the list `x`, modulo `m`, each part by its definition.
    pub fn apply_plain(alloc: Global, m: &Modulus, f: &Spl, x: &[u64]) -> Result<Vec<u64>, NoMemory>
        requires vector { IsVector m.now (size_of f.now) x.now }
        ensures value { IfOk result (λ y. y.items ≡ apply m.now f.now x.now) }
        ensures vector { IfOk result (λ y. IsVector m.now (size_of f.now) y.items) }
    {
        // For the proof: the formula is well formed.
        let _ = &f.node;
        let y = times(alloc, m, f, x)?;
        Ok(y)
    }
}

#[cycle(apply)]
#[tactic(auto, using(crate::proofs::Vectors::apply_vector))]
fn times(alloc: Global, m: &Modulus, f: &Spl, x: &[u64]) -> Result<Vec<u64>, NoMemory>
    requires vector { IsVector m.now (size_of f.now) x.now }
    ensures { IfOk result (λ y. y.items ≡ apply m.now f.now x.now) }
{
    match &f.node {
        Node::I(_) => Ok(Vec::from_slice(alloc, x)?),
        Node::Dft(n, w) => transformed(alloc, m, Kind::Dft, *n, *w, x),
        Node::Wht(n) => transformed(alloc, m, Kind::Wht, *n, 0, x),
        Node::Twiddle(n, s, w) => twiddles_times(alloc, m, *n, *s, *w, x),
        Node::Diag(values) => diagonal_times(alloc, m, values, x),
        Node::L(n, r) => by_stride(alloc, *n, *r, x),
        Node::Perm(places) => by_places(alloc, places, x),
        Node::GtIn(r, s) => by_good_thomas_in(alloc, *r, *s, x),
        Node::GtOut(r, s) => by_good_thomas_out(alloc, *r, *s, x),
        Node::Compose(a, b) => {
            let y = times(alloc, m, b, x)?;
            times(alloc, m, a, &y)
        }
        Node::TensorLeft(a, k) => columns_times(alloc, m, a, *k, x),
        Node::TensorRight(k, a) => blocks_times(alloc, m, *k, a, x),
        Node::DirectSum(a, b) => {
            let (first, second) = x.split_at(a.rows() as usize);
            let mut y = times(alloc, m, a, first)?;
            let rest = times(alloc, m, b, second)?;
            y.extend_from_slice(&rest)?;
            Ok(y)
        }
        Node::Todo(a) => times(alloc, m, a, x),
    }
}

// The formula on each of `count` blocks.
#[cycle(apply)]
fn blocks_times(
    alloc: Global,
    m: &Modulus,
    count: u64,
    a: &Spl,
    x: &[u64],
) -> Result<Vec<u64>, NoMemory>
    requires size { IsSize (count * size_of a.now) }
    requires vector { IsVector m.now (count * size_of a.now) x.now }
    ensures { IfOk result
        (λ y. y.items ≡ on_blocks count (size_of a.now) (apply m.now a.now) x.now) }
{
    let size = a.rows();
    let mut out = Vec::new(alloc);
    for i in 0..count {
        let from = (i * size) as usize;
        let part = times(alloc, m, a, &x[from..from + size as usize])?;
        out.extend_from_slice(&part)?;
    }
    Ok(out)
}

// The formula on each of `count` columns: on blocks, between two turns.
#[cycle(apply)]
fn columns_times(
    alloc: Global,
    m: &Modulus,
    a: &Spl,
    count: u64,
    x: &[u64],
) -> Result<Vec<u64>, NoMemory>
    requires size { IsSize (size_of a.now * count) }
    requires vector { IsVector m.now (size_of a.now * count) x.now }
    ensures { IfOk result
        (λ y. y.items ≡ on_columns (size_of a.now) count (apply m.now a.now) x.now) }
{
    let size = a.rows();
    let columns = turned(alloc, count, size, x)?;
    let parts = blocks_times(alloc, m, count, a, &columns)?;
    let y = turned(alloc, size, count, &parts)?;
    Ok(y)
}

/// The transform of a kind and size, by any root.
#[tactic(auto, using(crate::proofs::Residues::transform_of_reduced))]
pub fn transformed(
    alloc: Global,
    m: &Modulus,
    kind: Kind,
    size: u64,
    root: u64,
    x: &[u64],
) -> Result<Vec<u64>, NoMemory>
    requires { IsVector m.now size x.now }
    ensures { IfOk result (λ y. y.items ≡ transform kind m.now size root x.now) }
{
    let y = times_plain(alloc, kind, &[size], &[m.reduce(root)], m.get(), x)?;
    Ok(y)
}

// The twiddle factors of size `n`, in rows of `s`, times `x`.
fn twiddles_times(
    alloc: Global,
    m: &Modulus,
    n: u64,
    s: u64,
    w: u64,
    x: &[u64],
) -> Result<Vec<u64>, NoMemory>
    requires size { IsSize n }
    requires row { IsSize s }
    requires vector { IsVector m.now n x.now }
    ensures { IfOk result (λ y. y.items ≡ scale m.now n (twiddle m.now s w) x.now) }
{
    Ok((0..n).map(|p| twiddled(m, n, s, w, p, x)).collect(alloc)?)
}

fn twiddled(m: &Modulus, n: u64, s: u64, w: u64, p: u64, x: &[u64]) -> u64
    requires size { IsSize n }
    requires row { IsSize s }
    requires place { p < n }
    requires vector { IsVector m.now n x.now }
    ensures { result ≡ (twiddle m.now s w p * slice_index x.now p) % m.now }
{
    m.mul(power(m, w, (p / s) * (p % s)), residue(m, n, p, x))
}

// The diagonal of `values` times `x`.
fn diagonal_times(
    alloc: Global,
    m: &Modulus,
    values: &[u64],
    x: &[u64],
) -> Result<Vec<u64>, NoMemory>
    requires vector { IsVector m.now (length values.now) x.now }
    ensures { IfOk result
        (λ y. y.items ≡ scale m.now (length values.now) (slice_index values.now) x.now) }
{
    Ok(
        (0..values.len())
            .map(|p| scaled(m, values[p], residue(m, values.len() as u64, p as u64, x)))
            .collect(alloc)?,
    )
}

// The items of `x` by the stride `r`.
#[tactic(auto, using(crate::proofs::Blocks::turn_of_stride))]
fn by_stride(alloc: Global, n: u64, r: u64, x: &[u64]) -> Result<Vec<u64>, NoMemory>
    requires size { IsSize n }
    requires stride { IsSize r }
    requires multiple { IsMultiple n r }
    requires long { length x.now ≡ n }
    ensures { IfOk result (λ y. y.items ≡ gather n (stride r (n / r)) x.now) }
{
    let y = turned(alloc, r, n / r, x)?;
    Ok(y)
}

// The items of `x` as a Good-Thomas step takes them.
fn by_good_thomas_in(alloc: Global, r: u64, s: u64, x: &[u64]) -> Result<Vec<u64>, NoMemory>
    requires size { IsSize (r * s) }
    requires factors { AreGoodThomasFactors r s }
    requires long { length x.now ≡ r * s }
    ensures { IfOk result (λ y. y.items ≡ gather (r * s) (good_thomas_in r s) x.now) }
{
    Ok(
        (0..r * s)
            .map(|p| x[good_thomas_place(r, s, p) as usize])
            .collect(alloc)?,
    )
}

fn good_thomas_place(r: u64, s: u64, p: u64) -> u64
    requires size { IsSize (r * s) }
    requires factors { AreGoodThomasFactors r s }
    requires place { p < r * s }
    ensures value { result ≡ good_thomas_in r s p }
    ensures below { result < r * s }
{
    (s * (p / s) + r * (p % s)) % (r * s)
}

// The items of `x` as a Good-Thomas step leaves them.
fn by_good_thomas_out(alloc: Global, r: u64, s: u64, x: &[u64]) -> Result<Vec<u64>, NoMemory>
    requires size { IsSize (r * s) }
    requires factors { AreGoodThomasFactors r s }
    requires long { length x.now ≡ r * s }
    ensures { IfOk result (λ y. y.items ≡ gather (r * s) (good_thomas_out r s) x.now) }
{
    Ok(
        (0..r * s)
            .map(|k| x[((k % r) * s + k % s) as usize])
            .collect(alloc)?,
    )
}

// An item of a vector.
#[tactic(auto, using(crate::proofs::Vectors::residue_at))]
fn residue(m: &Modulus, n: u64, p: u64, x: &[u64]) -> u64
    requires vector { IsVector m.now n x.now }
    requires place { p < n }
    ensures value { result ≡ slice_index x.now p }
    ensures residue { result < m.now }
{
    x[p as usize]
}

// A power of any number.
#[tactic(auto, using(crate::proofs::Residues::power_of_reduced))]
fn power(m: &Modulus, w: u64, e: u64) -> u64
    ensures value { result ≡ power_mod m.now w e }
    ensures residue { result < m.now }
{
    m.pow(m.reduce(w), e)
}

// A residue times any number.
#[tactic(auto, using(crate::proofs::Residues::product_of_reduced))]
fn scaled(m: &Modulus, value: u64, item: u64) -> u64
    requires { item < m.now }
    ensures value { result ≡ (value * item) % m.now }
    ensures residue { result < m.now }
{
    m.mul(m.reduce(value), item)
}
