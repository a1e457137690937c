// The entries of diagonals.
ghost use Rattle.std.specs.Prelude.{◌≡◌, ℕ, ◌^◌, ◌<◌, IfOk, length};
ghost use Rattle.index_fn.specs.Mapping.{at};
ghost use Rattle.matrix_meaning.specs.Laws.{twiddle};
ghost use Rattle.operators.specs.Sum.{list_below};
ghost use Rattle.code_gen.specs.PassCode.Statements.{diagonal_of, one_factor};
ghost use Rattle.sigma_spl.specs.Nest.{inner_of};
ghost use Rattle.sigma_spl.specs.Views.{plain_factors};
ghost use Rattle.code_gen.specs.Additions.{entries_under};
ghost use Rattle.code_gen.specs.Conditions.{CanList};
ghost use Rattle.operators.specs.Paths.Tensors.{size_under};

use memory::NoMemory;
use operators::Tensor;
use ring_mod::Modulus;
use sigma_spl::Factors;
use std::alloc::Global;

// The twiddle factors of a number of columns.
fn twiddles(
    alloc: Global,
    modulus: &Modulus,
    root: u64,
    cols: u64,
    size: u64,
) -> Result<Vec<u64>, NoMemory>
    requires cols { 0 < cols }
    ensures { IfOk result (λ y. y.items ≡ list_below size (twiddle modulus.now cols root)) }
{
    let base = modulus.reduce(root);
    let mut items = Vec::new(alloc);
    for place in 0..size {
        let exponent = (place / cols) * (place % cols);
        items.push(modulus.pow(base, exponent))?;
    }
    Ok(items)
}

// The size of the whole under the tensors of a path.
fn whole_size(path: &[Tensor], size: u64) -> u64
    requires some { 0 < size_under path.now size }
    requires small { size_under path.now size < 2 ^ 32 }
    ensures { result ≡ size_under path.now size }
{
    match path.split_first() {
        None => size,
        Some((tensor, rest)) => tensor.count() * whole_size(rest, size),
    }
}

// Which item of a copy of this size stands at a place.
fn inner_place(path: &[Tensor], size: u64, place: u64) -> u64
    requires inside { place < size_under path.now size }
    requires small { size_under path.now size < 2 ^ 32 }
    ensures value { result ≡ at (inner_of path.now size) place }
    ensures below { result < size }
{
    match path.split_first() {
        None => place,
        Some((Tensor::Blocks(_), rest)) => inner_place(rest, size, place % whole_size(rest, size)),
        Some((Tensor::Columns(count), rest)) => inner_place(rest, size, place / *count),
    }
}

// The factors of copies of a diagonal under the tensors of a path.
fn spread(alloc: Global, path: &[Tensor], inner: &[u64]) -> Result<Vec<u64>, NoMemory>
    requires some { 0 < size_under path.now (length inner.now) }
    requires small { size_under path.now (length inner.now) < 2 ^ 32 }
    ensures { IfOk result (λ y. y.items ≡ entries_under path.now inner.now) }
{
    let size = inner.len() as u64;
    let mut items = Vec::new(alloc);
    for place in 0..whole_size(path, size) {
        items.push(inner[inner_place(path, size, place) as usize])?;
    }
    Ok(items)
}

// A factor, `count` times.
fn repeated(alloc: Global, factor: u64, count: u64) -> Result<Vec<u64>, NoMemory>
    ensures { IfOk result (λ y. y.items ≡ list_below count (λ _. factor)) }
{
    let mut items = Vec::new(alloc);
    for _ in 0..count {
        items.push(factor)?;
    }
    Ok(items)
}

/// The one factor of a diagonal that repeats it.
pub(crate) fn one_factor(factors: &Factors) -> Option<u64>
    ensures { result ≡ one_factor (plain_factors factors.now) }
{
    match factors {
        Factors::Values(_) => None,
        Factors::Twiddles { .. } => None,
        Factors::Repeated { value, .. } => Some(*value),
        Factors::Spread { factors, .. } => one_factor(factors),
    }
}

/// The entries of a diagonal.
pub(crate) fn diagonal(
    alloc: Global,
    modulus: &Modulus,
    factors: &Factors,
) -> Result<Vec<u64>, NoMemory>
    requires { CanList (plain_factors factors.now) }
    ensures { IfOk result (λ y. y.items ≡ diagonal_of modulus.now (plain_factors factors.now)) }
{
    match factors {
        Factors::Values(entries) => {
            let entries = Vec::from_slice(alloc, entries)?;
            Ok(entries)
        }
        Factors::Twiddles { rows, cols, root } => {
            let entries = twiddles(alloc, modulus, *root, *cols, *rows * *cols)?;
            Ok(entries)
        }
        Factors::Repeated { value, count } => {
            let entries = repeated(alloc, *value, *count)?;
            Ok(entries)
        }
        Factors::Spread { path, factors } => {
            let inner = diagonal(alloc, modulus, factors)?;
            let entries = spread(alloc, path, &inner)?;
            Ok(entries)
        }
    }
}
