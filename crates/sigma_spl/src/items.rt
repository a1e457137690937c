// The items of a copy, as sums of variables.
ghost use Rattle.std.specs.Prelude.{◌≡◌, ◌+◌, ◌*◌, ◌-◌, ◌^◌, ◌<◌, [], ◌∷◌, IfOk, map};
ghost use Rattle.std.specs.List.{range_with_len};
ghost use Rattle.sigma_spl.specs.Merge.{items_in, items_out};
ghost use Rattle.sigma_spl.specs.Views.{plain_work};
ghost use Rattle.sigma_spl.specs.Work.{HasWords};
ghost use Rattle.perm_algebra.specs.Affine.{constant, remainder, variable};
ghost use Rattle.perm_algebra.specs.Views.{plain_sum};

use crate::Work;
use memory::NoMemory;
use perm_algebra::Affine;
use std::alloc::Global;

/// The items that a copy loads, where its loops have `depth` variables: of straight work one for each register, its first
/// item; of work by rows one for all, by the variable of the columns.
pub fn items_in(alloc: Global, work: &Work, depth: u64) -> Result<Vec<Affine>, NoMemory>
    requires words { HasWords (plain_work work.now) }
    requires depth { depth + 1 < 2 ^ 64 }
    ensures { IfOk result
        (λ items. map plain_sum items.items ≡ items_in (plain_work work.now) depth) }
{
    match work {
        Work::Dense { .. } => one(alloc, multiple_of(alloc, 1, depth + 1, 0)?),
        Work::Horner { size, .. } => one(alloc, backwards(alloc, *size, depth + 1)?),
        Work::Tile { lanes } => multiples(alloc, *lanes),
        Work::Kernel { .. } | Work::Short { .. } | Work::Copy { .. } => numbers(alloc, work.size()),
    }
}

/// The items that a copy stores: work by rows names them by the variable of the rows.
pub fn items_out(alloc: Global, work: &Work, depth: u64) -> Result<Vec<Affine>, NoMemory>
    requires { HasWords (plain_work work.now) }
    ensures { IfOk result
        (λ items. map plain_sum items.items ≡ items_out (plain_work work.now) depth) }
{
    match work {
        Work::Dense { .. } | Work::Horner { .. } => one(alloc, multiple_of(alloc, 1, depth, 0)?),
        Work::Tile { lanes } => multiples(alloc, *lanes),
        Work::Kernel { .. } | Work::Short { .. } | Work::Copy { .. } => numbers(alloc, work.size()),
    }
}

fn one(alloc: Global, item: Affine) -> Result<Vec<Affine>, NoMemory>
    ensures { IfOk result (λ items. map plain_sum items.items ≡ plain_sum item ∷ []) }
{
    let mut items = Vec::new(alloc);
    items.push(item)?;
    Ok(items)
}

// A multiple of the variable d, and a number.
fn multiple_of(alloc: Global, factor: u64, d: u64, number: u64) -> Result<Affine, NoMemory>
    ensures { IfOk result (λ sum. plain_sum sum ≡ variable factor d (constant number)) }
{
    let end = Box::new(alloc, Affine::Constant(number))?;
    Ok(Affine::Variable(factor, d, end))
}

// The last item first: less 1 is as much as `size - 1` more, modulo the size.
fn backwards(alloc: Global, size: u64, column: u64) -> Result<Affine, NoMemory>
    ensures { IfOk result (λ sum. plain_sum sum
        ≡ remainder 1 (variable (size - 1) column (constant (size - 1))) size (constant 0)) }
{
    let last = size.saturating_sub(1);
    let turned = Box::new(alloc, multiple_of(alloc, last, column, last)?)?;
    let end = Box::new(alloc, Affine::Constant(0))?;
    Ok(Affine::Remainder(1, turned, size, end))
}

// The numbers below this one.
fn numbers(alloc: Global, count: u64) -> Result<Vec<Affine>, NoMemory>
    ensures { IfOk result
        (λ numbers. map plain_sum numbers.items ≡ map constant (range_with_len 0 count)) }
{
    let mut numbers = Vec::new(alloc);
    for k in 0..count {
        numbers.push(Affine::Constant(k))?;
    }
    Ok(numbers)
}

// The first item of each vector of a tile.
fn multiples(alloc: Global, lanes: u64) -> Result<Vec<Affine>, NoMemory>
    requires { lanes * lanes < 2 ^ 64 }
    ensures { IfOk result (λ items. map plain_sum items.items
        ≡ map (λ k. constant (k * lanes)) (range_with_len 0 lanes)) }
{
    let mut items = Vec::new(alloc);
    for k in 0..lanes {
        items.push(Affine::Constant(k * lanes))?;
    }
    Ok(items)
}
