// Registers in the order of a permutation.
ghost use Rattle.std.specs.Prelude.{◌≡◌, ℕ, ◌*◌, ◌^◌, ◌<◌, length, vec_len, IfOk};
ghost use Rattle.operators.specs.Identities.{turn};
ghost use Rattle.operators.specs.Operator.{good_thomas_in, good_thomas_out};
ghost use Rattle.operators.specs.Operator.{gather, stride};

use crate::transform::Grid;
use memory::NoMemory;
use std::alloc::Global;

// The place from which a stride permutation takes its item p.
#[tactic(auto, using(operators::proofs::Places::stride_below))]
fn stride_at(r: u64, s: u64, p: u64) -> u64
    requires place { p < r * s }
    requires room { r * s < 2 ^ 63 }
    ensures value { result ≡ stride r s p }
    ensures inside { result < r * s }
{
    (p % s) * r + p / s
}

/// Rows become columns.
pub(crate) fn turned(alloc: Global, grid: Grid, x: &[u64]) -> Result<Vec<u64>, NoMemory>
    requires room { grid.rows * grid.columns < 2 ^ 63 }
    requires size { length x.now ≡ grid.rows * grid.columns }
    ensures value { IfOk result (λ y. y.items ≡ turn grid.rows grid.columns x.now) }
    ensures size { IfOk result (λ y. vec_len y ≡ grid.rows * grid.columns) }
{
    let Grid { rows, columns } = grid;
    Ok(
        (0..rows * columns)
            .map(|p| x[stride_at(rows, columns, p) as usize])
            .collect(alloc)?,
    )
}

#[tactic(auto, using(crate::proofs::Turns::good_thomas_in_parts))]
fn good_thomas_in_at(r: u64, s: u64, p: u64) -> u64
    requires place { p < r * s }
    requires room { r * s < 2 ^ 63 }
    ensures value { result ≡ good_thomas_in r s p }
    ensures inside { result < r * s }
{
    (s * (p / s) + r * (p % s)) % (r * s)
}

/// The inputs of a transform by Good and Thomas.
pub(crate) fn taken(alloc: Global, grid: Grid, x: &[u64]) -> Result<Vec<u64>, NoMemory>
    requires room { grid.rows * grid.columns < 2 ^ 63 }
    requires size { length x.now ≡ grid.rows * grid.columns }
    ensures value { IfOk result (λ y. y.items
        ≡ gather (grid.rows * grid.columns) (good_thomas_in grid.rows grid.columns) x.now) }
    ensures size { IfOk result (λ y. vec_len y ≡ grid.rows * grid.columns) }
{
    let Grid { rows, columns } = grid;
    Ok(
        (0..rows * columns)
            .map(|p| x[good_thomas_in_at(rows, columns, p) as usize])
            .collect(alloc)?,
    )
}

#[tactic(auto, using(crate::proofs::Turns::good_thomas_out_parts))]
fn good_thomas_out_at(r: u64, s: u64, k: u64) -> u64
    requires place { k < r * s }
    requires room { r * s < 2 ^ 63 }
    ensures value { result ≡ good_thomas_out r s k }
    ensures inside { result < r * s }
{
    (k % r) * s + k % s
}

/// The outputs of a transform by Good and Thomas.
pub(crate) fn put_back(alloc: Global, grid: Grid, x: &[u64]) -> Result<Vec<u64>, NoMemory>
    requires room { grid.rows * grid.columns < 2 ^ 63 }
    requires size { length x.now ≡ grid.rows * grid.columns }
    ensures value { IfOk result (λ y. y.items
        ≡ gather (grid.rows * grid.columns) (good_thomas_out grid.rows grid.columns) x.now) }
    ensures size { IfOk result (λ y. vec_len y ≡ grid.rows * grid.columns) }
{
    let Grid { rows, columns } = grid;
    Ok(
        (0..rows * columns)
            .map(|k| x[good_thomas_out_at(rows, columns, k) as usize])
            .collect(alloc)?,
    )
}
