//! Lists whose items stand at other places.

ghost use Rattle.std.specs.Prelude.{◌≡◌, ℕ, ◌*◌, ◌<◌, length, slice_index, IfOk};
ghost use Rattle.operators.specs.Identities.{turn};
ghost use Rattle.operators.specs.Operator.{gather, stride};
ghost use Rattle.spl_ast.specs.Shape.{IsSize};

use crate::NoMemory;
use std::alloc::Global;

/// The item at `j * r + i` goes to the place `i * s + j`.
pub fn turned(alloc: Global, r: u64, s: u64, x: &[u64]) -> Result<Vec<u64>, NoMemory>
    requires size { IsSize (r * s) }
    requires long { length x.now ≡ r * s }
    ensures { IfOk result (λ y. y.items ≡ turn r s x.now) }
{
    Ok(
        (0..r * s)
            .map(|p| x[stride_place(r, s, p) as usize])
            .collect(alloc)?,
    )
}

#[tactic(auto, using(operators::proofs::Places::stride_below))]
fn stride_place(r: u64, s: u64, p: u64) -> u64
    requires size { IsSize (r * s) }
    requires place { p < r * s }
    ensures value { result ≡ stride r s p }
    ensures below { result < r * s }
{
    (p % s) * r + p / s
}

/// The items of `x` at these places.
pub fn by_places(alloc: Global, places: &[u64], x: &[u64]) -> Result<Vec<u64>, NoMemory>
    requires below { (i : ℕ) → i < length places.now
        → slice_index places.now i < length places.now }
    requires long { length x.now ≡ length places.now }
    ensures { IfOk result
        (λ y. y.items ≡ gather (length places.now) (slice_index places.now) x.now) }
{
    Ok(
        (0..places.len())
            .map(|p| x[places[p] as usize])
            .collect(alloc)?,
    )
}
