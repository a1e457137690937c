// Passes whose last one multiplies each item that it stores by a factor of a diagonal.
ghost use Rattle.std.specs.Prelude.{◌≡◌, IfOk};
ghost use Rattle.loop_merge.specs.MultipliedPasses.Multiplied.{multiplied_last};
ghost use Rattle.loop_merge.specs.MultipliedPasses.Views.{plain_passes};
ghost use Rattle.sigma_spl.specs.Views.{plain_factors};

use loop_nests::multiplied_in_order;
use memory::NoMemory;
use sigma_spl::{Factors, Nest};
use std::alloc::Global;

/// The passes of one phase, of which the last one now multiplies each item that it stores by the factor of its place.
pub(crate) fn multiply_last_pass(
    alloc: Global,
    passes: Vec<Vec<Nest>>,
    factors: &Factors,
) -> Result<Vec<Vec<Nest>>, NoMemory>
    ensures { IfOk result (λ changed.
        plain_passes changed.items
        ≡ multiplied_last (plain_factors factors.now) (plain_passes passes.items)) }
{
    let mut passes = passes;
    match passes.pop() {
        None => Ok(passes),
        Some(last) => {
            passes.push(multiplied_in_order(alloc, factors, &last)?)?;
            Ok(passes)
        }
    }
}
