// Back past permutations, to the factors of a diagonal. A diagonal that comes after permutations goes into the pass before them.
// An item of that pass is not yet at its last place, so its factor is found by the inverses of the permutations, the earliest first.
ghost use Rattle.std.specs.Prelude.{◌≡◌, ℕ, ◌^◌, ◌<◌, ◌≤◌, IfOk};
ghost use Rattle.index_fn.specs.Index.{mapping_of};
ghost use Rattle.sigma_spl.specs.Merge.{backs_of, factor_places};
ghost use Rattle.sigma_spl.specs.Nest.{factor_count, inner_of};
ghost use Rattle.sigma_spl.specs.Views.{plain_factors};
ghost use Rattle.sigma_spl.specs.Room.{HasCount, HasRoom};
ghost use Rattle.operators.specs.Paths.Tensors.{size_under};
ghost use Rattle.loop_nests.specs.Places.Known.{AreSteps};
ghost use Rattle.loop_nests.specs.Places.Views.{mappings_of, waiting_of};

use index_fn::Index;
use memory::NoMemory;
use operators::Tensor;
use sigma_spl::{Factors, size_of_whole};
use std::alloc::Global;

/// How many factors there are.
pub fn factor_count(factors: &Factors) -> u64
    requires { HasCount (plain_factors factors.now) }
    ensures { result ≡ factor_count (plain_factors factors.now) }
{
    match factors {
        Factors::Values(entries) => entries.len() as u64,
        Factors::Twiddles { rows, cols, .. } => rows * cols,
        Factors::Repeated { count, .. } => *count,
        Factors::Spread { path, factors } => {
            let count = factor_count(factors);
            size_of_whole(path, count)
        }
    }
}

/// The functions that lead from a place of the last pass to its factor, past the gathers that wait.
#[tactic(auto, using(sigma_spl::proofs::Fitting::has_count, sigma_spl::proofs::Fitting::part_room))]
pub fn factor_places(
    alloc: Global,
    waiting: &[Index],
    path: &[Tensor],
    factors: &Factors,
) -> Result<Vec<Index>, NoMemory>
    requires waiting { (n : ℕ) × AreSteps n (waiting_of waiting.now) }
    requires some { 0 < size_under path.now (factor_count (plain_factors factors.now)) }
    requires high { size_under path.now (factor_count (plain_factors factors.now)) ≤ 2 ^ 20 }
    ensures { IfOk result (λ fs. mappings_of fs.items
        ≡ factor_places (waiting_of waiting.now) path.now (plain_factors factors.now)) }
{
    let mut places = backs_of(alloc, waiting)?;
    let count = factor_count(factors);
    let item = inner_of(alloc, path, count)?;
    places.push(item)?;
    Ok(places)
}

// Back past the gathers that wait, the earliest first.
fn backs_of(alloc: Global, waiting: &[Index]) -> Result<Vec<Index>, NoMemory>
    requires { (n : ℕ) × AreSteps n (waiting_of waiting.now) }
    ensures { IfOk result (λ fs. mappings_of fs.items ≡ backs_of (waiting_of waiting.now)) }
{
    match waiting.split_last() {
        None => Ok(Vec::new(alloc)),
        Some((f, rest)) => {
            let mut backs = backs_of(alloc, rest)?;
            let back = f.inverse(alloc)?;
            backs.push(back)?;
            Ok(backs)
        }
    }
}

// Which item of its copy, of size `n`, stands at a place.
fn inner_of(alloc: Global, path: &[Tensor], n: u64) -> Result<Index, NoMemory>
    requires { HasRoom path.now n }
    ensures { IfOk result (λ f. mapping_of f ≡ inner_of path.now n) }
{
    match path.split_first() {
        None => Ok(Index::Identity),
        Some((tensor, rest)) => {
            let size = size_of_whole(rest, n);
            let item = Box::new(alloc, inner_of(alloc, rest, n)?)?;
            let none = Box::new(alloc, Index::Constant(0))?;
            match tensor {
                Tensor::Blocks(_) => Ok(Index::Tensor(none, 0, item, size)),
                Tensor::Columns(count) => Ok(Index::Tensor(item, 1, none, *count)),
            }
        }
    }
}
