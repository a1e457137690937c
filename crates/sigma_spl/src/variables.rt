// What the variables of a nest run below. Most nests have few loops, so these lists take no memory of an allocator.
ghost use Rattle.std.specs.Prelude.{◌≡◌, ◌++◌, ◌∷◌, [], IfOk, map};
ghost use Rattle.operators.specs.Paths.Tensors.{count_of};

use memory::NoMemory;
use operators::Tensor;
use smallvec::SmallVec;
use std::alloc::Global;

/// How often the loop of each tensor runs.
pub fn counts(alloc: Global, path: &[Tensor]) -> Result<SmallVec<u64, 8>, NoMemory>
    ensures { IfOk result (λ counts. counts.items ≡ map count_of path.now) }
{
    let mut counts = SmallVec::new(alloc);
    for tensor in path {
        counts.push(tensor.count())?;
    }
    Ok(counts)
}

/// What all variables run below, round copies of `size` items: those of the loops, of the rows and of the columns.
pub fn limits(alloc: Global, counts: &[u64], size: u64) -> Result<SmallVec<u64, 10>, NoMemory>
    ensures { IfOk result (λ limits. limits.items ≡ counts.now ++ size ∷ size ∷ []) }
{
    let mut limits = SmallVec::from_slice(alloc, counts)?;
    limits.push(size)?;
    limits.push(size)?;
    Ok(limits)
}
