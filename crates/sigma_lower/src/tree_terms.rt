// Index functions of permutations under tensors.
ghost use Rattle.std.specs.Prelude.{◌≡◌, IfOk};
ghost use Rattle.index_fn.specs.Index.{mapping_of};
ghost use Rattle.sigma_spl.specs.Room.{HasRoom};
ghost use Rattle.sigma_lower.specs.TreeTerms.Wrapped.{wrapped};

use index_fn::Index;
use memory::NoMemory;
use operators::Tensor;
use sigma_spl::size_of_whole;
use std::alloc::Global;

/// The index function of a permutation of size `n` under the tensors of the path.
pub fn under(alloc: Global, path: &[Tensor], n: u64, f: Index) -> Result<Index, NoMemory>
    requires { HasRoom path.now n }
    ensures { IfOk result (λ g. mapping_of g ≡ wrapped path.now n (mapping_of f)) }
{
    match path.split_first() {
        None => Ok(f),
        Some((tensor, rest)) => {
            let size = size_of_whole(rest, n);
            let inner = Box::new(alloc, under(alloc, rest, n, f)?)?;
            let other = Box::new(alloc, Index::Identity)?;
            match tensor {
                Tensor::Blocks(_) => Ok(Index::Tensor(other, size, inner, size)),
                Tensor::Columns(count) => Ok(Index::Tensor(inner, *count, other, *count)),
            }
        }
    }
}
