// The sizes of matrices under the tensors of a path.
ghost use Rattle.std.specs.Prelude.{◌≡◌};
ghost use Rattle.sigma_spl.specs.Room.{HasRoom};
ghost use Rattle.operators.specs.Paths.Tensors.{size_under};

use operators::Tensor;

/// The size of the whole, around a matrix of size `n`.
pub fn size_of_whole(path: &[Tensor], n: u64) -> u64
    requires { HasRoom path.now n }
    ensures { result ≡ size_under path.now n }
{
    match path.split_first() {
        None => n,
        Some((tensor, rest)) => {
            let size = size_of_whole(rest, n);
            match tensor {
                Tensor::Blocks(count) => count * size,
                Tensor::Columns(count) => size * count,
            }
        }
    }
}
