// Places of items under tensors, as sums of the loops' variables.
ghost use Rattle.std.specs.Prelude.{◌≡◌, IfOk, All, map};
ghost use Rattle.sigma_spl.specs.Merge.{place_sum, renumbered};
ghost use Rattle.perm_algebra.specs.Views.{plain_sum};
ghost use Rattle.loop_nests.specs.Placed.{CanPlace, CanRenumber};

use memory::NoMemory;
use operators::Tensor;
use perm_algebra::{Affine, both, copy, multiple};
use sigma_spl::size_of_whole;
use std::alloc::Global;

/// The place of each item in the copy that the variables of the path name.
pub(crate) fn all_placed(
    alloc: Global,
    path: &[Tensor],
    size: u64,
    items: &[Affine],
) -> Result<Vec<Affine>, NoMemory>
    requires { All (λ e. CanPlace path.now size 0 (plain_sum e)) items.now }
    ensures { IfOk result (λ places.
        map plain_sum places.items ≡ map (place_sum path.now size 0) (map plain_sum items.now)) }
{
    let mut places = Vec::with_capacity(alloc, items.len())?;
    for item in items {
        let one = placed(alloc, path, size, 0, copy(alloc, item)?)?;
        places.push(one)?;
    }
    Ok(places)
}

/// The place of an item in the copy that the variables from this one on name.
pub(crate) fn placed(
    alloc: Global,
    path: &[Tensor],
    size: u64,
    variable: u64,
    item: Affine,
) -> Result<Affine, NoMemory>
    requires { CanPlace path.now size variable (plain_sum item) }
    ensures { IfOk result (λ place.
        plain_sum place ≡ place_sum path.now size variable (plain_sum item)) }
{
    match path.split_first() {
        None => Ok(item),
        Some((tensor, rest)) => {
            let inner = placed(alloc, rest, size, variable + 1, item)?;
            let end = Box::new(alloc, Affine::Constant(0))?;
            let copies = Affine::Variable(1, variable, end);
            match tensor {
                Tensor::Blocks(_) => {
                    let whole = size_of_whole(rest, size);
                    let begin = multiple(whole, copies);
                    Ok(both(begin, inner))
                }
                Tensor::Columns(count) => {
                    let begin = multiple(*count, inner);
                    Ok(both(begin, copies))
                }
            }
        }
    }
}

/// The sum's variables get higher numbers.
pub(crate) fn renumber(by: u64, sum: &mut Affine)
    requires { CanRenumber by (plain_sum sum.old) }
    ensures { plain_sum sum.new ≡ renumbered by (plain_sum sum.old) }
{
    match sum {
        Affine::Constant(_) => (),
        Affine::Variable(_, variable, rest) => {
            *variable += by;
            renumber(by, rest);
        }
        Affine::Remainder(_, of, _, rest) => {
            renumber(by, of);
            renumber(by, rest);
        }
        Affine::Quotient(_, of, _, rest) => {
            renumber(by, of);
            renumber(by, rest);
        }
    }
}
