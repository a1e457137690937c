// Copies of sums and of factors.
ghost use Rattle.std.specs.Prelude.{◌≡◌, IfOk, map};
ghost use Rattle.sigma_spl.specs.Views.{plain_factors};
ghost use Rattle.perm_algebra.specs.Views.{plain_sum};

use crate::nest::Factors;
use memory::NoMemory;
use perm_algebra::{Affine, copy};
use std::alloc::Global;

/// A copy of the sums, in other memory.
pub fn copied_sums(alloc: Global, sums: &[Affine]) -> Result<Vec<Affine>, NoMemory>
    ensures { IfOk result (λ others. map plain_sum others.items ≡ map plain_sum sums.now) }
{
    let mut others = Vec::with_capacity(alloc, sums.len())?;
    for sum in sums {
        let other = copy(alloc, sum)?;
        others.push(other)?;
    }
    Ok(others)
}

impl Factors {
    /// A copy of the factors, in other memory.
    pub fn copied(&self, alloc: Global) -> Result<Factors, NoMemory>
        ensures { IfOk result (λ others. plain_factors others ≡ plain_factors self.now) }
    {
        match self {
            Factors::Values(entries) => Ok(Factors::Values(entries.as_slice().to_vec(alloc)?)),
            Factors::Twiddles { rows, cols, root } => Ok(Factors::Twiddles {
                rows: *rows,
                cols: *cols,
                root: *root,
            }),
            Factors::Repeated { value, count } => Ok(Factors::Repeated {
                value: *value,
                count: *count,
            }),
            Factors::Spread { path, factors } => {
                let path = path.as_slice().to_vec(alloc)?;
                let factors = Box::new(alloc, factors.copied(alloc)?)?;
                Ok(Factors::Spread { path, factors })
            }
        }
    }
}
