// Why there is no program for a convolution.
ghost use Rattle.std.specs.Prelude.{◌≡◌};
ghost use Rattle.generate_faults.specs.declared.conv_fault.ConvFault.TheVariants as fault;

use memory::NoMemory;
use thiserror::Error;

/// Why there is no program for a convolution.
#[derive(Clone, Copy, PartialEq, Eq, Debug, Error)]
pub enum ConvFault {
    /// The root to the power of the size is not 1.
    #[error("the root to the power of the size is {power}, not 1")]
    Root { power: u64 },
    /// The least k from 1 on at which the sum of the root's powers `w^(k*l)`, l below the size, is not 0.
    #[error("the power sum {k} is not zero")]
    NotPrincipal { k: u64 },
    /// The least cost of a convolution is over the budget.
    #[error("the least cost {cost} is over the budget {budget}")]
    OverBudget { cost: u64, budget: u64 },
    /// Memory ran out.
    #[error("out of memory")]
    NoMemory,
}

impl From<NoMemory> for ConvFault {
    ghost from_gives = { λ _ e. e ≡ fault.NoMemory };

    fn from(_error: NoMemory) -> Self {
        ConvFault::NoMemory
    }
}
