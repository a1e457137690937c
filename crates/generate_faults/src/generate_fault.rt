// Why there is no program for a transform.
ghost use Rattle.std.specs.Prelude.{◌≡◌};
ghost use Rattle.generate_faults.specs.declared.generate_fault.GenerateFault.TheVariants as fault;

use memory::NoMemory;
use plan_search::PlanError;
use thiserror::Error;

/// Why there is no program.
#[derive(Clone, Copy, PartialEq, Eq, Debug, Error)]
pub enum GenerateFault {
    /// The root to the power of the size is not 1.
    #[error("the root to the power of the size is {power}, not 1")]
    Root { power: u64 },
    /// No tree fits the request's processors, line and lanes.
    #[error("no tree fits the processors, line and lanes")]
    NoDivide,
    /// The least cost is over the budget.
    #[error("the least cost {cost} is over the budget {budget}")]
    OverBudget { cost: u64, budget: u64 },
    /// Memory ran out.
    #[error("out of memory")]
    NoMemory,
}

impl From<NoMemory> for GenerateFault {
    ghost from_gives = { λ _ e. e ≡ fault.NoMemory };

    fn from(_error: NoMemory) -> Self {
        GenerateFault::NoMemory
    }
}

impl From<PlanError> for GenerateFault {
    ghost use Rattle.generate_faults.specs.PlanFaults.{fault_of};

    ghost from_gives = { λ error e. e ≡ fault_of error };

    fn from(error: PlanError) -> Self {
        match error {
            PlanError::NoDivide => GenerateFault::NoDivide,
            PlanError::OverBudget { cost, budget } => GenerateFault::OverBudget { cost, budget },
            PlanError::NoMemory => GenerateFault::NoMemory,
        }
    }
}
