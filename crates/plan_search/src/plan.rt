// Plans, and why there may be none.
ghost use Rattle.std.specs.Prelude.{◌≡◌};
ghost use Rattle.plan_search.specs.declared.plan.PlanError.TheVariants.{NoMemory};

use memory::NoMemory;
use thiserror::Error;
use tree_model::Tree;

/// A tree and its cost.
#[derive(Drop)]
pub struct Plan {
    pub tree: Tree,
    pub cost: u64,
}

/// Why there is no plan.
#[derive(Clone, Copy, PartialEq, Eq, Debug, Error)]
pub enum PlanError {
    /// No tree fits the request's processors, line and lanes.
    #[error("no tree fits the processors, line and lanes")]
    NoDivide,
    /// The least cost is over the budget.
    #[error("the least cost {cost} is over the budget {budget}")]
    OverBudget { cost: u64, budget: u64 },
    /// Memory ran out.
    #[error("out of memory")]
    NoMemory,
}

impl From<NoMemory> for PlanError {
    ghost from_gives = { λ _ e. e ≡ NoMemory };

    fn from(_: NoMemory) -> Self {
        PlanError::NoMemory
    }
}
