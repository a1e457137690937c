// The plan of a convolution.
ghost use Rattle.std.specs.Prelude.{◌≡◌, ◌≢◌, ◌*◌, ◌≤◌, Ok, Err, IfOk, IfErr, OnOk};
ghost use Rattle.matrix_meaning.specs.Convolving.{IsConvRequest};
ghost use Rattle.generate.specs.Planned.{IsRooted};
ghost use Rattle.matrix_meaning.specs.Valid.{IsValid};
ghost use Rattle.tree_model.specs.Breakdown.{breakdown_of};
ghost use Rattle.tree_model.specs.Chosen.{IsWholeChosen, whole_cost};
ghost use Rattle.generate.specs.ConvPlanned.{HasPrincipalRoot, IsConvPlanned, conv_cost};
ghost use Rattle.generate_faults.specs.declared.conv_fault.ConvFault.TheVariants as fault;

use generate_faults::ConvFault;
use matrix_meaning::{Request, first_bad_power};
use memory::NoMemory;
use plan_search::{Plan, PlanError, best};
use ring_mod::Modulus;
use std::alloc::Global;
use tree_model::Ctx;

/// The cheapest tree for both transforms of a convolution, with the cost of the whole; or the first cause to refuse.
pub fn plan_conv(alloc: Global, request: &Request) -> Result<Plan, ConvFault>
    requires { IsConvRequest request.now }
    ensures planned { IfOk result
        (λ plan. IsConvPlanned request.now (Ok (breakdown_of plan.tree))) }
    ensures cost { IfOk result
        (λ plan. plan.cost ≡ conv_cost request.now (breakdown_of plan.tree)) }
    ensures valid { IfOk result (λ plan. IsValid request.now) }
    ensures refused { IfErr result (λ cause. cause ≢ fault.NoMemory
        → IsConvPlanned request.now (Err cause)) }
{
    check_root(request)?;
    let Plan { tree, cost } = cheapest(alloc, request)?;
    let cost = 2 * cost + request.weight * request.size;
    if cost > request.budget {
        return Err(ConvFault::OverBudget {
            cost,
            budget: request.budget,
        });
    }
    Ok(Plan { tree, cost })
}

// The root is one of the size, and principal.
fn check_root(request: &Request) -> Result<(), ConvFault>
    requires { IsConvRequest request.now }
    ensures rooted { OnOk result (IsRooted request.now) }
    ensures valid { OnOk result (IsValid request.now) }
    ensures principal { OnOk result (HasPrincipalRoot request.now) }
    ensures refused { IfErr result (λ cause. IsConvPlanned request.now (Err cause)) }
{
    if let Some(power) = request.bad_power() {
        return Err(ConvFault::Root { power });
    }
    let modulus = Modulus::new(request.modulus).unwrap();
    match first_bad_power(&modulus, request.size, request.root) {
        None => Ok(()),
        Some(k) => Err(ConvFault::NotPrincipal { k }),
    }
}

// The first of the cheapest trees, whatever it costs.
fn cheapest(alloc: Global, request: &Request) -> Result<Plan, NoMemory>
    requires request { IsConvRequest request.now }
    requires valid { IsValid request.now }
    ensures tree { IfOk result (λ plan. IsWholeChosen request.now (breakdown_of plan.tree)) }
    ensures cost { IfOk result (λ plan. plan.cost ≡ whole_cost request.now (breakdown_of plan.tree)) }
    ensures small { IfOk result (λ plan.
        plan.cost ≤ 2001 * (request.now.size * request.now.size)) }
{
    let context = Ctx::new(request);
    match best(alloc, &context, u64::MAX) {
        Ok(plan) => Ok(plan),
        Err(PlanError::NoMemory) => Err(NoMemory),
        Err(PlanError::NoDivide | PlanError::OverBudget { .. }) => unreachable!(),
    }
}
