// The plan of a request.
ghost use Rattle.std.specs.Prelude.{◌≡◌, ◌≢◌, Ok, Err, IfOk, IfErr, OnOk};
ghost use Rattle.generate.specs.Planned.{IsAdmitted, IsBarred, IsPlanned, IsRooted};
ghost use Rattle.matrix_meaning.specs.Valid.{IsInRange, IsValid};
ghost use Rattle.generate_faults.specs.declared.generate_fault.GenerateFault.TheVariants as fault;
ghost use Rattle.tree_model.specs.Breakdown.{breakdown_of};
ghost use Rattle.tree_model.specs.Chosen.{whole_cost};

use generate_faults::GenerateFault;
use matrix_meaning::Request;
use plan_search::{Plan, best};
use std::alloc::Global;
use tree_model::{Ctx, divides};

// Each root to the power of its size is 1, or this is the first power that is not.
fn check_roots(request: &Request) -> Result<(), GenerateFault>
    requires { IsInRange request.now }
    ensures rooted { OnOk result (IsRooted request.now) }
    ensures valid { OnOk result (IsValid request.now) }
    ensures barred { IfErr result (IsBarred request.now) }
    ensures refused { IfErr result (λ cause. IsPlanned request.now (Err cause)) }
{
    match request.bad_power() {
        None => Ok(()),
        Some(power) => Err(GenerateFault::Root { power }),
    }
}

/// Whether some program computes what the request asks for, whatever its cost; or the first cause why none does.
pub fn admit(request: &Request) -> Result<(), GenerateFault>
    requires { IsInRange request.now }
    ensures admitted { OnOk result (IsAdmitted request.now) }
    ensures valid { OnOk result (IsValid request.now) }
    ensures barred { IfErr result (IsBarred request.now) }
{
    check_roots(request)?;
    if !divides(&Ctx::new(request)) {
        return Err(GenerateFault::NoDivide);
    }
    Ok(())
}

/// The cheapest tree of the request with the cost of the whole, or the first cause to refuse it.
pub fn plan(alloc: Global, request: &Request) -> Result<Plan, GenerateFault>
    requires { IsInRange request.now }
    ensures planned { IfOk result (λ plan. IsPlanned request.now (Ok (breakdown_of plan.tree))) }
    ensures cost { IfOk result (λ plan.
        plan.cost ≡ whole_cost request.now (breakdown_of plan.tree)) }
    ensures valid { IfOk result (λ plan. IsValid request.now) }
    ensures refused { IfErr result (λ cause.
        cause ≢ fault.NoMemory → IsPlanned request.now (Err cause)) }
{
    check_roots(request)?;
    let plan = best(alloc, &Ctx::new(request), request.budget)?;
    Ok(plan)
}
