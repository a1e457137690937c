// The texts of a request's plan: its lines, its formula and its certificate.
ghost use Rattle.std.specs.Prelude.{◌≡◌, ◌++◌, ◌∷◌, ◌<◌, [], Ok, Err, IfOk, IfErr};
ghost use Rattle.generate.specs.Planned.{IsPlanned};
ghost use Rattle.matrix_meaning.specs.Valid.{IsInRange, IsValid};
ghost use Rattle.tree_model.specs.Breakdown.{breakdown_of};
ghost use Rattle.tree_model.specs.Chosen.{whole_cost};
ghost use Rattle.commands.specs.PlanText.{plan_text};
ghost use Rattle.commands.specs.Equations.Orders.{chosen};
ghost use Rattle.commands.specs.Equations.Requests.{IsDocument};
ghost use Rattle.spiral_words.specs.Statuses.Status.{IsDefined};
ghost use Rattle.commands.specs.Input.Refusals.{IsRefusal};

use breakdown::expand;
use generate::plan;
use matrix_meaning::Request;
use memory::NoMemory;
use plan_cert::certify;
use plan_search::Plan;
use spiral_words::{Document, Status};
use spl_text::print_spl;
use std::alloc::{AllocError, Global};
use tree_model::{Ctx, Tree};

// The cheapest tree of the request.
fn chosen_plan(alloc: Global, request: &Request) -> Result<Plan, Status>
    requires { IsInRange request.now }
    ensures planned { IfOk result (λ plan. IsPlanned request.now (Ok (breakdown_of plan.tree))) }
    ensures cost { IfOk result (λ plan.
        plan.cost ≡ whole_cost request.now (breakdown_of plan.tree)) }
    ensures valid { IfOk result (λ plan. IsValid request.now) }
    ensures refused { IfErr result (λ status. IsDefined status → chosen request.now (Err status)) }
    ensures refusal { IfErr result IsRefusal }
{
    let plan = plan(alloc, request)?;
    Ok(plan)
}

// The four lines of a plan: its tree, its cost, the phases of the program, and the share of each processor in the cost.
fn text_of_plan(
    alloc: Global,
    request: &Request,
    tree: &Tree,
    cost: u64,
) -> Result<Vec<u8>, AllocError>
    requires procs { 0 < request.now.procs }
    requires cost { cost ≡ whole_cost request.now (breakdown_of tree.now) }
    ensures { IfOk result (λ text. text.items ≡ plan_text request.now (breakdown_of tree.now)) }
{
    let phases = if request.procs <= 1 { 1 } else { 2 };
    let each = cost / request.procs;
    let text = format!(in alloc; "tree {tree}\ncost {cost}\nphases {phases}\neach {each}\n")?;
    Ok(text.into_bytes())
}

/// The tree, its cost, the phases, and the operations of each processor.
pub(crate) fn plan_lines(alloc: Global, request: &Request) -> Result<Vec<u8>, Status>
    requires in_range { IsInRange request.now }
    ensures text { IfOk result (λ text. IsDocument Document.Plan request.now text.items) }
    ensures refused { IfErr result (λ status. IsDefined status → chosen request.now (Err status)) }
    ensures refusal { IfErr result IsRefusal }
{
    let plan = chosen_plan(alloc, request)?;
    let text = text_of_plan(alloc, request, &plan.tree, plan.cost)?;
    Ok(text)
}

// The text and a line end.
fn ended(mut text: Vec<u8>) -> Result<Vec<u8>, NoMemory>
    ensures { IfOk result (λ line. line.items ≡ text.items ++ 10 ∷ []) }
{
    text.push(b'\n')?;
    Ok(text)
}

/// The formula of the tree.
pub(crate) fn formula(alloc: Global, request: &Request) -> Result<Vec<u8>, Status>
    requires in_range { IsInRange request.now }
    ensures text { IfOk result (λ text. IsDocument Document.Formula request.now text.items) }
    ensures refused { IfErr result (λ status. IsDefined status → chosen request.now (Err status)) }
    ensures refusal { IfErr result IsRefusal }
{
    let plan = chosen_plan(alloc, request)?;
    let formula = expand(alloc, &Ctx::new(request), &plan.tree)?;
    let text = ended(print_spl(alloc, &formula)?)?;
    Ok(text)
}

/// The certificate of the tree's cost.
pub(crate) fn certificate(alloc: Global, request: &Request) -> Result<Vec<u8>, Status>
    requires in_range { IsInRange request.now }
    ensures text { IfOk result (λ text. IsDocument Document.Cert request.now text.items) }
    ensures refused { IfErr result (λ status. IsDefined status → chosen request.now (Err status)) }
    ensures refusal { IfErr result IsRefusal }
{
    chosen_plan(alloc, request)?;
    let text = certify(alloc, &Ctx::new(request))?;
    Ok(text)
}
