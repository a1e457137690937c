// The plan of a whole request, of one size or of several dimensions.
ghost use Rattle.std.specs.Prelude.{◌≡◌, ◌≢◌, IfOk};
ghost use Rattle.matrix_meaning.specs.Parts.{first_of, rest_of};
ghost use Rattle.tree_model.specs.Admissible.{CanDivide};
ghost use Rattle.tree_model.specs.Chosen.{CanDivideWhole};
ghost use Rattle.plan_search.specs.WholePlan.{IsWholePlan};

use crate::plan::Plan;
use crate::search::join;
use crate::table::best_whole;
use matrix_meaning::Dimensions;
use memory::NoMemory;
use std::alloc::Global;
use tree_model::{Ctx, Rule, closing_cost, node_cost};

/// The chosen tree of the request, whatever it costs.
pub(crate) fn whole_plan(alloc: Global, c: &Ctx) -> Result<Plan, NoMemory>
    requires { CanDivideWhole c.now }
    ensures { IfOk result (IsWholePlan c.now) }
{
    match c.parts() {
        None => plan_of_one(alloc, c),
        Some((first, rest)) => {
            let a = plan_of_one(alloc, &first)?;
            let b = whole_plan(alloc, &rest)?;
            plan_of_both(alloc, c, &first, &rest, a, b)
        }
    }
}

// The plan for one size: that of the forward request, and what the products at the end cost.
fn plan_of_one(alloc: Global, c: &Ctx) -> Result<Plan, NoMemory>
    requires one { c.now.dimensions ≡ Dimensions.One }
    requires divides { CanDivide c.now }
    ensures { IfOk result (IsWholePlan c.now) }
{
    // For the proof: the request is valid.
    let _request = c.request();
    let forward = c.forward();
    let Some(plan) = best_whole(alloc, &forward)? else {
        unreachable!()
    };
    let closing = closing_cost(c);
    Ok(Plan {
        tree: plan.tree,
        cost: plan.cost + closing,
    })
}

// The plan of several dimensions, from those of the first one and of the others.
fn plan_of_both(
    alloc: Global,
    c: &Ctx,
    first: &Ctx,
    rest: &Ctx,
    a: Plan,
    b: Plan,
) -> Result<Plan, NoMemory>
    requires several { c.now.dimensions ≢ Dimensions.One }
    requires divides { CanDivideWhole c.now }
    requires first { first.now ≡ first_of c.now }
    requires rest { rest.now ≡ rest_of c.now }
    requires left { IsWholePlan first.now a }
    requires right { IsWholePlan rest.now b }
    ensures { IfOk result (IsWholePlan c.now) }
{
    // For the proof: the request is valid.
    let _request = c.request();
    let r = first.request().size;
    let s = rest.request().size;
    let cost = node_cost(c, Rule::Dim, r, s, a.cost, b.cost);
    let tree = join(alloc, Rule::Dim, a.tree, b.tree)?;
    Ok(Plan { tree, cost })
}
