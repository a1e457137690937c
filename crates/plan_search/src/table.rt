// The search by a table over the divisors of the size.
ghost use Rattle.std.specs.Prelude.{◌≡◌, ◌≢◌, ℕ, ◌%◌, ◌<◌, ◌≤◌, IfOk, IsSome, All, Any};
ghost use Rattle.tree_model.specs.Admissible.{CanDivide};
ghost use Rattle.plan_search.specs.Search.{IsBestOf, AnyTree};
ghost use Rattle.plan_search.specs.Table.{IsRow, IsTable, SamePlan};

use crate::plan::Plan;
use crate::search::{better, leaf_plan, split_plan};
use matrix_meaning::Kind;
use memory::NoMemory;
use std::alloc::Global;
use tree_model::Ctx;

/// The best plan for a node of this size, if there is a tree for it.
#[derive(Drop)]
pub struct TableRow {
    pub size: u64,
    pub plan: Option<Plan>,
}

fn copied(alloc: Global, plan: &Option<Plan>) -> Result<Option<Plan>, NoMemory>
    ensures { IfOk result (SamePlan plan.now) }
{
    match plan {
        None => Ok(None),
        Some(plan) => {
            let tree = plan.tree.copied(alloc)?;
            Ok(Some(Plan {
                tree,
                cost: plan.cost,
            }))
        }
    }
}

/// The plan in the row of this size.
fn plan_of(alloc: Global, c: &Ctx, rows: &[TableRow], size: u64) -> Result<Option<Plan>, NoMemory>
    requires rows { All (IsRow c.now) rows.now }
    requires present { Any (λ row. row.size ≡ size) rows.now }
    ensures { IfOk result (IsBestOf c.now size AnyTree) }
{
    for row in rows {
        if row.size == size {
            return copied(alloc, &row.plan);
        }
    }
    unreachable!()
}

/// The best plan for a node of size `d`, if there is a tree for it, from the rows of smaller sizes.
pub fn best_row(alloc: Global, c: &Ctx, rows: &[TableRow], d: u64) -> Result<Option<Plan>, NoMemory>
    requires low { 1 ≤ d }
    requires high { d ≤ c.now.size }
    requires divisor { c.now.size % d ≡ 0 }
    requires table { IsTable c.now rows.now d }
    ensures { IfOk result (IsBestOf c.now d AnyTree) }
{
    let mut best = leaf_plan(c, d);
    for r in 2..d {
        if d % r == 0 {
            let s = d / r;
            let left = plan_of(alloc, c, rows, r)?;
            let right = plan_of(alloc, c, rows, s)?;
            let next = split_plan(alloc, c, r, s, left, right)?;
            best = better(c, best, next);
        }
    }
    Ok(best)
}

/// The best plan for a node of the request's size, if there is a tree for it.
pub(crate) fn best_whole(alloc: Global, c: &Ctx) -> Result<Option<Plan>, NoMemory>
    ensures best { IfOk result (IsBestOf c.now c.now.size AnyTree) }
    ensures found { CanDivide c.now → c.now.kind ≢ Kind.Idft → IfOk result (λ plan. IsSome plan) }
{
    let size = c.request().size;
    let mut rows = Vec::new(alloc);
    for d in 1..size {
        if size % d == 0 {
            let plan = best_row(alloc, c, &rows, d)?;
            rows.push(TableRow { size: d, plan })?;
        }
    }
    best_row(alloc, c, &rows, size)
}
