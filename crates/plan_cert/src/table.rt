// The rows of the chosen trees.
ghost use Rattle.std.specs.Prelude.{◌≡◌, ◌≢◌, ◌<◌, ◌^◌, ◌+◌, ◌*◌, ◌%◌, ◌≤◌, length, IfOk, OnOk, All};
ghost use Rattle.tree_model.specs.Admissible.{CanDivide};
ghost use Rattle.tree_model.specs.Breakdown.{breakdown_of, HasWordSizes};
ghost use Rattle.plan_search.specs.Search.{IsBest, IsBestOf, AnyTree};
ghost use Rattle.plan_cert.specs.Certificate.{IsWanted, HasRows, HasRowsBelow};
ghost use Rattle.plan_cert.specs.Table.{IsRootOf, IsChosenRow};

use crate::certificate::{Row, row_cost};
use crate::rows::is_wanted;
use matrix_meaning::Kind;
use memory::NoMemory;
use operators::MAX_SIZE;
use plan_search::{Plan, TableRow as Planned, best_row};
use std::alloc::Global;
use tree_model::{Ctx, Rule, Tree};

/// A row for each wanted size, with the first of its cheapest trees.
pub(crate) fn table_rows(alloc: Global, c: &Ctx, closing: u64) -> Result<Vec<Row>, NoMemory>
    requires forward { c.now.kind ≢ Kind.Idft }
    requires divides { CanDivide c.now }
    requires closing { closing ≤ 1000 * c.now.size }
    ensures rows { IfOk result (λ rows. HasRows c.now rows.items) }
    ensures chosen { IfOk result (λ rows. All (IsChosenRow c.now closing) rows.items) }
{
    let size = c.request().size;
    let mut plans = Vec::new(alloc);
    let mut rows = Vec::new(alloc);
    for d in 1..size + 1 {
        if size % d == 0 {
            let plan = best_row(alloc, c, &plans, d)?;
            add_row(c, closing, &mut rows, d, &plan)?;
            plans.push(Planned { size: d, plan })?;
        }
    }
    Ok(rows)
}

/// Adds the row of a plan, if its size is wanted.
fn add_row(
    c: &Ctx,
    closing: u64,
    rows: &mut Vec<Row>,
    d: u64,
    plan: &Option<Plan>,
) -> Result<(), NoMemory>
    requires forward { c.now.kind ≢ Kind.Idft }
    requires divides { CanDivide c.now }
    requires closing { closing ≤ 1000 * c.now.size }
    requires low { 1 ≤ d }
    requires high { d ≤ c.now.size }
    requires divisor { c.now.size % d ≡ 0 }
    requires best { IsBestOf c.now d AnyTree plan.now }
    requires below { HasRowsBelow c.now rows.old.items d (length rows.old.items) }
    requires chosen { All (IsChosenRow c.now closing) rows.old.items }
    ensures below { OnOk result
        (HasRowsBelow c.now rows.new.items (d + 1) (length rows.new.items)) }
    ensures chosen { OnOk result (All (IsChosenRow c.now closing) rows.new.items) }
{
    prove!(c.request().size <= MAX_SIZE);
    let Some(plan) = plan else { unreachable!() };
    if is_wanted(c, d) {
        rows.push(row_of(c, closing, d, plan))?;
    }
    Ok(())
}

/// The row of a plan.
fn row_of(c: &Ctx, closing: u64, d: u64, plan: &Plan) -> Row
    requires closing { closing ≤ 1000 * c.now.size }
    requires high { d ≤ c.now.size }
    requires best { IsBest c.now d AnyTree plan.now }
    ensures size { result.size ≡ d }
    ensures chosen { IsChosenRow c.now closing result }
{
    prove!(c.request().size <= MAX_SIZE);
    let (rule, left, right) = root_of(&plan.tree);
    Row {
        size: d,
        cost: row_cost(c, closing, d, plan.cost),
        rule,
        left,
        right,
    }
}

/// The rule of a tree's root with the sizes of its parts, or none for a leaf.
fn root_of(tree: &Tree) -> (Option<Rule>, u64, u64)
    requires { HasWordSizes (breakdown_of tree.now) }
    ensures root { IsRootOf (breakdown_of tree.now) result.0 result.1 result.2 }
    ensures words { (result.1 < 2 ^ 64) × (result.2 < 2 ^ 64) }
{
    match tree {
        Tree::Leaf(_) => (None, 0, 0),
        Tree::Gt(a, b) => (Some(Rule::Gt), a.size(), b.size()),
        Tree::Ct(a, b) => (Some(Rule::Ct), a.size(), b.size()),
        Tree::Split(a, b) => (Some(Rule::Split), a.size(), b.size()),
        Tree::Dim(a, b) => (Some(Rule::Dim), a.size(), b.size()),
    }
}
