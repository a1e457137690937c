// The rows of a certificate of one size. The request is the forward one; `closing` is what the products at its end cost.
ghost use Rattle.std.specs.Prelude.{◌≡◌, ℕ, ◌+◌, ◌*◌, ◌%◌, ◌<◌, ◌≤◌, ◌⊎◌, ◌↔◌, IsTrue, IfOk, IfErr, OnOk, All};
ghost use Rattle.tree_model.specs.declared.tree.Rule.{Rule};
ghost use Rattle.tree_model.specs.Admissible.{AllowsLeafAt};
ghost use Rattle.tree_model.specs.Cost.{leaf_cost, IsModest};
ghost use Rattle.plan_cert.specs.Found.{closing_at, HasNodeCost, IsChoiceCost, IsFound};
ghost use Rattle.plan_cert.specs.Certificate.{cost_at, AllowsChoice, choice_cost, HasModestParts, IsRightRow, IsWrong, HasRows, HasFirstWrong, IsClosedLeast, IsSmall};

use operators::MAX_SIZE;
use plan_search::best_rule;
use tree_model::{Ctx, Rule, allows_leaf, leaf_cost, node_cost};

/// The cost of a node of this size, and a choice of that cost: a rule with the sizes of its parts, or a leaf.
#[derive(Clone, Copy, PartialEq, Eq, Debug)]
pub struct Row {
    pub size: u64,
    pub cost: u64,
    pub rule: Option<Rule>,
    pub left: u64,
    pub right: u64,
}

/// A row with the cost `given`, where `found` is right.
#[derive(Clone, Copy, PartialEq, Eq, Debug)]
pub struct WrongRow {
    pub size: u64,
    pub given: u64,
    pub found: u64,
}

/// The cost in the row of size `k`.
fn cost_of_row(rows: &[Row], k: u64) -> u64
    ensures { result ≡ cost_at rows.now k }
{
    for row in rows {
        if row.size == k {
            return row.cost;
        }
    }
    0
}

fn row_choice_cost(c: &Ctx, rows: &[Row], row: &Row) -> u64
    requires low { 1 ≤ row.now.size }
    requires high { row.now.size ≤ c.now.size }
    requires allowed { AllowsChoice c.now row.now.size row.now.rule row.now.left row.now.right }
    requires parts { HasModestParts (cost_at rows.now) row.now.size }
    ensures value { result ≡ choice_cost c.now
        (cost_at rows.now) row.now.size row.now.rule row.now.left row.now.right }
    ensures modest { IsModest row.now.size result }
{
    let Row {
        size,
        rule,
        left,
        right,
        ..
    } = *row;
    match rule {
        None => leaf_cost(c, size),
        Some(rule) => node_cost(
            c,
            rule,
            left,
            right,
            cost_of_row(rows, left),
            cost_of_row(rows, right),
        ),
    }
}

/// The least cost of the choices that a row's size allows.
fn found_cost(c: &Ctx, rows: &[Row], row: &Row) -> u64
    requires low { 1 ≤ row.now.size }
    requires high { row.now.size ≤ c.now.size }
    requires allowed { AllowsChoice c.now row.now.size row.now.rule row.now.left row.now.right }
    requires parts { HasModestParts (cost_at rows.now) row.now.size }
    ensures found { IsFound c.now (cost_at rows.now) row.now.size result }
    ensures modest { IsModest row.now.size result }
{
    let d = row.size;
    let mut least = leaf_least(c, d, row_choice_cost(c, rows, row));
    for r in 2..d {
        if d % r == 0 {
            least = split_least(c, rows, d, r, least);
        }
    }
    least
}

/// The least of `least` and the cost of a leaf, where that is allowed.
fn leaf_least(c: &Ctx, d: u64, least: u64) -> u64
    requires low { 1 ≤ d }
    requires high { d ≤ c.now.size }
    ensures at_most { result ≤ least }
    ensures one_of { (result ≡ least) ⊎ (AllowsLeafAt c.now d × (result ≡ leaf_cost c.now d)) }
    ensures bound { AllowsLeafAt c.now d → result ≤ leaf_cost c.now d }
{
    if leaf_allowed(c, d) {
        least.min(leaf_cost(c, d))
    } else {
        least
    }
}

/// The least of `least` and the costs of the nodes with a left part of size `r`.
fn split_least(c: &Ctx, rows: &[Row], d: u64, r: u64, least: u64) -> u64
    requires low { 2 ≤ r }
    requires below { r < d }
    requires high { d ≤ c.now.size }
    requires divisor { d % r ≡ 0 }
    requires parts { HasModestParts (cost_at rows.now) d }
    ensures at_most { result ≤ least }
    ensures one_of { (result ≡ least) ⊎ IsChoiceCost c.now (cost_at rows.now) d result }
    ensures bound { (rule : Rule) (s y : ℕ) → HasNodeCost c.now (cost_at rows.now) d y rule r s
        → result ≤ y }
{
    let s = d / r;
    match best_rule(c, r, s) {
        None => least,
        Some(rule) => {
            let cost = node_cost(c, rule, r, s, cost_of_row(rows, r), cost_of_row(rows, s));
            least.min(cost)
        }
    }
}

pub(crate) fn leaf_allowed(c: &Ctx, d: u64) -> bool
    ensures { IsTrue result ↔ AllowsLeafAt c.now d }
{
    let request = c.request();
    allows_leaf(request.kind, d) && (d != request.size || c.is_plain())
}

/// The cost of a row of size `d` whose choice costs `cost`: that of the whole size has the products at the end.
#[tactic(auto, using(crate::proofs::Closing::modest_fits))]
pub(crate) fn row_cost(c: &Ctx, closing: u64, d: u64, cost: u64) -> u64
    requires closing { closing ≤ 1000 * c.now.size }
    requires high { d ≤ c.now.size }
    requires modest { IsModest d cost }
    ensures value { result ≡ cost + closing_at c.now closing d }
    ensures modest { d < c.now.size → IsModest d result }
    ensures small { IsSmall d result }
{
    prove!(c.request().size <= MAX_SIZE);
    cost + closing_at(c, closing, d)
}

// What the products at the end cost in a row of size `d`.
fn closing_at(c: &Ctx, closing: u64, d: u64) -> u64
    ensures { result ≡ closing_at c.now closing d }
{
    if d == c.request().size { closing } else { 0 }
}

// Nothing is wrong with the row, or this is.
fn check_row(c: &Ctx, closing: u64, rows: &[Row], row: &Row) -> Result<(), WrongRow>
    requires closing { closing ≤ 1000 * c.now.size }
    requires low { 1 ≤ row.now.size }
    requires high { row.now.size ≤ c.now.size }
    requires allowed { AllowsChoice c.now row.now.size row.now.rule row.now.left row.now.right }
    requires parts { HasModestParts (cost_at rows.now) row.now.size }
    ensures ok { OnOk result (IsRightRow c.now closing (cost_at rows.now) row.now) }
    ensures modest { OnOk result (row.now.size < c.now.size → IsModest row.now.size row.now.cost) }
    ensures small { OnOk result (IsSmall row.now.size row.now.cost) }
    ensures err { IfErr result (IsWrong c.now closing (cost_at rows.now) row.now) }
{
    let found = row_cost(c, closing, row.size, found_cost(c, rows, row));
    if found != row.cost {
        return Err(WrongRow {
            size: row.size,
            given: row.cost,
            found,
        });
    }
    let chosen = row_cost(c, closing, row.size, row_choice_cost(c, rows, row));
    if chosen != row.cost {
        return Err(WrongRow {
            size: row.size,
            given: row.cost,
            found: chosen,
        });
    }
    Ok(())
}

/// The least cost, where no row is wrong, and else the first wrong row.
pub(crate) fn check_rows(c: &Ctx, closing: u64, rows: &[Row]) -> Result<u64, WrongRow>
    requires closing { closing ≤ 1000 * c.now.size }
    requires rows { HasRows c.now rows.now }
    ensures right { OnOk result (All (IsRightRow c.now closing (cost_at rows.now)) rows.now) }
    ensures cost { IfOk result (λ cost. cost ≡ cost_at rows.now c.now.size) }
    ensures least { IfOk result (IsClosedLeast c.now closing) }
    ensures small { IfOk result (IsSmall c.now.size) }
    ensures wrong { IfErr result (HasFirstWrong c.now closing rows.now) }
{
    let size = c.request().size;
    for row in rows {
        if let Err(wrong) = check_row(c, closing, rows, row) {
            return Err(wrong);
        }
    }
    Ok(cost_of_row(rows, size))
}
