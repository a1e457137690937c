// The best of two plans, of a leaf, and of the nodes with parts of given sizes.
ghost use Rattle.std.specs.Prelude.{◌≡◌, ℕ, ◌*◌, ◌^◌, ◌<◌, ◌≤◌, ◌⊎◌, ◌↔◌, IfOk, IfErr, IfSome, IfNone, MatchBool};
ghost use Rattle.tree_model.specs.declared.tree.Rule.{Rule};
ghost use Rattle.tree_model.specs.Breakdown.{breakdown_of, node, size_of};
ghost use Rattle.tree_model.specs.Admissible.{AllowsNodeAt};
ghost use Rattle.plan_search.specs.Search.{IsPlan, IsNoWorse, IsBestOf, AnyTree, IsLeaf, HasLeft, IsBestRule, ArePlansForOne, IsBetterOf};

use crate::plan::Plan;
use matrix_meaning::Kind;
use memory::NoMemory;
use operators::MAX_SIZE;
use ring_mod::is_coprime;
use std::alloc::Global;
use std::cmp::Ordering;
use tree_model::{Ctx, Rule, Tree, allows_leaf, allows_split, before, leaf_cost, node_cost};

/// The best rule for a node with parts of sizes `r` and `s`, if one is allowed.
pub fn best_rule(c: &Ctx, r: u64, s: u64) -> Option<Rule>
    requires left { 2 ≤ r }
    requires right { 2 ≤ s }
    requires size { r * s ≤ c.now.size }
    ensures some { IfSome result (IsBestRule c.now r s) }
    ensures none { IfNone result ((rule : Rule) → AllowsNodeAt c.now rule r s → ⊥) }
{
    let request = c.request();
    let spread_root = r * s == request.size && !c.is_plain();
    if spread_root && !c.fits(r, s) {
        return None;
    }
    match request.kind {
        Kind::Dft if !spread_root && is_coprime(r, s) => Some(Rule::Gt),
        Kind::Dft => Some(Rule::Ct),
        Kind::Wht => Some(Rule::Split),
        Kind::Idft => None,
    }
}

/// The leaf of size `d`, if it is allowed.
pub(crate) fn leaf_plan(c: &Ctx, d: u64) -> Option<Plan>
    requires low { 1 ≤ d }
    requires high { d ≤ c.now.size }
    ensures { IsBestOf c.now d IsLeaf result }
{
    let request = c.request();
    if allows_leaf(request.kind, d) && (d != request.size || c.is_plain()) {
        Some(Plan {
            tree: Tree::Leaf(d),
            cost: leaf_cost(c, d),
        })
    } else {
        None
    }
}

/// The node of a rule with these parts.
pub(crate) fn join(alloc: Global, rule: Rule, a: Tree, b: Tree) -> Result<Tree, NoMemory>
    ensures { IfOk result (λ t. breakdown_of t ≡ node rule (breakdown_of a) (breakdown_of b)) }
{
    let a = Box::new(alloc, a)?;
    let b = Box::new(alloc, b)?;
    match rule {
        Rule::Gt => Ok(Tree::Gt(a, b)),
        Rule::Ct => Ok(Tree::Ct(a, b)),
        Rule::Split => Ok(Tree::Split(a, b)),
        Rule::Dim => Ok(Tree::Dim(a, b)),
    }
}

/// The best plan with parts of sizes `r` and `s`, from the best plans of the parts.
pub(crate) fn split_plan(
    alloc: Global,
    c: &Ctx,
    r: u64,
    s: u64,
    a: Option<Plan>,
    b: Option<Plan>,
) -> Result<Option<Plan>, NoMemory>
    requires left { 2 ≤ r }
    requires right { 2 ≤ s }
    requires size { r * s ≤ c.now.size }
    requires left_best { IsBestOf c.now r AnyTree a }
    requires right_best { IsBestOf c.now s AnyTree b }
    ensures { IfOk result (IsBestOf c.now (r * s) (HasLeft r)) }
{
    let Some(rule) = best_rule(c, r, s) else {
        return Ok(None);
    };
    let Some(a) = a else {
        return Ok(None);
    };
    let Some(b) = b else {
        return Ok(None);
    };
    let cost = node_cost(c, rule, r, s, a.cost, b.cost);
    let tree = join(alloc, rule, a.tree, b.tree)?;
    Ok(Some(Plan { tree, cost }))
}

/// The better of two plans for one node, where either may be absent.
#[tactic(auto, using(crate::proofs::NoWorse::no_worse_itself))]
pub(crate) fn better(c: &Ctx, best: Option<Plan>, next: Option<Plan>) -> Option<Plan>
    requires same { ArePlansForOne c.now best next }
    ensures { IsBetterOf c.now best next result }
{
    let Some(next) = next else { return best };
    let Some(best) = best else {
        return Some(next);
    };
    if beats(c, &next, &best) {
        Some(next)
    } else {
        Some(best)
    }
}

/// Whether the first of two plans for the same node is better.
#[tactic(auto, using(crate::proofs::NoWorse::plan_rules, tree_model::proofs::Sizes::tree_from))]
fn beats(c: &Ctx, next: &Plan, best: &Plan) -> bool
    requires next_plan { IsPlan c.now (size_of (breakdown_of next.now.tree)) next.now }
    requires best_plan { IsPlan c.now (size_of (breakdown_of next.now.tree)) best.now }
    requires size { size_of (breakdown_of next.now.tree) ≤ c.now.size }
    ensures { MatchBool result
        (IsNoWorse c.now (breakdown_of next.now.tree) (breakdown_of best.now.tree))
        (IsNoWorse c.now (breakdown_of best.now.tree) (breakdown_of next.now.tree)) }
{
    prove!(c.request().size <= MAX_SIZE);
    match next.cost.cmp(&best.cost) {
        Ordering::Less => true,
        Ordering::Equal => before(&next.tree, &best.tree),
        Ordering::Greater => false,
    }
}
