// Which trees a request admits.
ghost use Rattle.std.specs.Prelude.{◌≡◌, ℕ, ◌*◌, ◌^◌, ◌<◌, ◌≤◌, ◌↔◌, IsTrue, IfSome, IfNone};
ghost use Rattle.tree_model.specs.Breakdown.{breakdown_of, leaf, size_of, AllowsLeaf, AllowsRule, IsSplit, IsTree, HasWordSizes};
ghost use Rattle.tree_model.specs.Admissible.{AllowsNodeAt, RootFits, RuleFits};
ghost use Rattle.tree_model.specs.Chosen.{IsWholeTree};
ghost use Rattle.tree_model.specs.Whole.{AllowsDim, AllowsRuleOf, IsTreeOf};

use crate::context::Ctx;
use crate::tree::{Rule, Tree};
use matrix_meaning::{Dimensions, Kind};
use ring_mod::is_coprime;

/// Whether the request admits the tree.
#[tactic(auto, using(crate::proofs::FlatTrees::is_tree, crate::proofs::FlatTrees::tree_word_sizes))]
pub fn admissible(c: &Ctx, t: &Tree) -> bool
    ensures { IsTrue result ↔ IsWholeTree c.now (breakdown_of t.now) }
{
    match tree_size(&c.forward(), t) {
        Some(size) => size == c.request().size && (c.is_plain() || root_fits(c, t)),
        None => false,
    }
}

/// The size of a tree of the request, unless it is none or its size is not a `u64`.
#[tactic(auto, using(crate::proofs::Sizes::left_le, crate::proofs::Sizes::right_le))]
fn tree_size(p: &Ctx, t: &Tree) -> Option<u64>
    ensures some { IfSome result (λ d. IsTreeOf p.now (breakdown_of t.now)
        × (d ≡ size_of (breakdown_of t.now))) }
    ensures none { IfNone result (IsTreeOf p.now (breakdown_of t.now)
        → 2 ^ 64 ≤ size_of (breakdown_of t.now)) }
{
    match t {
        Tree::Leaf(size) => leaf_size(p, *size),
        Tree::Gt(a, b) => {
            let r = tree_size(p, a)?;
            let s = tree_size(p, b)?;
            node_size(p, Rule::Gt, r, s)
        }
        Tree::Ct(a, b) => {
            let r = tree_size(p, a)?;
            let s = tree_size(p, b)?;
            node_size(p, Rule::Ct, r, s)
        }
        Tree::Split(a, b) => {
            let r = tree_size(p, a)?;
            let s = tree_size(p, b)?;
            node_size(p, Rule::Split, r, s)
        }
        Tree::Dim(a, b) => {
            let (first, others) = p.parts()?;
            let r = tree_size(&first, a)?;
            let s = tree_size(&others, b)?;
            node_size(p, Rule::Dim, r, s)
        }
    }
}

fn leaf_size(p: &Ctx, size: u64) -> Option<u64>
    ensures some { IfSome result (λ d. IsTreeOf p.now (leaf size) × (d ≡ size)) }
    ensures none { IfNone result (IsTreeOf p.now (leaf size) → ⊥) }
{
    if p.is_one() && allows_leaf(p.request().kind, size) {
        Some(size)
    } else {
        None
    }
}

fn node_size(p: &Ctx, rule: Rule, r: u64, s: u64) -> Option<u64>
    ensures some { IfSome result (λ d. (2 ≤ r) × (2 ≤ s) × AllowsRuleOf p.now rule r s
        × (d ≡ r * s)) }
    ensures none { IfNone result ((2 ≤ r) → (2 ≤ s) → AllowsRuleOf p.now rule r s
        → 2 ^ 64 ≤ r * s) }
{
    if r >= 2 && s >= 2 && allows_rule_of(p, rule, r, s) {
        r.checked_mul(s)
    } else {
        None
    }
}

fn allows_rule_of(p: &Ctx, rule: Rule, r: u64, s: u64) -> bool
    ensures { IsTrue result ↔ AllowsRuleOf p.now rule r s }
{
    match rule {
        Rule::Gt => allows_of_one(p, Rule::Gt, r, s),
        Rule::Ct => allows_of_one(p, Rule::Ct, r, s),
        Rule::Split => allows_of_one(p, Rule::Split, r, s),
        Rule::Dim => allows_dim(p, r, s),
    }
}

// A rule for transforms of one size.
fn allows_of_one(p: &Ctx, rule: Rule, r: u64, s: u64) -> bool
    ensures { IsTrue result ↔ ((p.now.dimensions ≡ Dimensions.One)
        × AllowsRule p.now.kind rule r s) }
{
    p.is_one() && allows_rule(p.request().kind, rule, r, s)
}

fn allows_dim(p: &Ctx, r: u64, s: u64) -> bool
    ensures { IsTrue result ↔ AllowsDim p.now r s }
{
    match p.parts() {
        None => false,
        Some((first, others)) => r == first.request().size && s == others.request().size,
    }
}

/// Whether a leaf may have this size.
pub fn allows_leaf(kind: Kind, size: u64) -> bool
    ensures { IsTrue result ↔ AllowsLeaf kind size }
{
    match kind {
        Kind::Dft => size >= 1,
        Kind::Wht => size == 1 || size == 2,
        Kind::Idft => false,
    }
}

/// Whether a rule may take a transform apart into these sizes.
pub fn allows_split(kind: Kind, rule: Rule, r: u64, s: u64) -> bool
    ensures { IsTrue result ↔ IsSplit kind rule r s }
{
    r >= 2 && s >= 2 && allows_rule(kind, rule, r, s)
}

fn allows_rule(kind: Kind, rule: Rule, r: u64, s: u64) -> bool
    ensures { IsTrue result ↔ AllowsRule kind rule r s }
{
    match (kind, rule) {
        (Kind::Dft, Rule::Gt) => is_coprime(r, s),
        (Kind::Dft, Rule::Ct) | (Kind::Wht, Rule::Split) => true,
        (Kind::Dft, Rule::Split | Rule::Dim) => false,
        (Kind::Wht, Rule::Gt | Rule::Ct | Rule::Dim) => false,
        (Kind::Idft, _) => false,
    }
}

fn root_fits(c: &Ctx, t: &Tree) -> bool
    requires tree { IsTree (breakdown_of t.now) }
    requires size { size_of (breakdown_of t.now) ≡ c.now.size }
    requires parts { HasWordSizes (breakdown_of t.now) }
    ensures { IsTrue result ↔ RootFits c.now (breakdown_of t.now) }
{
    match t {
        Tree::Leaf(_) | Tree::Gt(_, _) => false,
        Tree::Ct(a, b) | Tree::Split(a, b) | Tree::Dim(a, b) => c.fits(a.size(), b.size()),
    }
}

/// Whether a rule may take a node of size `r * s` apart into sizes `r` and `s`.
pub fn allows_node(c: &Ctx, rule: Rule, r: u64, s: u64) -> bool
    requires { r * s < 2 ^ 64 }
    ensures { IsTrue result ↔ AllowsNodeAt c.now rule r s }
{
    let request = c.request();
    if !allows_split(request.kind, rule, r, s) {
        return false;
    }
    r * s != request.size || c.is_plain() || rule_fits(c, rule, r, s)
}

fn rule_fits(c: &Ctx, rule: Rule, r: u64, s: u64) -> bool
    requires left { 2 ≤ r }
    requires right { 2 ≤ s }
    requires product { r * s ≡ c.now.size }
    ensures { IsTrue result ↔ RuleFits c.now rule r s }
{
    match rule {
        Rule::Gt => false,
        Rule::Ct | Rule::Split | Rule::Dim => c.fits(r, s),
    }
}
