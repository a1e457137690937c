// What trees cost.
ghost use Rattle.std.specs.Prelude.{◌≡◌, ℕ, ◌+◌, ◌*◌, ◌^◌, ◌<◌, ◌≤◌};
ghost use Rattle.operators.specs.Sum.{sum_below};
ghost use Rattle.ring_mod.specs.Residue.{power_mod};
ghost use Rattle.tree_model.specs.Breakdown.{breakdown_of, size_of, AllowsLeaf};
ghost use Rattle.tree_model.specs.Chosen.{closing_cost, whole_cost, StandsIn};
ghost use Rattle.tree_model.specs.Cost.{is_kernel, mul_cost_of, node_root, product_cost, products_cost, leaf_cost, rule_cost, node_cost, IsModest};
ghost use Rattle.tree_model.specs.Whole.{cost_in, IsTreeOf};

use crate::context::Ctx;
use crate::tree::{Rule, Tree};
use matrix_meaning::Kind;
use operators::MAX_SIZE;
use ring_mod::Modulus;

/// What the request costs by a tree. A part of a tree has no products at its end.
pub fn cost(c: &Ctx, t: &Tree) -> u64
    requires { StandsIn c.now (breakdown_of t.now) }
    ensures value { result ≡ whole_cost c.now (breakdown_of t.now) }
    ensures small { result ≤ 2001 * (c.now.size * c.now.size) }
{
    let request = c.request();
    let tree = sized_cost(&c.forward(), t);
    if tree.size == request.size {
        tree.cost + closing_cost(c)
    } else {
        tree.cost
    }
}

/// What the products at the end of an inverse cost: a multiplication for each item. Nothing for other transforms.
pub fn closing_cost(c: &Ctx) -> u64
    ensures value { result ≡ closing_cost c.now }
    ensures high { result ≤ 1000 * c.now.size }
{
    let request = c.request();
    match request.kind {
        Kind::Dft => 0,
        Kind::Wht => 0,
        Kind::Idft => mul_cost(c) * request.size,
    }
}

/// A tree's size and cost.
#[derive(Clone, Copy)]
struct SizedCost {
    size: u64,
    cost: u64,
}

fn sized_cost(c: &Ctx, t: &Tree) -> SizedCost
    requires tree { IsTreeOf c.now (breakdown_of t.now) }
    requires size { size_of (breakdown_of t.now) ≤ c.now.size }
    ensures size { result.size ≡ size_of (breakdown_of t.now) }
    ensures cost { result.cost ≡ cost_in c.now (breakdown_of t.now) }
    ensures modest { IsModest result.size result.cost }
{
    match t {
        Tree::Leaf(size) => SizedCost {
            size: *size,
            cost: leaf_cost(c, *size),
        },
        Tree::Gt(a, b) => join(c, Rule::Gt, sized_cost(c, a), sized_cost(c, b)),
        Tree::Ct(a, b) => join(c, Rule::Ct, sized_cost(c, a), sized_cost(c, b)),
        Tree::Split(a, b) => join(c, Rule::Split, sized_cost(c, a), sized_cost(c, b)),
        Tree::Dim(a, b) => {
            let (first, others) = c.both();
            join(c, Rule::Dim, sized_cost(&first, a), sized_cost(&others, b))
        }
    }
}

fn join(c: &Ctx, rule: Rule, a: SizedCost, b: SizedCost) -> SizedCost
    requires left { 2 ≤ a.size }
    requires right { 2 ≤ b.size }
    requires size { a.size * b.size ≤ c.now.size }
    requires left_cost { IsModest a.size a.cost }
    requires right_cost { IsModest b.size b.cost }
    ensures size { result.size ≡ a.size * b.size }
    ensures cost { result.cost ≡ node_cost c.now rule a.size b.size a.cost b.cost }
    ensures modest { IsModest result.size result.cost }
{
    prove!(c.request().size <= MAX_SIZE);
    SizedCost {
        size: a.size * b.size,
        cost: node_cost(c, rule, a.size, b.size, a.cost, b.cost),
    }
}

/// The cost of one multiplication.
pub fn mul_cost(c: &Ctx) -> u64
    ensures value { result ≡ mul_cost_of c.now }
    ensures low { 1 ≤ result }
    ensures high { result ≤ 1000 }
{
    c.request().weight
}

/// Whether a node of size `d` becomes straight-line code.
pub fn is_kernel(c: &Ctx, d: u64) -> bool
    ensures { result ≡ is_kernel c.now d }
{
    let request = c.request();
    d <= request.unroll && (d != request.size || c.is_plain())
}

/// The cost of a node by a rule, from the sizes and costs of its parts.
#[tactic(auto, using(crate::proofs::CostBounds::modest_node, crate::proofs::CostBounds::node_fits))]
pub fn node_cost(c: &Ctx, rule: Rule, r: u64, s: u64, x: u64, y: u64) -> u64
    requires left { 2 ≤ r }
    requires right { 2 ≤ s }
    requires size { r * s ≤ c.now.size }
    requires left_cost { IsModest r x }
    requires right_cost { IsModest s y }
    ensures value { result ≡ node_cost c.now rule r s x y }
    ensures modest { IsModest (r * s) result }
{
    prove!(c.request().size <= MAX_SIZE);
    let extra = rule_cost(c, rule, r, s);
    s * x + r * y + extra
}

#[tactic(auto, using(crate::proofs::Sizes::right_le))]
fn rule_cost(c: &Ctx, rule: Rule, r: u64, s: u64) -> u64
    requires left { 2 ≤ r }
    requires right { 2 ≤ s }
    requires size { r * s ≤ c.now.size }
    ensures value { result ≡ rule_cost c.now rule r s }
    ensures bound { result ≤ 1000 * (r * s) }
{
    prove!(c.request().size <= MAX_SIZE);
    match rule {
        Rule::Gt | Rule::Split | Rule::Dim => 0,
        Rule::Ct => {
            let size = r * s;
            if is_kernel(c, size) {
                powers_cost(c, 1, node_root(c, size), r, s)
            } else {
                mul_cost(c) * size
            }
        }
    }
}

/// The cost of a leaf of size `d`.
#[tactic(auto, using(crate::proofs::CostBounds::modest_short, crate::proofs::CostBounds::modest_long))]
pub fn leaf_cost(c: &Ctx, d: u64) -> u64
    requires allowed { AllowsLeaf c.now.kind d }
    requires high { d ≤ c.now.size }
    ensures value { result ≡ leaf_cost c.now d }
    ensures modest { IsModest d result }
{
    if d <= c.request().unroll {
        d * (d - 1) + leaf_products_cost(c, d)
    } else {
        d * d * (1 + mul_cost(c))
    }
}

/// The root of a node of size `d`.
pub fn node_root(c: &Ctx, d: u64) -> u64
    requires { 1 ≤ d }
    ensures value { result ≡ node_root c.now d }
    ensures residue { result < c.now.modulus }
{
    let request = c.request();
    let modulus = Modulus::new(request.modulus).unwrap();
    modulus.pow(request.root, request.size / d)
}

// What the products by the entries of a leaf's matrix cost. The entries of the Walsh-Hadamard transform are 1 and -1 alone.
#[tactic(auto, using(crate::proofs::Products::signs_are_free))]
fn leaf_products_cost(c: &Ctx, d: u64) -> u64
    requires allowed { AllowsLeaf c.now.kind d }
    requires high { d ≤ c.now.unroll }
    ensures value { result ≡ products_cost c.now c.now.kind 0 (node_root c.now d) d d }
    ensures bound { result ≤ 1000 * (d * d) }
{
    match c.request().kind {
        Kind::Dft => powers_cost(c, 0, node_root(c, d), d, d),
        Kind::Wht => 0,
        Kind::Idft => 0,
    }
}

// What the products by the powers of a root cost, in the first rows and columns of the matrix of its transform.
#[tactic(auto, using(crate::proofs::CostBounds::sums))]
fn powers_cost(c: &Ctx, minus: u64, root: u64, rows: u64, columns: u64) -> u64
    requires places { rows * columns ≤ 2 ^ 32 }
    requires columns { columns ≤ 2 ^ 32 }
    requires minus { minus ≤ 1 }
    requires root { root < c.now.modulus }
    ensures value { result ≡ products_cost c.now Kind.Dft minus root rows columns }
    ensures bound { result ≤ 1000 * (rows * columns) }
{
    let mut total = 0;
    for k in 0..rows {
        total += row_cost(c, minus, root, k, columns);
    }
    total
}

// What these products cost in the row `k` alone: its entries are the powers of one number.
#[tactic(auto, using(crate::proofs::CostBounds::sums, crate::proofs::Products::row_start, crate::proofs::Products::row_next))]
fn row_cost(c: &Ctx, minus: u64, root: u64, k: u64, columns: u64) -> u64
    requires columns { columns ≤ 2 ^ 32 }
    requires minus { minus ≤ 1 }
    requires root { root < c.now.modulus }
    ensures value { result
        ≡ sum_below columns (λ l. product_cost c.now minus (power_mod c.now.modulus root (k * l))) }
    ensures bound { result ≤ 1000 * columns }
{
    let modulus = Modulus::new(c.request().modulus).unwrap();
    let step = modulus.pow(root, k);
    let mut power = modulus.reduce(1);
    let mut total = 0;
    for _ in 0..columns {
        total += product_cost(c, minus, power);
        power = modulus.mul(power, step);
    }
    total
}

fn product_cost(c: &Ctx, minus: u64, x: u64) -> u64
    requires minus { minus ≤ 1 }
    ensures value { result ≡ product_cost c.now minus x }
    ensures bound { result ≤ 1000 }
{
    if x == 1 {
        0
    } else if x == c.request().modulus - 1 {
        minus
    } else {
        mul_cost(c)
    }
}
