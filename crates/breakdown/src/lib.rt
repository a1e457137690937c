//! The formula of a breakdown tree, as the rules of Cooley and Tukey, of Good and Thomas, and of
//! Walsh and Hadamard give it (Püschel et al., 2005). Several dimensions are a tensor product.
#![tactic(auto)]

mod closing;

ghost use Rattle.std.specs.Prelude.{◌≡◌, ◌≢◌, ◌*◌, ◌%◌, ◌^◌, ◌<◌, ◌≤◌, IfOk};
ghost use Rattle.matrix_meaning.specs.Parts.{forward_of};
ghost use Rattle.tree_model.specs.declared.tree.Rule.TheVariants.{Gt, Ct};
ghost use Rattle.tree_model.specs.Breakdown.{node, breakdown_of, size_of, AllowsLeaf};
ghost use Rattle.tree_model.specs.Chosen.{StandsIn};
ghost use Rattle.tree_model.specs.Cost.{node_root};
ghost use Rattle.tree_model.specs.Whole.{left_of, right_of, IsTreeOf};
ghost use Rattle.spl_ast.specs.Formula.{Product, TensorLeft, TensorRight, size_of as rows_of};
ghost use Rattle.spl_ast.specs.Nesting.{IsPrintable};
ghost use Rattle.spl_ast.specs.Shape.{AreGoodThomasFactors, IsSize};
ghost use Rattle.breakdown.specs.Expansion.{expansion, formula_of, leaf_formula, rule_formula, HasFactors};
ghost use Rattle.breakdown.specs.Law.{ExpansionIsTransform, IsAskedFormula, IsNodeFormula};

use crate::closing::closed;
use matrix_meaning::{Dimensions, Kind, asked_of_requests, cooley_tukey, good_thomas, split};
use spl_ast::{NoMemory, Spl};
use std::alloc::Global;
use tree_model::{Ctx, Rule, Tree, node_root, nodes_do_what_is_asked, trees_are_made_of_parts};

/// The formula of a tree in the request, down to the leaves. Modulo the request's modulus it does
/// what the tree does. That of a whole tree does what the request asks for: of an inverse it is
/// divided by the size.
#[tactic(auto, using(crate::proofs::Asked::forward_divides))]
pub fn expand(alloc: Global, c: &Ctx, t: &Tree) -> Result<Spl, NoMemory>
    requires { StandsIn c.now (breakdown_of t.now) }
    ensures value { IfOk result (λ f. f ≡ formula_of c.now (breakdown_of t.now)) }
    ensures size { IfOk result (λ f. rows_of f ≡ size_of (breakdown_of t.now)) }
    ensures node { (size_of (breakdown_of t.now) ≡ c.now.size → c.now.kind ≢ Kind.Idft)
        → IfOk result (IsNodeFormula (forward_of c.now) (breakdown_of t.now)) }
    ensures whole { size_of (breakdown_of t.now) ≡ c.now.size → IfOk result (IsAskedFormula c.now) }
    ensures printable { IfOk result IsPrintable }
{
    expansion_is_transform();
    nodes_do_what_is_asked();
    asked_of_requests();
    // For the proof: the request is valid.
    let _ = c.request();
    let forward = c.forward();
    // For the proof: the forward request is valid.
    let _ = forward.request();
    let by_tree = formula(alloc, &forward, t)?;
    let f = closed(alloc, c, by_tree)?;
    Ok(f)
}

// The formula of the tree, for the transform.
#[cycle(formula)]
fn formula(alloc: Global, p: &Ctx, t: &Tree) -> Result<Spl, NoMemory>
    requires tree { IsTreeOf p.now (breakdown_of t.now) }
    requires divides { p.now.size % size_of (breakdown_of t.now) ≡ 0 }
    ensures { IfOk result (λ f. f ≡ expansion p.now (breakdown_of t.now)) }
{
    match t {
        Tree::Leaf(size) => Ok(leaf(p, *size)),
        Tree::Gt(a, b) => node_formula(alloc, p, Rule::Gt, a, b),
        Tree::Ct(a, b) => node_formula(alloc, p, Rule::Ct, a, b),
        Tree::Split(a, b) => node_formula(alloc, p, Rule::Split, a, b),
        Tree::Dim(a, b) => node_formula(alloc, p, Rule::Dim, a, b),
    }
}

// The formula of a node, from the trees of its parts.
#[cycle(formula)]
fn node_formula(alloc: Global, p: &Ctx, rule: Rule, a: &Tree, b: &Tree) -> Result<Spl, NoMemory>
    requires tree { IsTreeOf p.now (node rule (breakdown_of a.now) (breakdown_of b.now)) }
    requires divides { p.now.size % (size_of (breakdown_of a.now) * size_of (breakdown_of b.now))
        ≡ 0 }
    ensures { IfOk result
        (λ f. f ≡ expansion p.now (node rule (breakdown_of a.now) (breakdown_of b.now))) }
{
    // For the proof: the request is valid.
    let _ = p.request();
    let (first, others) = parts_by(p, rule);
    let left = formula(alloc, &first, a)?;
    let right = formula(alloc, &others, b)?;
    let f = by_rule(alloc, p, rule, left, right)?;
    Ok(f)
}

// The requests that the parts of a node are of.
fn parts_by(p: &Ctx, rule: Rule) -> (Ctx, Ctx)
    requires { rule ≡ Rule.Dim → p.now.dimensions ≢ Dimensions.One }
    ensures left { result.0 ≡ left_of rule p.now }
    ensures right { result.1 ≡ right_of rule p.now }
{
    match rule {
        Rule::Gt => (*p, *p),
        Rule::Ct => (*p, *p),
        Rule::Split => (*p, *p),
        Rule::Dim => {
            let Some(parts) = p.parts() else {
                unreachable!()
            };
            parts
        }
    }
}

fn by_rule(alloc: Global, p: &Ctx, rule: Rule, a: Spl, b: Spl) -> Result<Spl, NoMemory>
    requires size { IsSize (rows_of a * rows_of b) }
    requires factors { HasFactors rule (rows_of a) (rows_of b) }
    ensures { IfOk result (λ f. f
        ≡ rule_formula rule (rows_of a) (rows_of b) (node_root p.now (rows_of a * rows_of b)) a b) }
{
    match rule {
        Rule::Gt => by_coprime_factors(alloc, a, b),
        Rule::Ct => by_strides(alloc, p, a, b),
        Rule::Split => tensor_product(alloc, a, b),
        Rule::Dim => tensor_product(alloc, a, b),
    }
}

// The transform of a leaf, by its definition.
#[tactic(auto, using(crate::proofs::Sizes::leaf_size, crate::proofs::Sizes::leaf_power, crate::proofs::Sizes::no_inverse_leaf))]
fn leaf(p: &Ctx, size: u64) -> Spl
    requires leaf { AllowsLeaf p.now.kind size }
    requires divides { p.now.size % size ≡ 0 }
    ensures { result ≡ leaf_formula p.now.kind size (node_root p.now size) }
{
    let request = p.request();
    match request.kind {
        Kind::Dft => Spl::fourier(size, node_root(p, size)),
        Kind::Wht => Spl::hadamard(size),
        Kind::Idft => unreachable!(),
    }
}

// The rule of Cooley and Tukey.
#[tactic(auto, using(crate::proofs::Sizes::first_size, crate::proofs::Sizes::second_size, crate::proofs::Sizes::multiple_of_first, crate::proofs::Sizes::multiple_of_second))]
fn by_strides(alloc: Global, p: &Ctx, a: Spl, b: Spl) -> Result<Spl, NoMemory>
    requires size { IsSize (rows_of a * rows_of b) }
    ensures { IfOk result (λ f. f
        ≡ rule_formula Ct (rows_of a) (rows_of b) (node_root p.now (rows_of a * rows_of b)) a b) }
{
    // For the proof: the request is valid.
    let _ = p.request();
    let (r, s) = (a.rows(), b.rows());
    let right = Spl::tensor_right(alloc, r, b)?;
    let rows = Spl::compose(alloc, right, Spl::stride(r * s, r))?;
    let twiddles = Spl::twiddles(r * s, s, node_root(p, r * s));
    let twiddled = Spl::compose(alloc, twiddles, rows)?;
    let left = Spl::tensor_left(alloc, a, s)?;
    let f = Spl::compose(alloc, left, twiddled)?;
    Ok(f)
}

// The rule of Good and Thomas.
#[tactic(auto, using(crate::proofs::Sizes::first_size, crate::proofs::Sizes::second_size))]
fn by_coprime_factors(alloc: Global, a: Spl, b: Spl) -> Result<Spl, NoMemory>
    requires size { IsSize (rows_of a * rows_of b) }
    requires factors { AreGoodThomasFactors (rows_of a) (rows_of b) }
    ensures { IfOk result (λ f. f ≡ rule_formula Gt (rows_of a) (rows_of b) 0 a b) }
{
    let (r, s) = (a.rows(), b.rows());
    let right = Spl::tensor_right(alloc, r, b)?;
    let rows = Spl::compose(alloc, right, Spl::good_thomas_in(r, s))?;
    let left = Spl::tensor_left(alloc, a, s)?;
    let both = Spl::compose(alloc, left, rows)?;
    let f = Spl::compose(alloc, Spl::good_thomas_out(r, s), both)?;
    Ok(f)
}

// `a` on columns, after `b` on blocks.
#[tactic(auto, using(crate::proofs::Sizes::first_size, crate::proofs::Sizes::second_size))]
fn tensor_product(alloc: Global, a: Spl, b: Spl) -> Result<Spl, NoMemory>
    requires size { IsSize (rows_of a * rows_of b) }
    ensures { IfOk result
        (λ f. f ≡ Product (TensorLeft a (rows_of b)) (TensorRight (rows_of a) b)) }
{
    let (r, s) = (a.rows(), b.rows());
    let right = Spl::tensor_right(alloc, r, b)?;
    let left = Spl::tensor_left(alloc, a, s)?;
    let f = Spl::compose(alloc, left, right)?;
    Ok(f)
}

/// The formula of a tree does what the tree does.
pub fn expansion_is_transform()
    ensures { ExpansionIsTransform }
{
    trees_are_made_of_parts();
    cooley_tukey();
    good_thomas();
    split();
}
