// Products of vectors: by the definition, by the formula of a tree, and by its terms.

ghost use Rattle.std.specs.Prelude.{◌≡◌, ◌<◌, ◌↔◌, vec_len, All, IfOk, IsTrue};
ghost use Rattle.matrix_meaning.specs.Asked.{asked_of};
ghost use Rattle.matrix_meaning.specs.Dimensions.{roots_of, sizes_of};
ghost use Rattle.matrix_meaning.specs.Valid.{IsInRange};
ghost use Rattle.spl_ast.specs.Meaning.{IsVector};
ghost use Rattle.tree_model.specs.Breakdown.{breakdown_of};
ghost use Rattle.tree_model.specs.Chosen.{IsWholeTree};

use crate::contexts::{context, tree_of};
use crate::stages::terms_of;
use breakdown::expand;
use matrix_meaning::{Dimensions, Request, times_plain};
use memory::NoMemory;
use ring_mod::Modulus;
use sigma_spl::Sigma;
use spl_ast::Spl;
use std::alloc::Global;
use std::test::Fail;
use tree_model::{Ctx, Tree, admissible};
use worked_rows::{check, joined, numbers};

// What is asked for of `x`, by the terms of the tree, each by its definition.
#[tactic(auto, using(sigma_spl::proofs::PlainLemmas::Fitting::good_fit))]
fn times(alloc: Global, c: &Ctx, tree: &Tree, x: &[u64]) -> Result<Vec<u64>, NoMemory>
    requires tree { IsWholeTree c.now (breakdown_of tree.now) }
    requires vector { IsVector c.now.modulus c.now.size x.now }
    ensures { IfOk result (λ y. y.items ≡ asked_of c.now x.now) }
{
    let request = c.request();
    let modulus = Modulus::new(request.modulus).unwrap();
    let terms = terms_of(alloc, c, tree)?;
    let y = Sigma::apply_plain(alloc, &modulus, &terms, x)?;
    Ok(y)
}

fn is_vector(modulus: u64, size: u64, x: &[u64]) -> bool
    ensures { IsTrue result ↔ IsVector modulus size x.now }
{
    x.len() as u64 == size && x.iter().all(|&v| v < modulus)
}

// A request, a tree and a vector, and its product, worked out apart from this program.
const ROWS: &str = "\
dft 4 mod 17 root 4; ct 2 2; 1 2 3 4|10 7 15 6
dft 4 mod 17 root 4 unroll 2; ct 2 2; 1 2 3 4|10 7 15 6
dft 4 mod 17 root 4 procs 2 line 1; ct 2 2; 1 2 3 4|10 7 15 6
dft 4 mod 17 root 4 lanes 2; ct 2 2; 1 2 3 4|10 7 15 6
dft 1 mod 2 root 1; leaf 1; 1|1
dft 2 mod 15 root 4; leaf 2; 1 1|2 5
dft 4 mod 10 root 9; ct 2 2; 1 2 3 4|0 8 0 8
dft 6 mod 7 root 3; gt 2 3; 0 1 0 0 0 0|1 3 2 6 4 5
dft 6 mod 7 root 3 unroll 2; gt 2 3; 0 1 0 0 0 0|1 3 2 6 4 5
wht 4 mod 5; split 2 2; 1 2 3 4|0 3 1 0
wht 4 mod 5 unroll 2; split 2 2; 1 2 3 4|0 3 1 0
dft 16 mod 17 root 3; ct 4 4; 0 1 0 0 0 0 0 0 0 0 0 0 0 0 0 0|1 3 9 10 13 5 15 11 16 14 8 7 4 12 2 6
dft 16 mod 17 root 3; ct 4 4; 0 0 1 0 0 0 0 0 0 0 0 0 0 0 0 0|1 9 13 15 16 8 4 2 1 9 13 15 16 8 4 2
dft 16 mod 17 root 3 procs 2 line 2; ct 4 4; 0 1 0 0 0 0 0 0 0 0 0 0 0 0 0 0|1 3 9 10 13 5 15 11 16 14 8 7 4 12 2 6
dft 16 mod 17 root 3 line 2 lanes 2; ct 4 4; 0 1 0 0 0 0 0 0 0 0 0 0 0 0 0 0|1 3 9 10 13 5 15 11 16 14 8 7 4 12 2 6
dft 16 mod 17 root 3 procs 2 line 2 lanes 2; ct 4 4; 0 1 0 0 0 0 0 0 0 0 0 0 0 0 0 0|1 3 9 10 13 5 15 11 16 14 8 7 4 12 2 6
dft 6 mod 7 root 3; gt 2 3; 5 4 0 6 1 0|2 1 0 3 3 0
dft 4 mod 10 root 9; ct 2 2; 5 4 7 6|2 2 2 2
dft 12 mod 12 root 1; ct 3 2 2; 5 4 7 6 1 0 3 2 1 0 3 2|10 10 10 10 10 10 10 10 10 10 10 10
dft 12 mod 15 root 4; ct 2 2 3; 5 4 7 6 1 0 3 2 13 12 0 14|7 1 7 1 7 1 7 1 7 1 7 1
dft 21 mod 21 root 4; gt 3 7; 5 4 7 6 1 0 3 2 13 12 15 14 9 8 11 10 0 20 2 1 17|13 13 10 13 13 10 13 13 10 13 13 10 13 13 10 13 13 10 13 13 10
wht 8 mod 12; split 2 2 2; 5 4 7 6 1 0 3 2|4 4 4 0 4 0 0 0
";

fn sizes_in(alloc: Global, r: &Request) -> Result<Vec<u64>, Fail>
    ensures { IfOk result (λ sizes. sizes.items ≡ sizes_of r.now) }
{
    match r.dimensions {
        Dimensions::One => Ok(vec![in alloc; r.size]?),
        Dimensions::Two(a, b) => Ok(vec![in alloc; a.size, b.size]?),
        Dimensions::Three(a, b, c) => Ok(vec![in alloc; a.size, b.size, c.size]?),
        Dimensions::Four(a, b, c, d) => Ok(vec![in alloc; a.size, b.size, c.size, d.size]?),
    }
}

fn roots_in(alloc: Global, r: &Request) -> Result<Vec<u64>, Fail>
    ensures { IfOk result (λ roots. roots.items ≡ roots_of r.now) }
{
    match r.dimensions {
        Dimensions::One => Ok(vec![in alloc; r.root]?),
        Dimensions::Two(a, b) => Ok(vec![in alloc; a.root, b.root]?),
        Dimensions::Three(a, b, c) => Ok(vec![in alloc; a.root, b.root, c.root]?),
        Dimensions::Four(a, b, c, d) => Ok(vec![in alloc; a.root, b.root, c.root, d.root]?),
    }
}

fn by_definition(alloc: Global, r: &Request, x: &[u64]) -> Result<Vec<u64>, Fail>
    requires in_range { IsInRange r.now }
    requires vector { IsVector r.now.modulus r.now.size x.now }
{
    let sizes = sizes_in(alloc, r)?;
    let roots = roots_in(alloc, r)?;
    Ok(times_plain(alloc, r.kind, &sizes, &roots, r.modulus, x)?)
}

fn by_formula(alloc: Global, c: &Ctx, tree: &Tree, x: &[u64]) -> Result<Vec<u64>, Fail>
    requires { IsWholeTree c.now (breakdown_of tree.now) }
{
    let formula = expand(alloc, c, tree)?;
    applied(alloc, c, &formula, x)
}

// What a formula does to the vector.
fn applied(alloc: Global, c: &Ctx, formula: &Spl, x: &[u64]) -> Result<Vec<u64>, Fail> {
    let m = Modulus::new(c.request().modulus).ok_or("a modulus")?;
    if formula.cols() != x.len() as u64 || !x.iter().all(|v| *v < m.get()) {
        Err("a vector of the formula")?
    }
    Ok(Spl::apply_plain(alloc, &m, formula, x)?)
}

// The product by the definition, where that by the formula is the same.
fn by_both(alloc: Global, c: &Ctx, tree: &Tree, x: &[u64]) -> Result<String, Fail>
    requires tree { IsWholeTree c.now (breakdown_of tree.now) }
    requires vector { IsVector c.now.modulus c.now.size x.now }
{
    let first = by_definition(alloc, &c.request(), x)?;
    if by_formula(alloc, c, tree, x)?.as_slice() == first.as_slice() {
        joined(alloc, &first)
    } else {
        Ok("another by the formula".to_string(alloc)?)
    }
}

fn by_terms(alloc: Global, c: &Ctx, tree: &Tree, x: &[u64]) -> Result<String, Fail>
    requires tree { IsWholeTree c.now (breakdown_of tree.now) }
    requires vector { IsVector c.now.modulus c.now.size x.now }
{
    joined(alloc, &times(alloc, c, tree, x)?)
}

// The product by the definition, by the formula, and by terms.
fn by_all(alloc: Global, c: &Ctx, tree: &Tree, x: &[u64]) -> Result<String, Fail>
    requires tree { IsWholeTree c.now (breakdown_of tree.now) }
    requires vector { IsVector c.now.modulus c.now.size x.now }
{
    let text = by_both(alloc, c, tree, x)?;
    if by_terms(alloc, c, tree, x)?.as_str() == text.as_str() {
        Ok(text)
    } else {
        Ok("another by terms".to_string(alloc)?)
    }
}

// The product, where the tree is admissible.
fn product(alloc: Global, c: &Ctx, tree: &Tree, x: &[u64]) -> Result<String, Fail> {
    let request = c.request();
    if !admissible(c, tree) || !is_vector(request.modulus, request.size, x) {
        return Err(Fail::from("an admissible tree and a vector"));
    }
    by_all(alloc, c, tree, x)
}

fn answer(alloc: Global, question: &str) -> Result<String, Fail> {
    let (question, x) = question.rsplit_once("; ").ok_or("a vector")?;
    let (request, leaves) = question.rsplit_once("; ").ok_or("a tree")?;
    let c = context(request)?;
    let tree = tree_of(alloc, leaves)?;
    product(alloc, &c, &tree, &numbers(alloc, x)?)
}

#[test]
fn products(rt: HostRuntime) -> Result<(), Fail> {
    check(rt.alloc(), ROWS, answer)
}

// An inverse, a tree and a vector, and its product: rows of above, turned round. The last has a root with no inverse
// transform, so it is worked out by hand.
const INVERSES: &str = "\
idft 4 mod 17 root 4; ct 2 2; 10 7 15 6|1 2 3 4
idft 1 mod 2 root 1; leaf 1; 1|1
idft 6 mod 7 root 3; gt 2 3; 1 3 2 6 4 5|0 1 0 0 0 0
idft 16 mod 17 root 3 procs 2 line 2; ct 4 4; 1 3 9 10 13 5 15 11 16 14 8 7 4 12 2 6|0 1 0 0 0 0 0 0 0 0 0 0 0 0 0 0
idft 2 mod 15 root 4; leaf 2; 1 1|1 10
";

#[test]
fn inverses(rt: HostRuntime) -> Result<(), Fail> {
    check(rt.alloc(), INVERSES, answer)
}

// The same for several dimensions, by the reference in checks/reference/.
const DIMENSIONS: &str = "\
dft 2x2 mod 17 root 16x16; dim 2 2; 1 2 3 4|10 15 13 0
dft 2x2 mod 17 root 16x16 procs 2 line 1; dim 2 2; 1 2 3 4|10 15 13 0
dft 2x3 mod 7 root 6x2; dim 2 3; 1 2 3 4 5 6|0 6 2 5 0 0
dft 3x2 mod 7 root 2x6; dim 3 2; 1 2 3 4 5 6|0 4 5 0 4 0
dft 4x2 mod 17 root 4x16 unroll 2; dim 4 2; 1 2 3 4 5 6 7 8|2 13 11 0 9 0 7 0
dft 2x3x2 mod 7 root 6x2x6; dim 2 3 2; 1 2 3 4 5 6 0 1 2 3 4 6|2 0 0 3 3 5 5 1 3 4 5 2
dft 2x2x2x2 mod 15 root 4x11x14x1; dim 2 2 2 2; 1 2 3 4 5 6 7 8 9 10 11 12 13 14 0 1|1 1 14 14 1 1 9 9 1 1 5 5 1 1 0 0
";

#[test]
fn dimensions(rt: HostRuntime) -> Result<(), Fail> {
    check(rt.alloc(), DIMENSIONS, answer)
}
