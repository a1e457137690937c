//! Rewriting by a rule, until nothing matches.

ghost use Rattle.std.specs.Prelude.{◌≡◌, ℕ, ◌<◌, Bool, true, IfOk};
ghost use Rattle.spl_ast.specs.Formula.{Formula};
ghost use Rattle.spl_ast.specs.Rewriting.{Fires, MeasuresParts, HasNoMatch, HasNoPartMatch, Rewrites};

use crate::{NoMemory, Node, Spl};
use std::alloc::Global;

/// A rule of rewriting.
pub trait Rule {
    /// The modulus by which the rule reads what formulas mean.
    ghost modulus: { Self → ℕ };

    /// Whether the rule matches a formula.
    ghost is_match: { Self → Formula → Bool };

    /// A number that falls with each step.
    ghost measure: { Self → Formula → ℕ };

    fn matches(&self, f: &Spl) -> bool
        ensures { result ≡ is_match self.now f.now };

    /// The formula after one step: the same matrix modulo the rule's modulus, with a smaller measure.
    fn fire(&self, alloc: Global, f: Spl) -> Result<Spl, NoMemory>
        requires matched { is_match self.now f ≡ true }
        ensures { IfOk result (λ g. Fires (modulus self.now) (measure self.now) f g) };

    /// The measure of a formula is greater than that of each part, and falls with it.
    ghost measures_parts: { (rule : Self) → MeasuresParts (measure rule) };
}

/// The formula, rewritten until the rule matches no part of it. On `NoMemory` the formula is gone.
#[cycle(rewrite)]
pub fn rewrite<R: Rule>(alloc: Global, rule: &R, f: Spl) -> Result<Spl, NoMemory>
    ensures keeps { IfOk result (λ g. Rewrites (R.modulus rule.now) (R.measure rule.now) f g) }
    ensures no_match { IfOk result (λ g. HasNoMatch (R.is_match rule.now) g) }
{
    let f = rewrite_parts(alloc, rule, f)?;
    if rule.matches(&f) {
        let fired = rule.fire(alloc, f)?;
        rewrite(alloc, rule, fired)
    } else {
        Ok(f)
    }
}

// The formula, with each part rewritten until the rule matches nothing in it.
#[cycle(rewrite)]
fn rewrite_parts<R: Rule>(alloc: Global, rule: &R, f: Spl) -> Result<Spl, NoMemory>
    ensures keeps { IfOk result (λ g. Rewrites (R.modulus rule.now) (R.measure rule.now) f g) }
    ensures no_match { IfOk result (λ g. HasNoPartMatch (R.is_match rule.now) g) }
{
    let node = f.node;
    match node {
        Node::Compose(a, b) => {
            let a = rewrite_boxed(alloc, rule, a)?;
            let b = rewrite_boxed(alloc, rule, b)?;
            Ok(Spl {
                node: Node::Compose(a, b),
            })
        }
        Node::TensorLeft(a, k) => {
            let a = rewrite_boxed(alloc, rule, a)?;
            Ok(Spl {
                node: Node::TensorLeft(a, k),
            })
        }
        Node::TensorRight(k, a) => {
            let a = rewrite_boxed(alloc, rule, a)?;
            Ok(Spl {
                node: Node::TensorRight(k, a),
            })
        }
        Node::DirectSum(a, b) => {
            let a = rewrite_boxed(alloc, rule, a)?;
            let b = rewrite_boxed(alloc, rule, b)?;
            Ok(Spl {
                node: Node::DirectSum(a, b),
            })
        }
        Node::Todo(a) => {
            let a = rewrite_boxed(alloc, rule, a)?;
            Ok(Spl {
                node: Node::Todo(a),
            })
        }
        leaf => Ok(Spl { node: leaf }),
    }
}

// A part, rewritten until the rule matches nothing in it.
#[cycle(rewrite)]
fn rewrite_boxed<R: Rule>(alloc: Global, rule: &R, part: Box<Spl>) -> Result<Box<Spl>, NoMemory>
    ensures keeps { IfOk result
        (λ g. Rewrites (R.modulus rule.now) (R.measure rule.now) part.value g.value) }
    ensures no_match { IfOk result (λ g. HasNoMatch (R.is_match rule.now) g.value) }
{
    let whole = rewrite(alloc, rule, Box::into_inner(part))?;
    Ok(Box::new(alloc, whole)?)
}
