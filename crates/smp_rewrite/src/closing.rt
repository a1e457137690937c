// The factor at the end of a formula.
ghost use Rattle.std.specs.Prelude.{◌≡◌};
ghost use Rattle.smp_rewrite.specs.Walk.{body_of, closing_in, factor_in, value_in, one_in};

use spl_ast::{Node, Spl};

/// The factor after a formula, as `I_n tensor diag(v)` at its end.
pub(crate) fn closing_in(formula: &Spl) -> Option<u64>
    ensures { result ≡ closing_in formula.now }
{
    match &formula.node {
        Node::Compose(a, _) => factor_in(a),
        _ => None,
    }
}

/// The formula before that factor.
pub(crate) fn body_of(formula: &Spl) -> &Spl
    ensures { result.now ≡ body_of formula.now }
{
    match &formula.node {
        Node::Compose(a, b) => match factor_in(a) {
            Some(_) => b,
            None => formula,
        },
        _ => formula,
    }
}

// What `I_n tensor diag(v)` multiplies each word by.
fn factor_in(formula: &Spl) -> Option<u64>
    ensures { result ≡ factor_in formula.now }
{
    match &formula.node {
        Node::TensorRight(_, a) => value_in(a),
        _ => None,
    }
}

fn value_in(formula: &Spl) -> Option<u64>
    ensures { result ≡ value_in formula.now }
{
    match &formula.node {
        Node::Diag(values) => one_in(values),
        _ => None,
    }
}

fn one_in(values: &[u64]) -> Option<u64>
    ensures { result ≡ one_in values.now }
{
    match values.split_first() {
        Some((value, [])) => Some(*value),
        _ => None,
    }
}
