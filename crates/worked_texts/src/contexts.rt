// Requests by their lines, as contexts of trees, and trees by their leaves.

ghost use Rattle.std.specs.Prelude.{IfOk};
ghost use Rattle.matrix_meaning.specs.Valid.{IsInRange};

use matrix_meaning::Request;
use request_text::read_request;
use std::alloc::Global;
use std::test::Fail;
use tree_model::{Ctx, Tree};
use worked_rows::numbers;

/// The request of a line.
pub(crate) fn request(line: &str) -> Result<Request, Fail>
    ensures { IfOk result IsInRange }
{
    match read_request(line.as_bytes()) {
        Ok(request) => Ok(request),
        Err(_) => Err("a request")?,
    }
}

/// The context of the request, where its roots are right.
pub(crate) fn valid_context(request: &Request) -> Option<Ctx>
    requires { IsInRange request.now }
{
    match request.bad_power() {
        None => Some(Ctx::new(request)),
        Some(_) => None,
    }
}

/// The context of the line's request, where it is valid.
pub(crate) fn context(text: &str) -> Result<Ctx, Fail> {
    let request = request(text)?;
    Ok(valid_context(&request).ok_or("a valid request")?)
}

/// The node of the rule with these parts.
pub(crate) fn node(alloc: Global, rule: &str, a: Tree, b: Tree) -> Result<Tree, Fail> {
    let (a, b) = (Box::new(alloc, a)?, Box::new(alloc, b)?);
    Ok(match rule {
        "gt" => Tree::Gt(a, b),
        "ct" => Tree::Ct(a, b),
        "dim" => Tree::Dim(a, b),
        _ => Tree::Split(a, b),
    })
}

fn tree_on(alloc: Global, rule: &str, sizes: &[u64]) -> Result<Tree, Fail> {
    let (last, front) = sizes.split_last().ok_or("a leaf")?;
    let mut tree = Tree::Leaf(*last);
    for size in front.iter().rev() {
        tree = node(alloc, rule, Tree::Leaf(*size), tree)?;
    }
    Ok(tree)
}

/// The tree with these leaves, where each left part is a leaf: `ct 2 2 3` is `ct(leaf(2),ct(leaf(2),leaf(3)))`.
pub(crate) fn tree_of(alloc: Global, text: &str) -> Result<Tree, Fail> {
    let (rule, sizes) = text.split_once(' ').ok_or("a rule")?;
    tree_on(alloc, rule, &numbers(alloc, sizes)?)
}
