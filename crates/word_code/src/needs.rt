// Which words of A and of B are added up. Shoup's product takes any word, so words that are multiplied before anything else may be
// as great as a register. Words that are added up first have to be smaller.

ghost use Rattle.std.specs.Prelude.{◌≡◌, IfOk, None};
ghost use Rattle.icode.specs.Plain.{plain_op, plain_stmt, plain_body};
ghost use Rattle.word_code.specs.Needs.{both_needs, loads_of, loads_of_stmt, product_after, product_of};
ghost use Rattle.word_code.specs.Needs.{is_register, is_multiplying, multiplies, multiply};
ghost use Rattle.word_code.specs.Needs.{needs_of_stmt, needs_of_each};

use icode::program::{Array, Op, Stmt};
use memory::NoMemory;
use std::alloc::Global;

/// Whether some words of A are added up before they are multiplied, and some of B.
#[derive(Clone, Copy, Drop, PartialEq, Eq, Debug)]
pub(crate) struct Needs {
    pub(crate) of_a: bool,
    pub(crate) of_b: bool,
}

impl Needs {
    pub(crate) const NONE: Needs = Needs {
        of_a: false,
        of_b: false,
    };

    pub(crate) fn and(self, other: Needs) -> Needs
        ensures { result ≡ both_needs self other }
    {
        Needs {
            of_a: self.of_a || other.of_a,
            of_b: self.of_b || other.of_b,
        }
    }
}

fn loads_of(op: &Op) -> Needs
    ensures { result ≡ loads_of (plain_op op.now) }
{
    match op {
        Op::Load {
            array: Array::A,
            ..
        } => Needs {
            of_a: true,
            of_b: false,
        },
        Op::Load {
            array: Array::B,
            ..
        } => Needs {
            of_a: false,
            of_b: true,
        },
        _ => Needs::NONE,
    }
}

/// The arrays that the statement loads from.
fn loads_of_stmt(stmt: &Stmt) -> Needs
    ensures { result ≡ loads_of_stmt (plain_stmt stmt.now) }
{
    match stmt {
        Stmt::Loop { body, .. } => {
            let mut loads = Needs::NONE;
            for inner in body {
                loads = loads.and(loads_of_stmt(inner));
            }
            loads
        }
        Stmt::Do(op) => loads_of(op),
    }
}

/// The register of the last product.
fn product_after(last: Option<u64>, op: &Op) -> Option<u64>
    ensures { result ≡ product_after last (plain_op op.now) }
{
    match op {
        Op::MulConst { register, .. } => Some(*register),
        Op::MulTable { register, .. } => Some(*register),
        _ => last,
    }
}

fn is_register(last: Option<u64>, register: u64) -> bool
    ensures { result ≡ is_register last register }
{
    match last {
        Some(last) => last == register,
        None => false,
    }
}

fn is_multiplying(last: Option<u64>, op: &Op) -> bool
    ensures { result ≡ is_multiplying last (plain_op op.now) }
{
    match op {
        Op::Store { register, .. } => is_register(last, *register),
        Op::Add { .. } => false,
        Op::Sub { .. } => false,
        Op::Neg { .. } => false,
        _ => true,
    }
}

/// The register of the last product, after a statement.
fn product_of(last: Option<u64>, stmt: &Stmt) -> Option<u64>
    ensures { result ≡ product_of last (plain_stmt stmt.now) }
{
    match stmt {
        Stmt::Loop { .. } => None,
        Stmt::Do(op) => product_after(last, op),
    }
}

/// Whether nothing is added up, and each store is of the product before it.
#[cycle(multiply)]
fn multiplies(last: Option<u64>, stmt: &Stmt) -> bool
    ensures { result ≡ multiplies last (plain_stmt stmt.now) }
{
    match stmt {
        Stmt::Loop { body, .. } => multiply(body),
        Stmt::Do(op) => is_multiplying(last, op),
    }
}

#[cycle(multiply)]
fn multiply(body: &[Stmt]) -> bool
    ensures { result ≡ multiply None (plain_body body.now) }
{
    let mut last = None;
    for stmt in body {
        if !multiplies(last, stmt) {
            return false;
        }
        last = product_of(last, stmt);
    }
    true
}

/// What the statement needs.
fn needs_of_stmt(stmt: &Stmt) -> Needs
    ensures { result ≡ needs_of_stmt (plain_stmt stmt.now) }
{
    match stmt {
        Stmt::Loop { body, .. } if multiply(body) => Needs::NONE,
        _ => loads_of_stmt(stmt),
    }
}

/// What is needed from each statement on.
pub(crate) fn needs_of_each(alloc: Global, body: &[Stmt]) -> Result<Vec<Needs>, NoMemory>
    ensures { IfOk result (λ each. each.items ≡ needs_of_each (plain_body body.now)) }
{
    let mut each = Vec::new(alloc);
    let mut needs = Needs::NONE;
    for behind in 0..body.len() {
        needs = needs_of_stmt(&body[body.len() - 1 - behind]).and(needs);
        each.push(needs)?;
    }
    each.reverse();
    Ok(each)
}
