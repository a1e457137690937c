// Formulas: what is read, refused, printed, applied and rewritten.

use crate::same::same;
use ring_mod::Modulus;
use spl_ast::{Distribute, Node, Spl, rewrite};
use spl_text::{print_spl, read_spl};
use std::alloc::Global;
use std::test::Fail;
use worked_rows::{check, joined, number, spelled};

// A text, and the fault where it is no formula.
const FAULTS: &str = "\
I(1048576)|None
DFT(12,4611686018427387903)~|None
WHT(4)|None
L(6,2)|None
T(12,4,7)|None
DIAG(4611686018427387903,1,4)|None
PERM(2,0,1)|None
GTIN(3,4)|None
GTOUT(4,3)|None
TIMES(LEFT(DFT(2,16),2),L(4,2))|None
RIGHT(3,SUM(PERM(0),DIAG(3,4)))|None
|Some(Syntax { at: 0 })
I(2|Some(Syntax { at: 3 })
I(0)|Some(Syntax { at: 2 })
I(1048577)|Some(Syntax { at: 8 })
I(2)x|Some(Syntax { at: 4 })
I(2)~~|Some(Syntax { at: 5 })
DFT(2,4611686018427387904)|Some(Syntax { at: 24 })
DFT(2,01)|Some(Syntax { at: 7 })
DIAG()|Some(Syntax { at: 5 })
LIFT(I(2),3)|Some(Syntax { at: 1 })
TIMES(I(2),I(x|Some(Syntax { at: 13 })
TIMES(I(2),I(3))|Some(Shape { at: 0, left: 2, right: 3 })
LEFT(TIMES(I(2),I(3)),0)|Some(Shape { at: 5, left: 2, right: 3 })
L(6,4)|Some(Shape { at: 0, left: 6, right: 4 })
T(6,4,1)|Some(Shape { at: 0, left: 6, right: 4 })
GTIN(4,6)|Some(Shape { at: 0, left: 4, right: 6 })
GTOUT(1,6)|Some(Shape { at: 0, left: 1, right: 6 })
GTIN(1025,1024)|Some(Shape { at: 0, left: 1049600, right: 1048576 })
WHT(6)|Some(Shape { at: 0, left: 6, right: 2 })
PERM(2,0,2,1)|Some(Shape { at: 0, left: 4, right: 2 })
PERM(0,3,1)|Some(Shape { at: 0, left: 3, right: 3 })
SUM(I(1048576),I(1))|Some(Shape { at: 0, left: 1048577, right: 1048576 })
";

fn fault_of(alloc: Global, text: &str) -> Result<String, Fail> {
    Ok(format!(in alloc; "{:?}", read_spl(alloc, text.as_bytes()).err())?)
}

fn fault_answer(alloc: Global, text: &str) -> Result<String, Fail> {
    fault_of(alloc, &spelled(alloc, text)?)
}

#[test]
fn kinds_and_faults(rt: HostRuntime) -> Result<(), Fail> {
    check(rt.alloc(), FAULTS, fault_answer)
}

// RIGHT(1,RIGHT(1,.. I(1)..)).
fn nested(alloc: Global, depth: u64) -> Result<String, Fail> {
    let mut text = String::new(alloc);
    for _ in 0..depth {
        text.push_str("RIGHT(1,")?;
    }
    text.push_str("I(1)")?;
    for _ in 0..depth {
        text.push_str(")")?;
    }
    Ok(text)
}

// A depth, and the fault where the formula is too deep.
const DEPTHS: &str = "\
127|None
128|Some(TooDeep { at: 1025 })
";

fn depth_answer(alloc: Global, depth: &str) -> Result<String, Fail> {
    fault_of(alloc, &nested(alloc, number(depth)?)?)
}

#[test]
fn depth(rt: HostRuntime) -> Result<(), Fail> {
    check(rt.alloc(), DEPTHS, depth_answer)
}

// Formulas that are printed as they were read.
const TEXTS: &str = "\
SUM(DIAG(4611686018427387903,1,4),PERM(2,0,1))
TIMES(GTOUT(3,4),TIMES(LEFT(DFT(3,9),4),TIMES(RIGHT(3,WHT(4)),GTIN(3,4))))
TIMES(T(12,4,7),L(12,3))
RIGHT(3,LEFT(I(2),5))
DIAG(0)
I(1048576)
TIMES(LEFT(DFT(2,16),2),L(4,2))
";

fn printed(alloc: Global, text: &str) -> Result<Vec<u8>, Fail> {
    let formula = read_spl(alloc, text.as_bytes()).ok().ok_or("a formula")?;
    Ok(print_spl(alloc, &formula)?)
}

#[test]
fn printed_as_read(rt: HostRuntime) -> Result<(), Fail> {
    for text in TEXTS.lines() {
        same(&rt, printed(rt.alloc(), text)?.as_slice(), text.as_bytes());
    }
    Ok(())
}

fn applied(alloc: Global, formula: &Spl, modulus: u64, x: &[u64]) -> Result<Vec<u64>, Fail> {
    let m = Modulus::new(modulus).ok_or("a modulus")?;
    if formula.cols() != x.len() as u64 || !x.iter().all(|v| *v < m.get()) {
        Err("a vector of the formula")?
    }
    Ok(Spl::apply_plain(alloc, &m, formula, x)?)
}

// The number of the product's rows, and the rows.
fn product(alloc: Global, formula: &str, modulus: u64, x: &[u64]) -> Result<String, Fail> {
    let formula = read_spl(alloc, formula.as_bytes()).ok().ok_or("a formula")?;
    let y = joined(alloc, &applied(alloc, &formula, modulus, x)?)?;
    Ok(format!(in alloc; "{} rows: {y}", formula.rows())?)
}

#[test]
fn read_and_applied(rt: HostRuntime) -> Result<(), Fail> {
    let text = "TIMES(LEFT(DFT(2,16),2),L(4,2))";
    let answer = product(rt.alloc(), text, 17, &[1, 2, 3, 4])?;
    same(&rt, answer.as_str(), "4 rows: 3 7 16 16");
    Ok(())
}

// A tensor of a product becomes a product of tensors.
#[test]
fn tensors_distribute(rt: HostRuntime) -> Result<(), Fail> {
    let alloc = rt.alloc();
    let m = Modulus::new(12).ok_or("a modulus")?;
    let text = b"RIGHT(3,LEFT(TIMES(DFT(2,11),L(2,1)),2))";
    let formula = read_spl(alloc, text).ok().ok_or("a formula")?;
    let product = rewrite(alloc, &Distribute::new(m), formula)?;
    same(&rt, matches!(&product.node, Node::Compose(_, _)), true);
    Ok(())
}
