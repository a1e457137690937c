// Requests with known plans, and small requests whose trees are all tried.

ghost use Rattle.tree_model.specs.Breakdown.{breakdown_of};
ghost use Rattle.tree_model.specs.Chosen.{IsWholeTree};

use crate::contexts::{context, node, request, valid_context};
use crate::same::{same, same_in};
use plan_search::{Plan, PlanError, best};
use ring_mod::Modulus;
use std::alloc::Global;
use std::fmt::Write;
use std::process::Abort;
use std::test::Fail;
use tree_model::{Ctx, Tree, admissible, before, cost};
use worked_rows::{check, number};

// A request, and its plan: the tree and its cost. Those of inverses and of several dimensions are by the reference in
// checks/reference/. What the passes of these trees load and store is in the samples of `worked_examples`.
const PLANS: &str = "\
dft 4 mod 17 root 4|ct(leaf(2),leaf(2)) 9
dft 1 mod 2 root 1|leaf(1) 0
dft 6 mod 7 root 3|gt(leaf(2),leaf(3)) 26
wht 4 mod 5|split(leaf(2),leaf(2)) 8
dft 8 mod 17 root 2|ct(leaf(2),ct(leaf(2),leaf(2))) 29
dft 11 mod 23 root 2|leaf(11) 242
dft 11 mod 23 root 2 budget 241|242 over 241
dft 11 mod 23 root 2 budget 242|leaf(11) 242
dft 4 mod 17 root 4 budget 8|9 over 8
dft 2 mod 15 root 4|leaf(2) 3
dft 2 mod 4611686018427387903 root 4611686018427387902|leaf(2) 2
dft 4 mod 10 root 9|ct(leaf(2),leaf(2)) 9
dft 16 mod 17 root 3|ct(ct(leaf(2),leaf(2)),ct(leaf(2),leaf(2))) 88
dft 16 mod 17 root 3 unroll 16|ct(leaf(2),ct(leaf(2),ct(leaf(2),leaf(2)))) 81
dft 30 mod 31 root 3|gt(leaf(2),gt(leaf(3),leaf(5))) 346
dft 65536 mod 65537 root 3|ct(ct(leaf(2),leaf(2)),ct(ct(leaf(2),leaf(2)),ct(ct(leaf(2),ct(leaf(2),leaf(2))),ct(ct(leaf(2),ct(leaf(2),leaf(2))),ct(ct(leaf(2),ct(leaf(2),leaf(2))),ct(leaf(2),ct(leaf(2),leaf(2)))))))) 1572864
dft 4 mod 17 root 3|not valid
dft 4 mod 17 root 4 procs 2|ct(leaf(2),leaf(2)) 12
dft 4 mod 17 root 4 line 2 lanes 2|ct(leaf(2),leaf(2)) 12
wht 4 mod 5 line 2 lanes 2|split(leaf(2),leaf(2)) 8
dft 6 mod 7 root 3 line 2 lanes 2|no divide
dft 8 mod 17 root 2 procs 2 line 2|no divide
dft 1 mod 2 root 1 procs 2|no divide
dft 16 mod 17 root 3 procs 2 line 2|ct(ct(leaf(2),leaf(2)),ct(leaf(2),leaf(2))) 88
dft 16 mod 17 root 3 procs 2 line 2 lanes 2|ct(ct(leaf(2),leaf(2)),ct(leaf(2),leaf(2))) 88
dft 144 mod 31 root 30 procs 3 line 4 unroll 3|ct(gt(leaf(3),ct(leaf(2),leaf(2))),gt(leaf(3),ct(leaf(2),leaf(2)))) 1584
wht 1024 mod 1024 procs 2 line 4 lanes 2|split(split(leaf(2),split(leaf(2),leaf(2))),split(leaf(2),split(leaf(2),split(leaf(2),split(leaf(2),split(leaf(2),split(leaf(2),leaf(2)))))))) 10240
dft 4 mod 17 root 4 weight 5|ct(leaf(2),leaf(2)) 13
dft 6 mod 7 root 3 weight 5|gt(leaf(2),leaf(3)) 58
dft 4 mod 10 root 9 weight 5|ct(leaf(2),leaf(2)) 9
dft 11 mod 23 root 2 budget 483 weight 3|484 over 483
dft 16 mod 17 root 2 unroll 16|ct(leaf(2),ct(leaf(2),ct(leaf(2),leaf(2)))) 81
dft 16 mod 17 root 2 unroll 16 weight 2|ct(ct(leaf(2),leaf(2)),ct(leaf(2),leaf(2))) 89
dft 4 mod 17 root 4 procs 2 weight 1000|ct(leaf(2),leaf(2)) 4008
idft 4 mod 17 root 4|ct(leaf(2),leaf(2)) 13
idft 4 mod 17 root 4 budget 12|13 over 12
idft 4 mod 17 root 3|not valid
idft 1 mod 17 root 1 weight 3|leaf(1) 3
idft 4 mod 17 root 4 procs 2|ct(leaf(2),leaf(2)) 16
idft 16 mod 17 root 3 procs 2 line 2 lanes 2|ct(ct(leaf(2),leaf(2)),ct(leaf(2),leaf(2))) 104
idft 6 mod 7 root 3 unroll 2 weight 5|gt(leaf(2),leaf(3)) 144
dft 2x2 mod 17 root 16x16|dim(leaf(2),leaf(2)) 8
dft 2x2 mod 17 root 16x16 budget 7|8 over 7
dft 2x2 mod 17 root 16x4|not valid
dft 2x2 mod 17 root 16x16 procs 2|dim(leaf(2),leaf(2)) 8
dft 2x3 mod 7 root 6x2|dim(leaf(2),leaf(3)) 26
dft 2x3 mod 7 root 6x2 procs 2|no divide
dft 8x2x2 mod 17 root 2x1x1 procs 4 line 2|no divide
dft 3x4 mod 13 root 3x5 unroll 2|dim(leaf(3),ct(leaf(2),leaf(2))) 108
dft 8x6 mod 7 root 6x3|dim(ct(leaf(2),ct(leaf(2),leaf(2))),gt(leaf(2),leaf(3))) 364
dft 2x3x5 mod 31 root 30x5x2 weight 5|dim(leaf(2),dim(leaf(3),leaf(5))) 890
dft 2x2x2x2 mod 15 root 4x11x14x1|dim(leaf(2),dim(leaf(2),dim(leaf(2),leaf(2)))) 80
dft 4x4 mod 17 root 4x13 lanes 2 unroll 2|dim(ct(leaf(2),leaf(2)),ct(leaf(2),leaf(2))) 96
dft 4x4 mod 17 root 4x13 procs 2 line 2 lanes 2|dim(ct(leaf(2),leaf(2)),ct(leaf(2),leaf(2))) 72
dft 4x2x2 mod 17 root 4x16x1 procs 2|dim(ct(leaf(2),leaf(2)),dim(leaf(2),leaf(2))) 68
dft 4x2x2 mod 17 root 4x16x1 lanes 2|dim(ct(leaf(2),leaf(2)),dim(leaf(2),leaf(2))) 68
";

fn described(alloc: Global, c: &Ctx, budget: u64) -> Result<String, Fail> {
    match best(alloc, c, budget) {
        Ok(Plan { tree, cost }) => Ok(format!(in alloc; "{tree} {cost}")?),
        Err(PlanError::OverBudget { cost, budget }) => {
            Ok(format!(in alloc; "{cost} over {budget}")?)
        }
        Err(PlanError::NoDivide) => Ok(format!(in alloc; "no divide")?),
        Err(PlanError::NoMemory) => Ok(format!(in alloc; "no memory")?),
    }
}

fn answer(alloc: Global, line: &str) -> Result<String, Fail> {
    let request = request(line)?;
    match valid_context(&request) {
        Some(c) => described(alloc, &c, request.budget),
        None => Ok("not valid".to_string(alloc)?),
    }
}

#[test]
fn plans(rt: HostRuntime) -> Result<(), Fail> {
    check(rt.alloc(), PLANS, answer)
}

fn add_node(
    alloc: Global,
    trees: &mut Vec<Tree>,
    rule: &str,
    a: &Tree,
    b: &Tree,
) -> Result<(), Fail> {
    let (a, b) = (a.copied(alloc)?, b.copied(alloc)?);
    trees.push(node(alloc, rule, a, b)?)?;
    Ok(())
}

/// Adds each node with these parts, by each rule.
fn add_nodes(
    alloc: Global,
    trees: &mut Vec<Tree>,
    left: &[Tree],
    right: &[Tree],
) -> Result<(), Fail> {
    for a in left {
        for b in right {
            for rule in ["gt", "ct", "split", "dim"] {
                add_node(alloc, trees, rule, a, b)?;
            }
        }
    }
    Ok(())
}

/// Every tree of this size, whether or not a request admits it.
fn every_tree(alloc: Global, size: u64) -> Result<Vec<Tree>, Fail> {
    let mut trees = Vec::new(alloc);
    trees.push(Tree::Leaf(size))?;
    for r in 2..size {
        if size % r == 0 {
            let left = every_tree(alloc, r)?;
            let right = every_tree(alloc, size / r)?;
            add_nodes(alloc, &mut trees, &left, &right)?;
        }
    }
    Ok(trees)
}

/// What a tree of the request costs.
fn whole_cost(c: &Ctx, tree: &Tree) -> u64
    requires { IsWholeTree c.now (breakdown_of tree.now) }
{
    cost(c, tree)
}

/// Whether a tree is cheaper than the plan, or as cheap and before it.
fn is_better(c: &Ctx, tree: &Tree, plan: &Plan) -> bool
    requires tree { IsWholeTree c.now (breakdown_of tree.now) }
    requires plan { IsWholeTree c.now (breakdown_of plan.now.tree) }
{
    let _request = c.request();
    let cost = whole_cost(c, tree);
    cost < plan.cost || cost == plan.cost && before(tree, &plan.tree)
}

/// The tree and its cost.
fn with_cost(alloc: Global, tree: &Tree, cost: u64) -> Result<String, Fail> {
    Ok(format!(in alloc; "{tree} {cost}")?)
}

/// Whether the tree and its cost are the plan's.
fn is_plan(alloc: Global, plan: &Plan, tree: &Tree, cost: u64) -> Result<bool, Fail> {
    let chosen = with_cost(alloc, &plan.tree, plan.cost)?;
    Ok(with_cost(alloc, tree, cost)?.as_str() == chosen.as_str())
}

/// Whether the plan is among these trees, with its cost.
fn is_among(alloc: Global, c: &Ctx, plan: &Plan, trees: &[Tree]) -> Result<bool, Fail> {
    for tree in trees {
        if admissible(c, tree) && is_plan(alloc, plan, tree, whole_cost(c, tree))? {
            return Ok(true);
        }
    }
    Ok(false)
}

/// Whether one of these trees is better than the plan.
fn is_beaten(c: &Ctx, plan: &Plan, trees: &[Tree]) -> bool
    requires { IsWholeTree c.now (breakdown_of plan.now.tree) }
{
    for tree in trees {
        if admissible(c, tree) && is_better(c, tree, plan) {
            return true;
        }
    }
    false
}

/// Whether the plan is the first of the cheapest of these trees.
fn is_first_and_cheapest(alloc: Global, c: &Ctx, trees: &[Tree]) -> Result<bool, Fail> {
    match best(alloc, c, u64::MAX) {
        Ok(plan) => Ok(!is_beaten(c, &plan, trees) && is_among(alloc, c, &plan, trees)?),
        Err(PlanError::NoDivide) => Ok(!trees.iter().any(|tree| admissible(c, tree))),
        Err(_) => Err(Fail::from("a plan")),
    }
}

/// What may come after a request: other processors and lanes, and other limits.
const OPTIONS: [&str; 10] = [
    "",
    " unroll 2",
    " unroll 64 weight 1000",
    " weight 5",
    " procs 2",
    " procs 3 weight 2",
    " procs 2 line 2 unroll 2",
    " line 2 lanes 2",
    " line 3 lanes 3",
    " procs 2 line 2 lanes 2",
];

const SIZES: [u64; 20] = [
    1, 2, 3, 4, 5, 6, 7, 8, 9, 10, 11, 12, 14, 15, 16, 18, 20, 24, 30, 36,
];

// Requests of this size. 38 is a generator modulo the prime 55441, and 55440 = 16 * 9 * 5 * 7 * 11.
fn small_requests(alloc: Global, size: u64) -> Result<String, Fail> {
    let modulus = Modulus::new(55441).ok_or("a modulus")?;
    if size == 0 {
        Err("a size")?
    }
    let root = modulus.pow(38, 55440 / size);
    let mut lines = format!(in alloc; "dft {size} mod 55441 root {root}\n")?;
    for rest in [
        "2 root 1",
        "15 root 1",
        "15 root 4",
        "10 root 9",
        "17 root 2",
    ] {
        write!(lines, "dft {size} mod {rest}\n")?;
    }
    if size.is_power_of_two() {
        write!(lines, "wht {size} mod 5\n")?;
    }
    Ok(lines)
}

// Every tree of these sizes, against the plan.
fn agrees(alloc: Global, line: &str, trees: &[Tree]) -> Result<bool, Fail> {
    match valid_context(&request(line)?) {
        Some(c) => is_first_and_cheapest(alloc, &c, trees),
        None => Ok(true),
    }
}

fn variants_agree(rt: &impl Abort, alloc: Global, line: &str, trees: &[Tree]) -> Result<(), Fail> {
    for options in OPTIONS {
        let variant = format!(in alloc; "{line}{options}")?;
        same_in(rt, agrees(alloc, &variant, trees)?, true, variant.as_str());
    }
    Ok(())
}

fn lines_agree(rt: &impl Abort, alloc: Global, size: u64) -> Result<(), Fail> {
    let trees = every_tree(alloc, size)?;
    for line in small_requests(alloc, size)?.lines() {
        variants_agree(rt, alloc, line, &trees)?;
    }
    Ok(())
}

#[test]
fn every_small_tree(rt: HostRuntime) -> Result<(), Fail> {
    for size in SIZES {
        lines_agree(&rt, rt.alloc(), size)?;
    }
    Ok(())
}

// The sizes of inverses and of several dimensions, multiplied, and their requests.
const WHOLE: &str = "\
1|idft 1 mod 2 root 1
4|idft 4 mod 17 root 4
6|idft 6 mod 7 root 3
12|idft 12 mod 13 root 2
16|idft 16 mod 17 root 3
4|dft 2x2 mod 17 root 16x16
6|dft 2x3 mod 7 root 6x2
6|dft 3x2 mod 7 root 2x6
8|dft 4x2 mod 17 root 4x16
8|dft 2x2x2 mod 15 root 4x11x14
12|dft 3x4 mod 13 root 3x5
12|dft 2x2x3 mod 13 root 12x1x9
16|dft 4x4 mod 17 root 4x13
16|dft 8x2 mod 17 root 2x16
16|dft 2x2x4 mod 17 root 16x1x13
16|dft 2x2x2x2 mod 15 root 4x11x14x1
24|dft 6x4 mod 13 root 4x5
36|dft 6x6 mod 7 root 3x5
";

fn row_agrees(rt: &impl Abort, alloc: Global, row: &str) -> Result<(), Fail> {
    let (size, line) = row.split_once('|').ok_or("a size")?;
    context(line)?;
    variants_agree(rt, alloc, line, &every_tree(alloc, number(size)?)?)
}

#[test]
fn every_small_tree_of_whole_requests(rt: HostRuntime) -> Result<(), Fail> {
    for row in WHOLE.lines() {
        row_agrees(&rt, rt.alloc(), row)?;
    }
    Ok(())
}

// A tree's text, by hand.
#[test]
fn text_of_a_tree(rt: HostRuntime) -> Result<(), Fail> {
    let alloc = rt.alloc();
    let six = node(alloc, "gt", Tree::Leaf(2), Tree::Leaf(3))?;
    let sixty = node(alloc, "ct", six, Tree::Leaf(10))?;
    let tree = node(alloc, "dim", sixty, Tree::Leaf(4))?;
    let text = format!(in alloc; "{tree}")?;
    let wanted = "dim(ct(gt(leaf(2),leaf(3)),leaf(10)),leaf(4))";
    same(&rt, text.as_str(), wanted);
    Ok(())
}
