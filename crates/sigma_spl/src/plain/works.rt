// What loops do to a copy.
ghost use Rattle.std.specs.Prelude.{◌≡◌, ◌*◌, ◌≤◌, IfOk};
ghost use Rattle.sigma_spl.specs.Views.{plain_work};
ghost use Rattle.sigma_spl.specs.Work.{HasWords, work_on, work_size};
ghost use Rattle.sigma_spl.specs.Plain.Copies.{alone, trees_columns, trees_rows};
ghost use Rattle.tree_model.specs.Breakdown.{breakdown_of, size_of, HasWordSizes};
ghost use Rattle.tree_model.specs.Trees.{trees_on, trees_size};
ghost use Rattle.tree_model.specs.Whole.{rooted_of, rooted_one};
ghost use Rattle.spl_ast.specs.Meaning.{IsVector};
ghost use Rattle.spl_ast.specs.Shape.{IsSize};

use crate::Work;
use matrix_meaning::Kind;
use memory::NoMemory;
use ring_mod::Modulus;
use spl_ast::{transformed, turned};
use std::alloc::Global;
use tree_model::{Ctx, Tree, node_root};

/// A transform of one size by its root.
#[derive(Clone, Copy)]
pub(crate) struct Alone {
    pub(crate) kind: Kind,
    pub(crate) root: u64,
    pub(crate) size: u64,
}

/// The work on the items of a copy.
#[tactic(auto, using(crate::proofs::PlainLemmas::Copies::copied))]
pub(crate) fn worked(
    alloc: Global,
    m: &Modulus,
    work: &Work,
    x: &[u64],
) -> Result<Vec<u64>, NoMemory>
    requires words { HasWords (plain_work work.now) }
    requires size { IsSize (work_size (plain_work work.now)) }
    requires vector { IsVector m.now (work_size (plain_work work.now)) x.now }
    ensures { IfOk result (λ y. y.items ≡ work_on m.now (plain_work work.now) x.now) }
{
    match work {
        Work::Kernel { ctx, tree } => node_times(alloc, m, ctx, tree, x),
        Work::Short { kind, root, size } => transformed(alloc, m, *kind, *size, *root, x),
        Work::Dense { root, size } | Work::Horner { root, size } => {
            transformed(alloc, m, Kind::Dft, *size, *root, x)
        }
        Work::Tile { lanes } => turned(alloc, *lanes, *lanes, x),
        Work::Copy { .. } => Ok(Vec::from_slice(alloc, x)?),
    }
}

// The transform of a node: of several dimensions the others on each row, and then the first on each column.
#[cycle(node)]
fn node_times(
    alloc: Global,
    m: &Modulus,
    p: &Ctx,
    tree: &Tree,
    x: &[u64],
) -> Result<Vec<u64>, NoMemory>
    requires words { HasWordSizes (breakdown_of tree.now) }
    requires size { IsSize (size_of (breakdown_of tree.now)) }
    requires vector { IsVector m.now (size_of (breakdown_of tree.now)) x.now }
    ensures { IfOk result (λ y.
        y.items ≡ trees_on m.now (rooted_of p.now (breakdown_of tree.now)) x.now) }
{
    match tree {
        Tree::Leaf(_) => one_times(alloc, m, p, tree, x),
        Tree::Gt(_, _) => one_times(alloc, m, p, tree, x),
        Tree::Ct(_, _) => one_times(alloc, m, p, tree, x),
        Tree::Split(_, _) => one_times(alloc, m, p, tree, x),
        Tree::Dim(a, b) => {
            let (first, others) = p.first_and_rest();
            let one = Alone {
                kind: Kind::Dft,
                root: first.request().root,
                size: a.size(),
            };
            let rows = on_rows(alloc, m, one.size, &others, b, x)?;
            let y = on_each_column(alloc, m, &one, b.size(), &rows)?;
            Ok(y)
        }
    }
}

// The transform of a node of one size.
fn one_times(
    alloc: Global,
    m: &Modulus,
    p: &Ctx,
    tree: &Tree,
    x: &[u64],
) -> Result<Vec<u64>, NoMemory>
    requires words { HasWordSizes (breakdown_of tree.now) }
    requires some { 1 ≤ size_of (breakdown_of tree.now) }
    requires vector { IsVector m.now (size_of (breakdown_of tree.now)) x.now }
    ensures { IfOk result (λ y.
        y.items ≡ trees_on m.now (rooted_one p.now (breakdown_of tree.now)) x.now) }
{
    let size = tree.size();
    let root = node_root(p, size);
    transformed(alloc, m, p.request().kind, size, root, x)
}

fn alone_times(alloc: Global, m: &Modulus, tree: &Alone, x: &[u64]) -> Result<Vec<u64>, NoMemory>
    requires vector { IsVector m.now (trees_size (alone tree.now)) x.now }
    ensures { IfOk result (λ y. y.items ≡ trees_on m.now (alone tree.now) x.now) }
{
    transformed(alloc, m, tree.kind, tree.size, tree.root, x)
}

// The transform of a node on each of `count` rows.
#[cycle(node)]
fn on_rows(
    alloc: Global,
    m: &Modulus,
    count: u64,
    p: &Ctx,
    tree: &Tree,
    x: &[u64],
) -> Result<Vec<u64>, NoMemory>
    requires words { HasWordSizes (breakdown_of tree.now) }
    requires size { IsSize (count * size_of (breakdown_of tree.now)) }
    requires vector { IsVector m.now (count * size_of (breakdown_of tree.now)) x.now }
    ensures { IfOk result (λ y.
        y.items ≡ trees_rows m.now count (rooted_of p.now (breakdown_of tree.now)) x.now) }
{
    let size = tree.size();
    let mut out = Vec::new(alloc);
    for i in 0..count {
        let from = (i * size) as usize;
        let part = node_times(alloc, m, p, tree, &x[from..from + size as usize])?;
        out.extend_from_slice(&part)?;
    }
    Ok(out)
}

// The transform on each of `count` columns: on rows, between two turns.
fn on_each_column(
    alloc: Global,
    m: &Modulus,
    tree: &Alone,
    count: u64,
    x: &[u64],
) -> Result<Vec<u64>, NoMemory>
    requires size { IsSize (trees_size (alone tree.now) * count) }
    requires vector { IsVector m.now (trees_size (alone tree.now) * count) x.now }
    ensures { IfOk result (λ y. y.items ≡ trees_columns m.now count (alone tree.now) x.now) }
{
    let size = tree.size;
    let columns = turned(alloc, count, size, x)?;
    let parts = on_each_row(alloc, m, tree, count, &columns)?;
    let y = turned(alloc, size, count, &parts)?;
    Ok(y)
}

// The transform on each of `count` rows.
fn on_each_row(
    alloc: Global,
    m: &Modulus,
    tree: &Alone,
    count: u64,
    x: &[u64],
) -> Result<Vec<u64>, NoMemory>
    requires size { IsSize (count * trees_size (alone tree.now)) }
    requires vector { IsVector m.now (count * trees_size (alone tree.now)) x.now }
    ensures { IfOk result (λ y. y.items ≡ trees_rows m.now count (alone tree.now) x.now) }
{
    let size = tree.size;
    let mut out = Vec::new(alloc);
    for i in 0..count {
        let from = (i * size) as usize;
        let part = alone_times(alloc, m, tree, &x[from..from + size as usize])?;
        out.extend_from_slice(&part)?;
    }
    Ok(out)
}
