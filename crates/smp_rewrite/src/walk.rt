// The steps of a tree, by a walk over its formula.
ghost use Rattle.std.specs.Prelude.{◌≡◌, ◌∷◌, ◌++◌, [], IfOk, OnOk, map};
ghost use Rattle.sigma_spl.specs.Views.{plain_work};
ghost use Rattle.smp_rewrite.specs.Appends.{Appends};
ghost use Rattle.smp_rewrite.specs.Walk.{is_piece, left_part, left_request, node_steps, right_part, right_request, tree_steps};
ghost use Rattle.smp_rewrite.specs.Layout.Tree.{node_work};
ghost use Rattle.kernel_gen.specs.Nodes.{IsNodeTree};
ghost use Rattle.smp_rewrite.specs.Layout.Step.{step};
ghost use Rattle.smp_rewrite.specs.Layout.Views.{plain_core, plain_step};
ghost use Rattle.tree_model.specs.Breakdown.{breakdown_of, HasWordSizes};

use crate::layout::{Core, Step};
use matrix_meaning::Kind;
use memory::NoMemory;
use operators::Tensor;
use sigma_spl::Work;
use spl_ast::{Node, Spl};
use std::alloc::Global;
use tree_model::{Ctx, Tree, is_kernel, node_root};

/// The steps of a tree, in the order in which they are applied.
pub(crate) fn steps_by(
    alloc: Global,
    p: &Ctx,
    tree: &Tree,
    formula: &Spl,
) -> Result<Vec<Step>, NoMemory>
    requires { IsNodeTree p.now (breakdown_of tree.now) }
    ensures { IfOk result (λ steps. map plain_step steps.items
        ≡ tree_steps p.now [] (breakdown_of tree.now) formula.now) }
{
    let mut steps = Vec::new(alloc);
    add_tree(alloc, p, &mut steps, &[], tree, formula)?;
    Ok(steps)
}

// Appends the steps of a tree under the tensors of the path: one piece, or those of its node.
#[cycle(walk)]
fn add_tree(
    alloc: Global,
    p: &Ctx,
    steps: &mut Vec<Step>,
    path: &[Tensor],
    tree: &Tree,
    formula: &Spl,
) -> Result<(), NoMemory>
    requires { IsNodeTree p.now (breakdown_of tree.now) }
    ensures { OnOk result (Appends steps.old steps.new
        (tree_steps p.now path.now (breakdown_of tree.now) formula.now)) }
{
    if is_piece(p, tree) {
        let work = node_work(alloc, p, tree)?;
        return put(alloc, steps, path, Core::Piece(work));
    }
    add_node(alloc, p, steps, path, tree, formula)
}

// Appends the steps of a node's formula. That of a tree has no others.
#[cycle(walk)]
fn add_node(
    alloc: Global,
    p: &Ctx,
    steps: &mut Vec<Step>,
    path: &[Tensor],
    tree: &Tree,
    formula: &Spl,
) -> Result<(), NoMemory>
    requires { IsNodeTree p.now (breakdown_of tree.now) }
    ensures { OnOk result (Appends steps.old steps.new
        (node_steps p.now path.now (breakdown_of tree.now) formula.now)) }
{
    match &formula.node {
        Node::Compose(a, b) => {
            add_node(alloc, p, steps, path, tree, b)?;
            add_node(alloc, p, steps, path, tree, a)
        }
        Node::TensorLeft(a, k) => {
            let request = left_request(p, tree);
            let path = longer(alloc, path, Tensor::Columns(*k))?;
            add_tree(alloc, &request, steps, &path, left_part(tree), a)
        }
        Node::TensorRight(k, a) => {
            let request = right_request(p, tree);
            let path = longer(alloc, path, Tensor::Blocks(*k))?;
            add_tree(alloc, &request, steps, &path, right_part(tree), a)
        }
        Node::L(n, r) => {
            let (rows, cols) = (*r, n / r);
            put(alloc, steps, path, Core::Turns { rows, cols })
        }
        Node::Twiddle(n, s, root) => {
            let (rows, cols, root) = (n / s, *s, *root);
            put(alloc, steps, path, Core::Twiddles { rows, cols, root })
        }
        Node::GtIn(rows, cols) => {
            let (rows, cols) = (*rows, *cols);
            put(alloc, steps, path, Core::ThomasIn { rows, cols })
        }
        Node::GtOut(rows, cols) => {
            let (rows, cols) = (*rows, *cols);
            put(alloc, steps, path, Core::ThomasOut { rows, cols })
        }
        Node::I(_) => Ok(()),
        Node::Dft(_, _) => Ok(()),
        Node::Wht(_) => Ok(()),
        Node::Diag(_) => Ok(()),
        Node::Perm(_) => Ok(()),
        Node::DirectSum(_, _) => Ok(()),
        Node::Todo(_) => Ok(()),
    }
}

// Whether a tree is one piece: a leaf or a kernel.
fn is_piece(p: &Ctx, tree: &Tree) -> bool
    requires { HasWordSizes (breakdown_of tree.now) }
    ensures { result ≡ is_piece p.now (breakdown_of tree.now) }
{
    match tree {
        Tree::Leaf(_) => true,
        Tree::Gt(a, b) => is_kernel(p, a.size() * b.size()),
        Tree::Ct(a, b) => is_kernel(p, a.size() * b.size()),
        Tree::Split(a, b) => is_kernel(p, a.size() * b.size()),
        Tree::Dim(a, b) => is_kernel(p, a.size() * b.size()),
    }
}

// The work of a node: a longer leaf goes row by row.
fn node_work(alloc: Global, p: &Ctx, tree: &Tree) -> Result<Work, NoMemory>
    requires { IsNodeTree p.now (breakdown_of tree.now) }
    ensures { IfOk result (λ work. plain_work work ≡ node_work p.now (breakdown_of tree.now)) }
{
    let size = tree.size();
    if !is_kernel(p, size) && p.request().kind == Kind::Dft {
        let root = node_root(p, size);
        return Ok(Work::Dense { root, size });
    }
    let tree = tree.copied(alloc)?;
    Ok(Work::Kernel { ctx: *p, tree })
}

// The left part of a node; a leaf has none.
fn left_part(tree: &Tree) -> &Tree
    ensures { breakdown_of result.now ≡ left_part (breakdown_of tree.now) }
{
    match tree {
        Tree::Leaf(_) => tree,
        Tree::Gt(a, _) => a,
        Tree::Ct(a, _) => a,
        Tree::Split(a, _) => a,
        Tree::Dim(a, _) => a,
    }
}

// The right part.
fn right_part(tree: &Tree) -> &Tree
    ensures { breakdown_of result.now ≡ right_part (breakdown_of tree.now) }
{
    match tree {
        Tree::Leaf(_) => tree,
        Tree::Gt(_, b) => b,
        Tree::Ct(_, b) => b,
        Tree::Split(_, b) => b,
        Tree::Dim(_, b) => b,
    }
}

// The request that the left part is of: at a dim that for the first dimension.
fn left_request(p: &Ctx, tree: &Tree) -> Ctx
    requires { IsNodeTree p.now (breakdown_of tree.now) }
    ensures { result ≡ left_request p.now (breakdown_of tree.now) }
{
    match tree {
        Tree::Leaf(_) => *p,
        Tree::Gt(_, _) => *p,
        Tree::Ct(_, _) => *p,
        Tree::Split(_, _) => *p,
        Tree::Dim(_, _) => {
            let Some((first, _)) = p.parts() else {
                unreachable!()
            };
            first
        }
    }
}

// The request that the right part is of: at a dim that for the others.
fn right_request(p: &Ctx, tree: &Tree) -> Ctx
    requires { IsNodeTree p.now (breakdown_of tree.now) }
    ensures { result ≡ right_request p.now (breakdown_of tree.now) }
{
    match tree {
        Tree::Leaf(_) => *p,
        Tree::Gt(_, _) => *p,
        Tree::Ct(_, _) => *p,
        Tree::Split(_, _) => *p,
        Tree::Dim(_, _) => {
            let Some((_, others)) = p.parts() else {
                unreachable!()
            };
            others
        }
    }
}

fn put(alloc: Global, steps: &mut Vec<Step>, path: &[Tensor], core: Core) -> Result<(), NoMemory>
    ensures { OnOk result (Appends steps.old steps.new (step path.now (plain_core core) ∷ [])) }
{
    let path = path.to_vec(alloc)?;
    steps.push(Step { path, core })?;
    Ok(())
}

fn longer(alloc: Global, path: &[Tensor], tensor: Tensor) -> Result<Vec<Tensor>, NoMemory>
    ensures { IfOk result (λ longer. longer.items ≡ path.now ++ tensor ∷ []) }
{
    let mut longer = path.to_vec(alloc)?;
    longer.push(tensor)?;
    Ok(longer)
}
