// From a tree to its merged passes.
ghost use Rattle.std.specs.Prelude.{◌≡◌, IfOk, List, ℕ};
ghost use Rattle.matrix_meaning.specs.Asked.{asked_of};
ghost use Rattle.sigma_lower.specs.Merged.{tree_merged};
ghost use Rattle.spl_ast.specs.Meaning.{IsVector};
ghost use Rattle.sigma_spl.specs.Merged.{merged_on};
ghost use Rattle.sigma_spl.specs.Trees.{IsMergedTree};
ghost use Rattle.sigma_spl.specs.Views.{plain_merged};
ghost use Rattle.tree_model.specs.Breakdown.{breakdown_of};
ghost use Rattle.tree_model.specs.Chosen.{IsWholeTree};

use breakdown::expand;
use loop_merge::merge;
use memory::NoMemory;
use sigma_lower::lower;
use sigma_spl::Merged;
use smp_rewrite::to_smp;
use std::alloc::Global;
use tree_model::{Ctx, Tree};
use vec_rewrite::to_vec;

/// The merged passes of a request's tree. The products of tensors in its formula are cut for processors and lanes and
/// become terms, and the terms are merged. They do what the request asks for.
pub fn merge_tree(alloc: Global, c: &Ctx, tree: &Tree) -> Result<Merged, NoMemory>
    requires { IsWholeTree c.now (breakdown_of tree.now) }
    ensures merged { IfOk result (λ merged.
        plain_merged merged ≡ tree_merged c.now (breakdown_of tree.now)) }
    ensures meaning { IfOk result (λ merged. (x : List ℕ) → IsVector c.now.modulus c.now.size x
        → merged_on c.now.modulus (plain_merged merged) x ≡ asked_of c.now x) }
    ensures tree { IfOk result (λ merged.
        IsMergedTree c.now (breakdown_of tree.now) (plain_merged merged)) }
{
    // For the proof: the request is valid.
    let _request = c.request();
    let formula = expand(alloc, c, tree)?;
    let blocks = to_smp(alloc, c, tree, formula)?;
    let vectors = to_vec(alloc, c, blocks)?;
    let sigma = lower(alloc, c, vectors)?;
    let merged = merge(alloc, sigma)?;
    Ok(merged)
}
