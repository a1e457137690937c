// A tree's formulas for processors and lanes, and its terms.

ghost use Rattle.std.specs.Prelude.{◌≡◌, IfOk, List, ℕ};
ghost use Rattle.matrix_meaning.specs.Asked.{asked_of};
ghost use Rattle.spl_ast.specs.Meaning.{IsVector};
ghost use Rattle.sigma_spl.specs.Sigma.{IsGoodSigma, sigma_on};
ghost use Rattle.sigma_spl.specs.Views.{plain_sigma};
ghost use Rattle.smp_rewrite.specs.Cut.{smp_of};
ghost use Rattle.smp_rewrite.specs.Smp.{smp_on};
ghost use Rattle.smp_rewrite.specs.Views.{plain_smp};
ghost use Rattle.sigma_spl.specs.Shared.Targets.{target_of};
ghost use Rattle.smp_rewrite.specs.Layout.Whole.{whole_of};
ghost use Rattle.tree_model.specs.Breakdown.{breakdown_of};
ghost use Rattle.tree_model.specs.Chosen.{IsWholeTree};
ghost use Rattle.vec_rewrite.specs.Turning.{vec_of};
ghost use Rattle.vec_rewrite.specs.Vectors.{vec_on};
ghost use Rattle.vec_rewrite.specs.Views.{plain_vec};

use breakdown::expand;
use memory::NoMemory;
use sigma_lower::lower;
use sigma_spl::Sigma;
use smp_rewrite::{SmpSpl, to_smp};
use std::alloc::Global;
use tree_model::{Ctx, Tree};
use vec_rewrite::{VecSpl, to_vec};

/// The formula for processors.
pub(crate) fn blocks_of(alloc: Global, c: &Ctx, tree: &Tree) -> Result<SmpSpl, NoMemory>
    requires { IsWholeTree c.now (breakdown_of tree.now) }
    ensures form { IfOk result (λ f.
        plain_smp f ≡ smp_of (target_of c.now) (whole_of c.now (breakdown_of tree.now))) }
    ensures meaning { IfOk result (λ f.
        (x : List ℕ) → smp_on c.now.modulus (plain_smp f) x ≡ asked_of c.now x) }
{
    let formula = expand(alloc, c, tree)?;
    let blocks = to_smp(alloc, c, tree, formula)?;
    Ok(blocks)
}

/// The formula for lanes.
pub(crate) fn lanes_of(alloc: Global, c: &Ctx, tree: &Tree) -> Result<VecSpl, NoMemory>
    requires { IsWholeTree c.now (breakdown_of tree.now) }
    ensures form { IfOk result (λ g. plain_vec g
        ≡ vec_of (smp_of (target_of c.now) (whole_of c.now (breakdown_of tree.now)))) }
    ensures meaning { IfOk result (λ g.
        (x : List ℕ) → vec_on c.now.modulus (plain_vec g) x ≡ asked_of c.now x) }
{
    let _request = c.request();
    let blocks = blocks_of(alloc, c, tree)?;
    let lanes = to_vec(alloc, c, blocks)?;
    Ok(lanes)
}

/// The terms of each phase.
pub(crate) fn terms_of(alloc: Global, c: &Ctx, tree: &Tree) -> Result<Sigma, NoMemory>
    requires { IsWholeTree c.now (breakdown_of tree.now) }
    ensures size { IfOk result (λ g. g.size ≡ c.now.size) }
    ensures good { IfOk result (λ g. IsGoodSigma (plain_sigma g)) }
    ensures meaning { IfOk result (λ g. (x : List ℕ) → IsVector c.now.modulus c.now.size x →
        sigma_on c.now.modulus (plain_sigma g) x ≡ asked_of c.now x) }
{
    let _request = c.request();
    let lanes = lanes_of(alloc, c, tree)?;
    let terms = lower(alloc, c, lanes)?;
    Ok(terms)
}
