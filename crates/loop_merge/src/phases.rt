// The terms of each phase, merged.
ghost use Rattle.std.specs.Prelude.{◌≡◌, ℕ, ◌^◌, ◌<◌, ◌≤◌, IfOk, map};
ghost use Rattle.matrix_meaning.specs.declared.Request.{Request};
ghost use Rattle.sigma_spl.specs.Formula.{Formula, size_of};
ghost use Rattle.sigma_spl.specs.Formulas.{IsFormulaSigma};
ghost use Rattle.sigma_spl.specs.Shared.Machine.{plain_machine};
ghost use Rattle.sigma_spl.specs.Shared.Ready.{IsReady};
ghost use Rattle.sigma_spl.specs.Sigma.{AllCanMerge, ArePhases, IsGoodSigma, merged_of, passes_in_order};
ghost use Rattle.sigma_spl.specs.Trees.{IsMergedTree, IsTreeSigma};
ghost use Rattle.sigma_spl.specs.Views.{plain_merged, plain_sigma, plain_term};
ghost use Rattle.loop_merge.specs.Merges.{CostsAlike, MeansAlike};
ghost use Rattle.loop_merge.specs.Views.{plain_phases};
ghost use Rattle.tree_model.specs.Breakdown.{Breakdown};

use crate::merge_term;
use memory::NoMemory;
use sigma_spl::{Merged, Nest, Sigma, Term};
use std::alloc::Global;

/// The passes of terms in phases, within the limits of programs (Franchetti et al., 2005). They do what the terms do, in
/// their operations, and each stores each word once. Those of a tree's terms are what the cost model counts, with no pass
/// for a permutation or a diagonal alone, and a program can be made of them. So it can of those of a formula's term.
pub fn merge(alloc: Global, sigma: Sigma) -> Result<Merged, NoMemory>
    requires { IsGoodSigma (plain_sigma sigma) }
    ensures merged { IfOk result (λ g. plain_merged g ≡ merged_of (plain_sigma sigma)) }
    ensures meaning { IfOk result (λ g. MeansAlike (plain_sigma sigma) (plain_merged g)) }
    ensures operations { IfOk result (λ g. CostsAlike (plain_sigma sigma) (plain_merged g)) }
    ensures once { IfOk result (λ g. ArePhases g.lanes g.size (plain_merged g).phases) }
    ensures tree { IfOk result (λ g. (c : Request) (t : Breakdown)
        → IsTreeSigma c t (plain_sigma sigma) → IsMergedTree c t (plain_merged g)) }
    ensures formula { IfOk result (λ g. (m : ℕ) (f : Formula)
        → IsFormulaSigma m f (plain_sigma sigma)
        → IsReady (plain_machine (size_of f) m) (plain_merged g)) }
{
    let Sigma {
        size,
        procs,
        lanes,
        phases,
    } = sigma;
    let phases = merged_terms(alloc, size, phases)?;
    Ok(Merged {
        size,
        procs,
        lanes,
        phases,
    })
}

// The passes of each term, in order.
fn merged_terms(alloc: Global, size: u64, terms: Vec<Term>) -> Result<Vec<Vec<Vec<Nest>>>, NoMemory>
    requires size { (0 < size) × (size ≤ 2 ^ 20) }
    requires terms { (lanes : ℕ) × AllCanMerge lanes size (map plain_term terms.items) }
    ensures { IfOk result (λ phases.
        plain_phases phases.items ≡ map (passes_in_order size) (map plain_term terms.items)) }
{
    let mut phases = Vec::with_capacity(alloc, terms.len())?;
    for term in terms {
        phases.push(merge_term(alloc, size, term)?)?;
    }
    Ok(phases)
}
