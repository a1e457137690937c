// The terms of a tree's formula for processors and lanes.
ghost use Rattle.std.specs.Prelude.{◌≡◌, ◌*◌, ◌^◌, ◌<◌, All, IfOk, List, map, ℕ};
ghost use Rattle.sigma_lower.specs.Merged.{closed_phases, closing_term, phase_costs, sigma_of};
ghost use Rattle.sigma_lower.specs.Room.{IsRoomy, IsRoomyCore};
ghost use Rattle.sigma_lower.specs.Shared.{embed, factors_before, phase_term};
ghost use Rattle.index_fn.specs.Index.{mapping_of};
ghost use Rattle.spl_ast.specs.Meaning.{IsVector};
ghost use Rattle.sigma_spl.specs.Room.{HasRoom};
ghost use Rattle.sigma_spl.specs.Sigma.{IsGoodSigma, sigma_on};
ghost use Rattle.sigma_spl.specs.Term.{gath, scat};
ghost use Rattle.sigma_spl.specs.Trees.{IsTreeSigma};
ghost use Rattle.sigma_spl.specs.Views.{plain_sigma, plain_term};
ghost use Rattle.vec_rewrite.specs.Laws.{IsVecOfTree};
ghost use Rattle.vec_rewrite.specs.Laws.{IsVecOf};
ghost use Rattle.sigma_lower.specs.TreeTerms.Term.{after_core, factor_term, lowered_core, terms_in};
ghost use Rattle.sigma_lower.specs.TreeTerms.Wrapped.{wrapped};
ghost use Rattle.sigma_spl.specs.Shared.Targets.{target_of};
ghost use Rattle.smp_rewrite.specs.Layout.Views.{plain_core};
ghost use Rattle.tree_model.specs.Breakdown.{Breakdown};
ghost use Rattle.vec_rewrite.specs.Vectors.{factor_step, vec_on, vec_shares};
ghost use Rattle.vec_rewrite.specs.Views.{plain_vec, plain_vec_factor};

use crate::formula::{gather, in_turn};
use crate::tree_terms::under;
use index_fn::{Index, unit};
use memory::NoMemory;
use operators::Tensor;
use sigma_spl::{Factors, Sigma, Term, Work};
use smp_rewrite::{Core, within};
use std::alloc::Global;
use tree_model::Ctx;
use vec_rewrite::{VecFactor, VecSpl};

/// The terms of each phase of a formula for processors and lanes.
pub fn lower(alloc: Global, c: &Ctx, vectors: VecSpl) -> Result<Sigma, NoMemory>
    requires { IsVecOf (target_of c.now) (plain_vec vectors) }
    ensures form { IfOk result (λ g. plain_sigma g ≡ sigma_of (plain_vec vectors)) }
    ensures meaning { IfOk result (λ g. (x : List ℕ) → IsVector c.now.modulus c.now.size x →
        sigma_on c.now.modulus (plain_sigma g) x
        ≡ vec_on c.now.modulus (plain_vec vectors) x) }
    ensures good { IfOk result (λ g. IsGoodSigma (plain_sigma g)) }
    ensures operations { IfOk result (λ g.
        phase_costs c.now.weight c.now.modulus (plain_sigma g)
        ≡ map (λ k. c.now.procs * k)
        (vec_shares c.now.weight c.now.modulus (plain_vec vectors))) }
    ensures tree { IfOk result (λ g. (t : Breakdown) → IsVecOfTree c.now t (plain_vec vectors) →
        IsTreeSigma c.now t (plain_sigma g)) }
{
    // For the proof: the request is valid.
    let _request = c.request();
    let target = vectors.target;
    let closing = vectors.closing;
    let made = phases(alloc, vectors)?;
    let phases = closed_phases(alloc, target.size, closing, made)?;
    Ok(Sigma {
        size: target.size,
        procs: target.procs,
        lanes: target.lanes,
        phases,
    })
}

// One processor has one phase, several have one for each part of the root.
fn phases(alloc: Global, vectors: VecSpl) -> Result<Vec<Term>, NoMemory>
    requires first { All (λ f.
        IsRoomy (factor_step vectors.target.procs vectors.target.lanes (plain_vec_factor f)))
        vectors.first.items }
    requires second { All (λ f.
        IsRoomy (factor_step vectors.target.procs vectors.target.lanes (plain_vec_factor f)))
        vectors.second.items }
    ensures { IfOk result (λ ts.
        map plain_term ts.items ≡ map phase_term (terms_in (plain_vec vectors))) }
{
    let VecSpl {
        target,
        first,
        second,
        closing: _,
    } = vectors;
    let (procs, lanes) = (target.procs, target.lanes);
    let mut phases = Vec::new(alloc);
    let left = factors_before(alloc, procs, lanes, second, Term::Same)?;
    if procs == 1 {
        let all = factors_before(alloc, procs, lanes, first, left)?;
        phases.push(all)?;
        return Ok(phases);
    }
    let right = factors_before(alloc, procs, lanes, first, Term::Same)?;
    phases.push(right)?;
    phases.push(left)?;
    Ok(phases)
}

// The phases, where each word is multiplied by the factor of an inverse after the last one.
fn closed_phases(
    alloc: Global,
    size: u64,
    closing: Option<u64>,
    phases: Vec<Term>,
) -> Result<Vec<Term>, NoMemory>
    ensures { IfOk result (λ ts.
        map plain_term ts.items ≡ closed_phases size closing (map plain_term phases.items)) }
{
    let Some(value) = closing else {
        return Ok(phases);
    };
    let mut phases = phases;
    match phases.pop() {
        None => Ok(phases),
        Some(last) => {
            let products = closing_term(alloc, size, value)?;
            let closed = in_turn(alloc, last, products)?;
            phases.push(closed)?;
            Ok(phases)
        }
    }
}

// Each of `size` words times this value.
fn closing_term(alloc: Global, size: u64, value: u64) -> Result<Term, NoMemory>
    ensures { IfOk result (λ t. plain_term t ≡ closing_term size value) }
{
    let path = within(Tensor::Blocks(size), Vec::new(alloc))?;
    let factors = Factors::Repeated { value, count: 1 };
    Ok(Term::DiagAt { path, factors })
}

// The product of the terms of factors, the first of which is applied first, and then of this term.
fn factors_before(
    alloc: Global,
    procs: u64,
    lanes: u64,
    factors: Vec<VecFactor>,
    after: Term,
) -> Result<Term, NoMemory>
    requires { All (λ f. IsRoomy (factor_step procs lanes (plain_vec_factor f))) factors.items }
    ensures { IfOk result (λ t.
        plain_term t
        ≡ factors_before procs lanes (map plain_vec_factor factors.items)
        (plain_term after)) }
{
    let mut factors = factors;
    factors.reverse();
    let mut product = after;
    for factor in factors {
        let term = factor_term(alloc, procs, lanes, factor)?;
        product = in_turn(alloc, term, product)?;
    }
    Ok(product)
}

// The term of a factor.
fn factor_term(alloc: Global, procs: u64, lanes: u64, factor: VecFactor) -> Result<Term, NoMemory>
    requires { IsRoomy (factor_step procs lanes (plain_vec_factor factor)) }
    ensures { IfOk result (λ t.
        plain_term t ≡ embed (factor_term procs lanes (plain_vec_factor factor))) }
{
    match factor {
        VecFactor::Lanes(step) => {
            let block = within(Tensor::Columns(lanes), step.path)?;
            let path = within(Tensor::Blocks(procs), block)?;
            core_term(alloc, path, step.core)
        }
        VecFactor::Diagonals(step) => core_term(alloc, step.path, step.core),
        VecFactor::MoveBefore(step) => {
            let path = within(Tensor::Columns(lanes), step.path)?;
            core_term(alloc, path, step.core)
        }
        VecFactor::MoveAfter(step) => {
            let path = within(Tensor::Columns(lanes), step.path)?;
            after_term(alloc, path, step.core)
        }
        VecFactor::Tiles(path) => {
            let path = within(Tensor::Blocks(procs), path)?;
            let work = Work::Tile { lanes };
            Ok(Term::Sum { path, work })
        }
    }
}

// The term of a step, where a stride permutation goes into what comes before it.
fn after_term(alloc: Global, path: Vec<Tensor>, core: Core) -> Result<Term, NoMemory>
    requires { IsRoomyCore path.items (plain_core core) }
    ensures { IfOk result (λ t.
        plain_term t ≡ embed (after_core path.items (plain_core core))) }
{
    match core {
        Core::Turns { rows, cols } => {
            let back = Index::StridePermutation(cols, rows);
            scatter(alloc, &path, rows * cols, back)
        }
        _ => core_term(alloc, path, core),
    }
}

// The term of a step.
fn core_term(alloc: Global, path: Vec<Tensor>, core: Core) -> Result<Term, NoMemory>
    requires { IsRoomyCore path.items (plain_core core) }
    ensures { IfOk result (λ t.
        plain_term t ≡ embed (lowered_core path.items (plain_core core))) }
{
    match core {
        Core::Piece(work) => Ok(Term::Sum { path, work }),
        Core::Turns { rows, cols } => {
            let turns = Index::StridePermutation(rows, cols);
            gather(alloc, &path, rows * cols, turns)
        }
        Core::Twiddles { rows, cols, root } => {
            let factors = Factors::Twiddles { rows, cols, root };
            Ok(Term::DiagAt { path, factors })
        }
        Core::ThomasIn { rows, cols } => {
            gather(alloc, &path, rows * cols, Index::ThomasIn(rows, cols))
        }
        Core::ThomasOut { rows, cols } => {
            let e = unit(rows, cols);
            let g = unit(cols, rows);
            let back = Index::ThomasBack(rows, cols, e, g);
            scatter(alloc, &path, rows * cols, back)
        }
    }
}

// The permutation of size `n` under the tensors of the path, by where it takes each item.
fn scatter(alloc: Global, path: &[Tensor], n: u64, f: Index) -> Result<Term, NoMemory>
    requires { HasRoom path.now n }
    ensures { IfOk result (λ t. plain_term t ≡ scat (wrapped path.now n (mapping_of f))) }
{
    let places = under(alloc, path, n, f)?;
    Ok(Term::Scat(places))
}
