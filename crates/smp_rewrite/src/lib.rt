//! Formulas for processors: the steps of a tree, by a walk over its formula, cut into blocks of equal size and moves of
//! whole lines (Franchetti et al., SC 2006).
#![tactic(auto)]

mod closing;
mod layout;
mod walk;

ghost use Rattle.std.specs.Prelude.{◌≡◌, ◌+◌, ◌*◌, ◌<◌, ◌≤◌, [], ◌∷◌, ◌++◌, All, IfOk, List, OnOk, drop, length, map, ℕ};
ghost use Rattle.std.specs.List.{flat_map, sum};
ghost use Rattle.breakdown.specs.Expansion.{formula_of};
ghost use Rattle.matrix_meaning.specs.Asked.{asked_of};
ghost use Rattle.spl_ast.specs.Meaning.{apply};
ghost use Rattle.sigma_spl.specs.Shared.Targets.{target_of};
ghost use Rattle.smp_rewrite.specs.Layout.Step.{step, turns};
ghost use Rattle.smp_rewrite.specs.Layout.Views.{plain_core, plain_step};
ghost use Rattle.smp_rewrite.specs.Layout.Whole.{whole_of};
ghost use Rattle.operators.specs.declared.paths.Tensor.TheVariants.{Columns};
ghost use Rattle.tree_model.specs.Breakdown.{breakdown_of};
ghost use Rattle.tree_model.specs.Chosen.{IsWholeTree, whole_cost};
ghost use Rattle.smp_rewrite.specs.Cut.{cut, closed_cut, cut_factors, factors_of, first_count, is_left, right_count, smp_of, whole_factor};
ghost use Rattle.smp_rewrite.specs.Laws.{IsGoodSmpOf, IsShaped, IsSmpOfTree, LayoutsFit, MovesLines, MovesWhole, SmpCosts, SmpShaped, SmpTransforms, step_size};
ghost use Rattle.smp_rewrite.specs.Smp.{PlainFactor, smp_on, smp_shares, within};
ghost use Rattle.smp_rewrite.specs.Views.{plain_factor, plain_smp};

use crate::closing::{body_of, closing_in};
use crate::walk::steps_by;
pub use layout::{Core, Step, layouts_do, steps_cost, steps_do, target_of, wholes_do};
use memory::NoMemory;
use operators::{Target, Tensor};
use spl_ast::Spl;
use std::alloc::Global;
use tree_model::{Ctx, Tree};

/// A factor of a formula for several processors, of which each does an equal part.
#[derive(Drop)]
pub enum Factor {
    /// A step that each processor does on a block of consecutive words of its own.
    Blocks(Step),
    /// A diagonal over all words, of which each processor has an equal part.
    Diagonals(Step),
    /// A permutation of all words that moves whole lines, for the block after it to take its words by.
    MoveBefore(Step),
    /// A permutation of all words that moves whole lines, for the block before it to store its words by.
    MoveAfter(Step),
}

/// A formula for processors: factors in the order in which they are applied.
#[derive(Drop)]
pub struct SmpSpl {
    pub target: Target,
    /// The factors of the root's right part; with one processor all of them.
    pub first: Vec<Factor>,
    /// The factors of the root's left part.
    pub second: Vec<Factor>,
    /// What each word is multiplied by at the end: the factor of an inverse.
    pub closing: Option<u64>,
}

/// The formula of a tree for the request's processors, by a walk over the tree's formula.
pub fn to_smp(alloc: Global, c: &Ctx, tree: &Tree, formula: Spl) -> Result<SmpSpl, NoMemory>
    requires tree { IsWholeTree c.now (breakdown_of tree.now) }
    requires formula { formula ≡ formula_of c.now (breakdown_of tree.now) }
    ensures form { IfOk result (λ f. plain_smp f
        ≡ smp_of (target_of c.now) (whole_of c.now (breakdown_of tree.now))) }
    ensures meaning { IfOk result (λ f. (x : List ℕ) →
        smp_on c.now.modulus (plain_smp f) x ≡ asked_of c.now x) }
    ensures formula { IfOk result (λ f. (x : List ℕ) →
        smp_on c.now.modulus (plain_smp f) x ≡ apply c.now.modulus formula x) }
    ensures operations { IfOk result
        (λ f. c.now.procs * sum (smp_shares c.now.weight c.now.modulus (plain_smp f))
        ≡ whole_cost c.now (breakdown_of tree.now)) }
    ensures shape { IfOk result (λ f. IsShaped (plain_smp f)) }
    ensures lines { IfOk result (λ f. MovesWhole (plain_smp f)) }
    ensures fits { IfOk result (λ f. IsGoodSmpOf (target_of c.now) (plain_smp f)) }
    ensures tree { IfOk result (λ f. IsSmpOfTree c.now (breakdown_of tree.now) (plain_smp f)) }
{
    // For the proof: the request is valid.
    let _request = c.request();
    let closing = closing_in(&formula);
    let steps = steps_by(alloc, &c.forward(), tree, body_of(&formula))?;
    let smp = cut_steps(alloc, c, steps, closing)?;
    Ok(smp)
}

// The formula of steps, with the factor at the end.
fn cut_steps(
    alloc: Global,
    c: &Ctx,
    steps: Vec<Step>,
    closing: Option<u64>,
) -> Result<SmpSpl, NoMemory>
    requires { All (λ s. step_size (plain_step s) ≡ c.now.size) steps.items }
    ensures { IfOk result
        (λ f. plain_smp f ≡ closed_cut (target_of c.now) (map plain_step steps.items) closing) }
{
    let request = c.request();
    let mut right = steps;
    let left = right.split_off(first_count(request.procs, &right))?;
    let first = factors_in(alloc, c, right)?;
    let second = factors_in(alloc, c, left)?;
    Ok(SmpSpl {
        target: target_of(c),
        first,
        second,
        closing,
    })
}

// How many steps the processors do before they wait for one another; one processor does all.
fn first_count(procs: u64, steps: &[Step]) -> usize
    ensures value { result ≡ first_count procs (map plain_step steps.now) }
    ensures inside { result ≤ length steps.now }
{
    if procs == 1 {
        steps.len()
    } else {
        right_count(steps)
    }
}

// How many steps come before those of the root's left part.
fn right_count(steps: &[Step]) -> usize
    ensures value { result ≡ right_count (map plain_step steps.now) }
    ensures inside { result ≤ length steps.now }
{
    let mut count = 0;
    for step in steps {
        if is_left(step) {
            return count;
        }
        count += 1;
    }
    count
}

fn is_left(step: &Step) -> bool
    ensures { result ≡ is_left (plain_step step.now).path }
{
    match step.path.split_first() {
        Some((Tensor::Columns(_), _)) => true,
        Some((Tensor::Blocks(_), _)) | None => false,
    }
}

// The factors of steps.
fn factors_in(alloc: Global, c: &Ctx, steps: Vec<Step>) -> Result<Vec<Factor>, NoMemory>
    requires { All (λ s. step_size (plain_step s) ≡ c.now.size) steps.items }
    ensures { IfOk result (λ factors. map plain_factor factors.items
        ≡ flat_map (factors_of c.now.size c.now.procs) (map plain_step steps.items)) }
{
    let mut factors = Vec::new(alloc);
    for step in steps {
        add_factors(alloc, c, &mut factors, step)?;
    }
    Ok(factors)
}

// Appends the factors of a step.
fn add_factors(
    alloc: Global,
    c: &Ctx,
    factors: &mut Vec<Factor>,
    step: Step,
) -> Result<(), NoMemory>
    requires { step_size (plain_step step) ≡ c.now.size }
    ensures { OnOk result (map plain_factor factors.new.items ≡ map plain_factor factors.old.items
        ++ factors_of c.now.size c.now.procs (plain_step step)) }
{
    let request = c.request();
    if request.procs == 1 {
        factors.push(Factor::Blocks(step))?;
        return Ok(());
    }
    add_cut(alloc, request.size, request.procs, factors, step)
}

// Appends the factors of a step on lists of `size` words.
fn add_cut(
    alloc: Global,
    size: u64,
    procs: u64,
    factors: &mut Vec<Factor>,
    step: Step,
) -> Result<(), NoMemory>
    requires procs { 0 < procs }
    requires low { 0 < size }
    requires size { step_size (plain_step step) ≡ size }
    ensures { OnOk result (map plain_factor factors.new.items ≡ map plain_factor factors.old.items
        ++ cut_factors size procs (plain_step step).path (plain_step step).core) }
{
    match (step.path.split_first(), &step.core) {
        (None, Core::Turns { rows, cols }) => {
            let width = rows / procs;
            let before = turn(alloc, width, procs, *cols)?;
            let block = turn(alloc, 1, width, *cols)?;
            factors.push(Factor::MoveBefore(before))?;
            factors.push(Factor::Blocks(block))?;
        }
        (Some((Tensor::Blocks(rows), rest)), _) => {
            let rest = rest.to_vec(alloc)?;
            let block = step_within(Tensor::Blocks(rows / procs), rest, step.core)?;
            factors.push(Factor::Blocks(block))?;
        }
        (Some((Tensor::Columns(cols), rest)), Core::Piece(_)) => {
            let (width, rows) = (cols / procs, size / cols);
            let before = turn(alloc, width, procs, rows)?;
            let rest = rest.to_vec(alloc)?;
            let block = step_within(Tensor::Columns(width), rest, step.core)?;
            let after = turn(alloc, width, rows, procs)?;
            factors.push(Factor::MoveBefore(before))?;
            factors.push(Factor::Blocks(block))?;
            factors.push(Factor::MoveAfter(after))?;
        }
        _ => factors.push(whole_factor(step))?,
    }
    Ok(())
}

// A permutation of whole lines or a diagonal, as it is.
fn whole_factor(step: Step) -> Factor
    ensures { plain_factor result ≡ whole_factor (plain_step step).path (plain_step step).core }
{
    match &step.core {
        Core::Piece(_) => Factor::Blocks(step),
        Core::Twiddles { .. } => Factor::Diagonals(step),
        Core::Turns { .. } | Core::ThomasIn { .. } => Factor::MoveBefore(step),
        Core::ThomasOut { .. } => Factor::MoveAfter(step),
    }
}

// `L(rows * cols, rows) tensor I_width`.
fn turn(alloc: Global, width: u64, rows: u64, cols: u64) -> Result<Step, NoMemory>
    ensures { IfOk result (λ s. plain_step s ≡ step (within (Columns width) []) (turns rows cols)) }
{
    step_within(
        Tensor::Columns(width),
        Vec::new(alloc),
        Core::Turns { rows, cols },
    )
}

/// A step under one more tensor, unless that has a single copy.
pub fn step_within(tensor: Tensor, path: Vec<Tensor>, core: Core) -> Result<Step, NoMemory>
    ensures { IfOk result (λ s. plain_step s ≡ step (within tensor path.items) (plain_core core)) }
{
    let path = within(tensor, path)?;
    Ok(Step { path, core })
}

/// The path with one more tensor around it, unless that has a single copy.
pub fn within(tensor: Tensor, path: Vec<Tensor>) -> Result<Vec<Tensor>, NoMemory>
    ensures { IfOk result (λ longer. longer.items ≡ within tensor path.items) }
{
    let mut longer = path;
    if tensor.count() != 1 {
        longer.insert(0, tensor)?;
    }
    Ok(longer)
}

/// The formula of a whole does what the whole does.
pub fn smp_transforms()
    ensures { SmpTransforms }
{}

/// The processors do a whole's operations in equal shares.
pub fn smp_costs()
    ensures { SmpCosts }
{}

/// Each factor of a whole's formula is blocks of equal size, a diagonal of equal parts, or a move of whole lines.
pub fn smp_shaped()
    ensures { SmpShaped }
{}

/// The layout of a tree that a request admits can be shared.
pub fn layouts_fit()
    ensures { LayoutsFit }
{}

/// A move of a formula takes what goes to a line from a line.
pub fn moves_lines()
    ensures { MovesLines }
{}
