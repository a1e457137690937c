//! Formulas for lanes: factors for processors, cut into vectors and tiles.
#![tactic(auto)]

ghost use Rattle.std.specs.Prelude.{◌≡◌, ◌+◌, ◌*◌, ◌<◌, [], ◌∷◌, ◌++◌, All, IfOk, List, None, OnOk, map, ℕ};
ghost use Rattle.operators.specs.declared.paths.Tensor.TheVariants.{Blocks};
ghost use Rattle.sigma_spl.specs.Shared.Targets.{target_of};
ghost use Rattle.smp_rewrite.specs.Smp.{smp_on, smp_shares, within};
ghost use Rattle.smp_rewrite.specs.Views.{plain_factor, plain_smp};
ghost use Rattle.smp_rewrite.specs.Layout.Step.{step, turns};
ghost use Rattle.smp_rewrite.specs.Layout.Views.{plain_core, plain_step};
ghost use Rattle.vec_rewrite.specs.Laws.{HasRows, HasRowsUnder, IsLaned, IsVecOf, IsVecOfTree, PlainSteps, VecKeeps, VecShaped};
ghost use Rattle.smp_rewrite.specs.Laws.{IsGoodSmpOf, IsSmpOf, IsSmpOfTree};
ghost use Rattle.tree_model.specs.Breakdown.{Breakdown};
ghost use Rattle.vec_rewrite.specs.Turning.{block_factors, grid_after, grouped, into_groups, kept, laned, laned_from, narrowed, order_after, parted, phase_of, settled, vec_of};
ghost use Rattle.vec_rewrite.specs.Vectors.{factor_step, vec_on, vec_shares, vec_steps};
ghost use Rattle.vec_rewrite.specs.Views.{plain_vec, plain_vec_factor};

use memory::NoMemory;
use operators::{Target, Tensor};
use smp_rewrite::{Core, Factor, SmpSpl, Step, step_within, within};
use std::alloc::Global;
use tree_model::Ctx;

/// A factor of a formula for processors and lanes.
#[derive(Drop)]
pub enum VecFactor {
    /// A step on each lane of each processor's block: in the block it is `A tensor I_v`, for v lanes.
    Lanes(Step),
    /// A diagonal over all words, of which each processor has an equal part.
    Diagonals(Step),
    /// A permutation of the vectors of all words, for the factor after it to take its words by.
    MoveBefore(Step),
    /// A permutation of the vectors of all words, for the factor before it to store its words by.
    MoveAfter(Step),
    /// The tile `L(v * v, v)` under these tensors in each processor's block.
    Tiles(Vec<Tensor>),
}

/// A formula for processors and lanes: factors in the order in which they are applied.
#[derive(Drop)]
pub struct VecSpl {
    pub target: Target,
    /// The factors of the root's right part; with one processor all of them.
    pub first: Vec<VecFactor>,
    /// The factors of the root's left part.
    pub second: Vec<VecFactor>,
    /// What each word is multiplied by at the end: the factor of an inverse.
    pub closing: Option<u64>,
}

/// The processors, how many words the block of each has, and the lanes.
#[derive(Clone, Copy)]
pub struct Deal {
    pub procs: u64,
    pub block: u64,
    pub lanes: u64,
}

/// How the rows of a block lie in groups: each has as many rows as there are lanes, side by side, and `tiles` tiles reach
/// across it.
#[derive(Clone, Copy)]
pub struct Grid {
    pub groups: u64,
    pub tiles: u64,
}

/// The formula for the request's lanes.
pub fn to_vec(alloc: Global, c: &Ctx, f: SmpSpl) -> Result<VecSpl, NoMemory>
    requires { IsSmpOf (target_of c.now) (plain_smp f) }
    ensures form { IfOk result (λ g. plain_vec g ≡ vec_of (plain_smp f)) }
    ensures meaning { IfOk result (λ g. (x : List ℕ) →
        vec_on c.now.modulus (plain_vec g) x ≡ smp_on c.now.modulus (plain_smp f) x) }
    ensures operations { IfOk result (λ g. vec_shares c.now.weight c.now.modulus (plain_vec g)
        ≡ smp_shares c.now.weight c.now.modulus (plain_smp f)) }
    ensures shape { IfOk result (λ g. IsLaned (plain_vec g)) }
    ensures fits { IfOk result (λ g. IsGoodSmpOf (target_of c.now) (plain_smp f)
        → IsVecOf (target_of c.now) (plain_vec g)) }
    ensures tree { IfOk result (λ g. (t : Breakdown) → IsSmpOfTree c.now t (plain_smp f)
        → IsVecOfTree c.now t (plain_vec g)) }
{
    let formula = lanes_of(alloc, c, f)?;
    Ok(formula)
}

// Both phases.
#[tactic(auto, using(crate::proofs::Rows::first_rows, crate::proofs::Rows::second_rows, crate::proofs::Rows::some_procs, crate::proofs::Rows::some_lanes))]
fn lanes_of(alloc: Global, c: &Ctx, f: SmpSpl) -> Result<VecSpl, NoMemory>
    requires { IsSmpOf (target_of c.now) (plain_smp f) }
    ensures { IfOk result (λ g. plain_vec g ≡ vec_of (plain_smp f)) }
{
    let (target, closing) = (f.target, f.closing);
    let deal = Deal {
        procs: target.procs,
        block: target.size / target.procs,
        lanes: target.lanes,
    };
    let first = phase(alloc, deal, f.first)?;
    let second = phase(alloc, deal, f.second)?;
    Ok(VecSpl {
        target,
        first,
        second,
        closing,
    })
}

// The factors of one phase.
fn phase(alloc: Global, d: Deal, factors: Vec<Factor>) -> Result<Vec<VecFactor>, NoMemory>
    requires lanes { 0 < d.lanes }
    requires rows { All (λ f. HasRows (plain_factor f)) factors.items }
    ensures { IfOk result
        (λ out. map plain_vec_factor out.items ≡ phase_of d (map plain_factor factors.items)) }
{
    if d.lanes == 1 {
        let same = kept_all(alloc, factors)?;
        Ok(same)
    } else {
        let cut = laned_all(alloc, d, factors)?;
        Ok(cut)
    }
}

// On one lane each factor is as it was.
fn kept_all(alloc: Global, factors: Vec<Factor>) -> Result<Vec<VecFactor>, NoMemory>
    ensures { IfOk result
        (λ out. map plain_vec_factor out.items ≡ map kept (map plain_factor factors.items)) }
{
    let mut out = Vec::new(alloc);
    for factor in factors {
        out.push(kept(factor))?;
    }
    Ok(out)
}

fn kept(factor: Factor) -> VecFactor
    ensures { plain_vec_factor result ≡ kept (plain_factor factor) }
{
    match factor {
        Factor::Blocks(step) => VecFactor::Lanes(step),
        Factor::Diagonals(step) => VecFactor::Diagonals(step),
        Factor::MoveBefore(step) => VecFactor::MoveBefore(step),
        Factor::MoveAfter(step) => VecFactor::MoveAfter(step),
    }
}

// The factors on several lanes.
fn laned_all(alloc: Global, d: Deal, factors: Vec<Factor>) -> Result<Vec<VecFactor>, NoMemory>
    requires lanes { 0 < d.lanes }
    requires rows { All (λ f. HasRows (plain_factor f)) factors.items }
    ensures { IfOk result (λ out. map plain_vec_factor out.items
        ≡ laned_from d None (map plain_factor factors.items)) }
{
    let mut out = Vec::new(alloc);
    let mut order = None;
    for factor in factors {
        let after = order_after(d, &factor);
        add_laned(alloc, d, &mut out, order, factor)?;
        order = after;
    }
    add_settled(alloc, d, &mut out, order)?;
    Ok(out)
}

// The groups in which the words lie after a factor, if any.
fn order_after(d: Deal, factor: &Factor) -> Option<Grid>
    requires lanes { 0 < d.lanes }
    requires rows { HasRows (plain_factor factor.now) }
    ensures { result ≡ order_after d (plain_factor factor.now) }
{
    match factor {
        Factor::Blocks(step) => grid_after(d, step),
        Factor::Diagonals(_) | Factor::MoveBefore(_) | Factor::MoveAfter(_) => None,
    }
}

fn grid_after(d: Deal, step: &Step) -> Option<Grid>
    requires lanes { 0 < d.lanes }
    requires rows { HasRowsUnder (plain_step step.now).path }
    ensures { result ≡ grid_after d (plain_step step.now).path (plain_step step.now).core }
{
    match (step.path.split_first(), &step.core) {
        (None, Core::Turns { rows, cols }) => Some(Grid {
            groups: rows / d.lanes,
            tiles: cols / d.lanes,
        }),
        (Some((Tensor::Blocks(rows), _)), _) => Some(Grid {
            groups: rows / d.lanes,
            tiles: d.block / rows / d.lanes,
        }),
        _ => None,
    }
}

// Appends the factors of a factor, where the words may lie in groups.
fn add_laned(
    alloc: Global,
    d: Deal,
    out: &mut Vec<VecFactor>,
    order: Option<Grid>,
    factor: Factor,
) -> Result<(), NoMemory>
    requires lanes { 0 < d.lanes }
    requires rows { HasRows (plain_factor factor) }
    ensures { OnOk result (map plain_vec_factor out.new.items
        ≡ map plain_vec_factor out.old.items ++ laned d order (plain_factor factor)) }
{
    match factor {
        Factor::Blocks(step) => add_block(alloc, d, out, order, step),
        Factor::Diagonals(step) => {
            add_settled(alloc, d, out, order)?;
            out.push(VecFactor::Diagonals(step))?;
            Ok(())
        }
        Factor::MoveBefore(step) => {
            add_settled(alloc, d, out, order)?;
            out.push(VecFactor::MoveBefore(narrowed(alloc, d.lanes, step)?))?;
            Ok(())
        }
        Factor::MoveAfter(step) => {
            add_settled(alloc, d, out, order)?;
            out.push(VecFactor::MoveAfter(narrowed(alloc, d.lanes, step)?))?;
            Ok(())
        }
    }
}

// Appends the factors of a block's step, where the words may lie in groups.
fn add_block(
    alloc: Global,
    d: Deal,
    out: &mut Vec<VecFactor>,
    order: Option<Grid>,
    step: Step,
) -> Result<(), NoMemory>
    requires lanes { 0 < d.lanes }
    requires rows { HasRowsUnder (plain_step step).path }
    ensures { OnOk result (map plain_vec_factor out.new.items ≡ map plain_vec_factor out.old.items
        ++ block_factors d order (plain_step step).path (plain_step step).core) }
{
    match (step.path.split_first(), &step.core) {
        (None, Core::Turns { rows, cols }) => {
            let core = Core::Turns {
                rows: rows / d.lanes,
                cols: *cols,
            };
            add_settled(alloc, d, out, order)?;
            out.push(VecFactor::Lanes(Step {
                path: step.path,
                core,
            }))?;
        }
        (Some((Tensor::Blocks(rows), rest)), _) => {
            let grid = Grid {
                groups: rows / d.lanes,
                tiles: d.block / rows / d.lanes,
            };
            add_grouped(alloc, d, out, order, grid)?;
            let rest = rest.to_vec(alloc)?;
            let lane = step_within(Tensor::Blocks(grid.groups), rest, step.core)?;
            out.push(VecFactor::Lanes(lane))?;
        }
        (None | Some((Tensor::Columns(_), _)), Core::Twiddles { .. }) => {
            let whole = step_within(Tensor::Blocks(d.procs), step.path, step.core)?;
            add_settled(alloc, d, out, order)?;
            out.push(VecFactor::Diagonals(whole))?;
        }
        _ => {
            add_settled(alloc, d, out, order)?;
            out.push(VecFactor::Lanes(narrowed(alloc, d.lanes, step)?))?;
        }
    }
    Ok(())
}

// What each lane does of a step in columns.
fn narrowed(alloc: Global, lanes: u64, step: Step) -> Result<Step, NoMemory>
    requires { 0 < lanes }
    ensures { IfOk result
        (λ s. plain_step s ≡ narrowed lanes (plain_step step).path (plain_step step).core) }
{
    match step.path.split_first() {
        Some((Tensor::Columns(cols), rest)) => {
            let rest = rest.to_vec(alloc)?;
            step_within(Tensor::Columns(cols / lanes), rest, step.core)
        }
        Some((Tensor::Blocks(_), _)) | None => Ok(step),
    }
}

// Brings the words into their own order, where they may lie in groups.
fn add_settled(
    alloc: Global,
    d: Deal,
    out: &mut Vec<VecFactor>,
    order: Option<Grid>,
) -> Result<(), NoMemory>
    ensures { OnOk result (map plain_vec_factor out.new.items
        ≡ map plain_vec_factor out.old.items ++ settled d order) }
{
    let Some(grid) = order else { return Ok(()) };
    out.push(VecFactor::Tiles(tiles(alloc, grid)?))?;
    let back = group_turn(alloc, d, grid, d.lanes, grid.tiles)?;
    out.push(VecFactor::MoveAfter(back))?;
    Ok(())
}

// Brings the words into groups, where they may lie so already.
fn add_grouped(
    alloc: Global,
    d: Deal,
    out: &mut Vec<VecFactor>,
    order: Option<Grid>,
    grid: Grid,
) -> Result<(), NoMemory>
    ensures { OnOk result (map plain_vec_factor out.new.items
        ≡ map plain_vec_factor out.old.items ++ grouped d order grid) }
{
    if order.is_some() {
        return Ok(());
    }
    let there = group_turn(alloc, d, grid, grid.tiles, d.lanes)?;
    out.push(VecFactor::MoveBefore(there))?;
    out.push(VecFactor::Tiles(tiles(alloc, grid)?))?;
    Ok(())
}

// The tensors of the tiles of a block.
fn tiles(alloc: Global, grid: Grid) -> Result<Vec<Tensor>, NoMemory>
    ensures { IfOk result
        (λ path. path.items ≡ within (Blocks grid.groups) (within (Blocks grid.tiles) [])) }
{
    let across = within(Tensor::Blocks(grid.tiles), Vec::new(alloc))?;
    within(Tensor::Blocks(grid.groups), across)
}

// `L(rows * cols, rows)` in each group of each block.
fn group_turn(alloc: Global, d: Deal, grid: Grid, rows: u64, cols: u64) -> Result<Step, NoMemory>
    ensures { IfOk result (λ s. plain_step s
        ≡ step (within (Blocks d.procs) (within (Blocks grid.groups) [])) (turns rows cols)) }
{
    let groups = within(Tensor::Blocks(grid.groups), Vec::new(alloc))?;
    step_within(Tensor::Blocks(d.procs), groups, Core::Turns { rows, cols })
}

/// For one processor and one lane the steps of a layout stay as they are.
pub fn plain_steps()
    ensures { PlainSteps }
{}

/// The lanes of a layout's formula do what it does, in as many operations.
pub fn vec_keeps()
    ensures { VecKeeps }
{}

/// Each factor of a layout's formula is `A tensor I_v` or tiles in blocks of equal size, a diagonal of equal parts, or a permutation of vectors.
pub fn vec_shaped()
    ensures { VecShaped }
{}
