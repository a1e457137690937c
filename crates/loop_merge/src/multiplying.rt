// What a diagonal does to a state of merging.
ghost use Rattle.std.specs.Prelude.{◌≡◌, [], IfOk, false, map, not, true};
ghost use Rattle.std.specs.List.{list_all};
ghost use Rattle.sigma_spl.specs.Merge.{factor_places, is_tile, most, multiplied, suits, with_copy, with_diagonal};
ghost use Rattle.sigma_spl.specs.Nest.{factor_count, spread};
ghost use Rattle.sigma_spl.specs.Views.{plain_factors, plain_nest, plain_work};
ghost use Rattle.loop_nests.specs.Limits.Leading.{CanCarry};
ghost use Rattle.loop_nests.specs.Limits.Outcomes.{IfMade, IfRefused};
ghost use Rattle.operators.specs.Paths.Tensors.{size_under};
ghost use Rattle.loop_merge.specs.Known.{AreKnownPasses, HasRoom, IsKnown};
ghost use Rattle.loop_nests.specs.Places.Known.{AreSteps, IsKnownPass};
ghost use Rattle.loop_nests.specs.Places.Multiplied.{functions_of};
ghost use Rattle.loop_nests.specs.Places.Views.{waiting_of};
ghost use Rattle.loop_merge.specs.Suited.{nests_take, nests_with};
ghost use Rattle.loop_merge.specs.Views.{plain_merging};
ghost use Rattle.loop_nests.specs.Views.{from_last, plain_pass};

use crate::copies::settled;
use crate::state::Merging;
use loop_nests::{
    Diagonal, Limits, copying, factor_count, factor_places, multiplied, multiplied_in_order,
};
use memory::NoMemory;
use operators::Tensor;
use sigma_spl::{Factors, Nest, Work};
use std::alloc::Global;

/// A diagonal goes into the last pass where that can take it, and else into a copy pass.
pub(crate) fn with_diagonal(
    alloc: Global,
    state: Merging,
    path: Vec<Tensor>,
    factors: Factors,
    limits: Limits,
) -> Result<Merging, NoMemory>
    requires room { HasRoom limits.room limits.size }
    requires known { IsKnown limits.room limits.size (plain_merging state) }
    requires size { size_under path.items (factor_count (plain_factors factors)) ≡ limits.size }
    ensures { IfOk result (λ next. plain_merging next ≡ with_diagonal (most limits.room) limits.size
        (plain_merging state).waiting (plain_merging state).passes path.items
        (plain_factors factors)) }
{
    let count = factor_count(&factors);
    let places = factor_places(alloc, &state.waiting, &path, &factors)?;
    let diagonal = Diagonal {
        factors,
        count,
        places,
    };
    let next = multiplied_last(alloc, state, path, diagonal, limits)?;
    Ok(next)
}

fn multiplied_last(
    alloc: Global,
    state: Merging,
    path: Vec<Tensor>,
    diagonal: Diagonal,
    limits: Limits,
) -> Result<Merging, NoMemory>
    requires room { HasRoom limits.room limits.size }
    requires steps { AreSteps limits.size (waiting_of state.waiting.items) }
    requires known { AreKnownPasses limits.room limits.size (from_last state.passes.items) }
    requires count { diagonal.count ≡ factor_count (plain_factors diagonal.factors) }
    requires places { functions_of diagonal
        ≡ factor_places (waiting_of state.waiting.items) path.items
        (plain_factors diagonal.factors) }
    requires can { CanCarry limits.size (functions_of diagonal) }
    ensures { IfOk result (λ next. plain_merging next ≡ with_diagonal (most limits.room) limits.size
        (waiting_of state.waiting.items) (from_last state.passes.items) path.items
        (plain_factors diagonal.factors)) }
{
    let mut state = state;
    let Some(last) = state.passes.pop() else {
        let next = with_copy(alloc, state, path, diagonal, limits)?;
        return Ok(next);
    };
    match multiplied_if_suited(alloc, &path, &diagonal, &last, limits)? {
        Some(pass) => {
            state.passes.push(pass)?;
            Ok(state)
        }
        None => {
            state.passes.push(last)?;
            let next = with_copy(alloc, state, path, diagonal, limits)?;
            Ok(next)
        }
    }
}

// A diagonal goes into a copy pass, or into one after the gathers, which then wait no more.
fn with_copy(
    alloc: Global,
    state: Merging,
    path: Vec<Tensor>,
    diagonal: Diagonal,
    limits: Limits,
) -> Result<Merging, NoMemory>
    requires room { HasRoom limits.room limits.size }
    requires steps { AreSteps limits.size (waiting_of state.waiting.items) }
    requires count { diagonal.count ≡ factor_count (plain_factors diagonal.factors) }
    requires places { functions_of diagonal
        ≡ factor_places (waiting_of state.waiting.items) path.items
        (plain_factors diagonal.factors) }
    requires can { CanCarry limits.size (functions_of diagonal) }
    ensures { IfOk result (λ next. plain_merging next ≡ with_copy (most limits.room) limits.size
        (plain_merging state) path.items (plain_factors diagonal.factors)) }
{
    let mut state = state;
    let copies = copying(alloc, limits.size)?;
    match multiplied(alloc, &diagonal, &copies, limits)? {
        Some(pass) => {
            state.passes.push(pass)?;
            Ok(state)
        }
        None => {
            let pass = multiplied_whole(alloc, path, diagonal, &copies)?;
            let mut before = settled(alloc, &state.waiting, limits)?;
            state.passes.append(&mut before)?;
            state.passes.push(pass)?;
            state.waiting = Vec::new(alloc);
            Ok(state)
        }
    }
}

// A pass with the whole diagonal after it.
fn multiplied_whole(
    alloc: Global,
    path: Vec<Tensor>,
    diagonal: Diagonal,
    nests: &[Nest],
) -> Result<Vec<Nest>, NoMemory>
    ensures { IfOk result (λ zs. plain_pass zs ≡ multiplied
        (spread path.items (plain_factors diagonal.factors)) [] (map plain_nest nests.now)) }
{
    let Diagonal { factors, .. } = diagonal;
    let factors = Factors::Spread {
        path,
        factors: Box::new(alloc, factors)?,
    };
    let pass = multiplied_in_order(alloc, &factors, nests)?;
    Ok(pass)
}

// A pass with the diagonal after it, where its work suits that and it can take it.
fn multiplied_if_suited(
    alloc: Global,
    path: &[Tensor],
    diagonal: &Diagonal,
    nests: &[Nest],
    limits: Limits,
) -> Result<Option<Vec<Nest>>, NoMemory>
    requires room { HasRoom limits.room limits.size }
    requires can { CanCarry limits.size (functions_of diagonal.now) }
    requires count { diagonal.now.count ≡ factor_count (plain_factors diagonal.now.factors) }
    requires known { IsKnownPass limits.room limits.size (map plain_nest nests.now) }
    ensures some { IfMade result (λ zs. (nests_take limits path.now diagonal.now nests.now ≡ true)
        × (plain_pass zs ≡ nests_with diagonal.now nests.now)) }
    ensures none { IfRefused result (nests_take limits path.now diagonal.now nests.now ≡ false) }
{
    if !suits(path, nests) {
        return Ok(None);
    }
    let changed = multiplied(alloc, diagonal, nests, limits)?;
    Ok(changed)
}

// Whether no factors of a vector stand apart.
fn suits(path: &[Tensor], nests: &[Nest]) -> bool
    ensures { result ≡ suits path.now (map plain_nest nests.now) }
{
    match path.split_first() {
        None => true,
        Some(_) => has_no_tile(nests),
    }
}

fn has_no_tile(nests: &[Nest]) -> bool
    ensures { result ≡ list_all (λ z. not (is_tile z.work)) (map plain_nest nests.now) }
{
    for nest in nests {
        if is_tile(&nest.work) {
            return false;
        }
    }
    true
}

fn is_tile(work: &Work) -> bool
    ensures { result ≡ is_tile (plain_work work.now) }
{
    match work {
        Work::Tile { .. } => true,
        Work::Kernel { .. }
        | Work::Short { .. }
        | Work::Dense { .. }
        | Work::Horner { .. }
        | Work::Copy { .. } => false,
    }
}
