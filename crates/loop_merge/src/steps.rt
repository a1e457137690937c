// What a gather, a pass and a scatter do to a state of merging.
ghost use Rattle.std.specs.Prelude.{◌≡◌, ◌∷◌, [], IfOk, false, true};
ghost use Rattle.index_fn.specs.Back.{HasBack};
ghost use Rattle.index_fn.specs.Index.{mapping_of};
ghost use Rattle.sigma_spl.specs.Good.{IsFormed};
ghost use Rattle.sigma_spl.specs.Merge.{back_of, can_scatter, ended, most, scattered, with_pass, with_scatter};
ghost use Rattle.loop_merge.specs.Known.{AreKnownPasses, HasRoom, IsKnown};
ghost use Rattle.loop_nests.specs.Places.Changes.{ForMade, ForRefused};
ghost use Rattle.loop_nests.specs.Places.Known.{AreSteps, IsKnownPass, IsStep};
ghost use Rattle.loop_nests.specs.Places.Views.{mappings_of, waiting_of};
ghost use Rattle.loop_merge.specs.Views.{plain_merging};
ghost use Rattle.loop_nests.specs.Views.{from_last, plain_pass};

use crate::copies::{settled, taken};
use crate::state::Merging;
use index_fn::Index;
use loop_nests::{Change, Limits, scattered};
use memory::NoMemory;
use sigma_spl::Nest;
use std::alloc::Global;

/// A gather waits.
pub(crate) fn with_gather(state: Merging, f: Index) -> Result<Merging, NoMemory>
    ensures waiting { IfOk result (λ next.
        (plain_merging next).waiting ≡ mapping_of f ∷ (plain_merging state).waiting) }
    ensures passes { IfOk result (λ next.
        (plain_merging next).passes ≡ (plain_merging state).passes) }
{
    let Merging { waiting, passes } = state;
    let mut waiting = waiting;
    waiting.push(f)?;
    Ok(Merging { waiting, passes })
}

/// A pass more.
pub(crate) fn with_pass(
    alloc: Global,
    state: Merging,
    pass: Vec<Nest>,
    limits: Limits,
) -> Result<Merging, NoMemory>
    requires room { HasRoom limits.room limits.size }
    requires known { IsKnownPass limits.room limits.size (plain_pass pass) }
    requires steps { AreSteps limits.size (waiting_of state.waiting.items) }
    ensures { IfOk result (λ next. plain_merging next
        ≡ with_pass (most limits.room) limits.size (plain_merging state) (plain_pass pass)) }
{
    let Merging { waiting, passes } = state;
    let mut passes = passes;
    let mut more = taken(alloc, pass, &waiting, limits)?;
    passes.append(&mut more)?;
    Ok(Merging {
        waiting: Vec::new(alloc),
        passes,
    })
}

/// A scatter goes into the last pass where no gather waits, and else waits as a gather.
pub(crate) fn with_scatter(
    alloc: Global,
    state: Merging,
    f: &Index,
    limits: Limits,
) -> Result<Merging, NoMemory>
    requires room { HasRoom limits.room limits.size }
    requires step { IsStep limits.size (mapping_of f.now) }
    requires known { IsKnown limits.room limits.size (plain_merging state) }
    ensures { IfOk result (λ next. plain_merging next ≡ with_scatter (most limits.room) limits.size
        (plain_merging state).waiting (plain_merging state).passes (mapping_of f.now)) }
{
    if !state.waiting.is_empty() {
        let next = with_back(alloc, state, f)?;
        return Ok(next);
    }
    let next = scattered_last(alloc, state, f, limits)?;
    Ok(next)
}

// A scatter waits as a gather.
fn with_back(alloc: Global, state: Merging, f: &Index) -> Result<Merging, NoMemory>
    requires formed { IsFormed (mapping_of f.now) }
    requires undone { HasBack (mapping_of f.now) }
    ensures waiting { IfOk result (λ next.
        (plain_merging next).waiting ≡ back_of (mapping_of f.now) ∷ (plain_merging state).waiting) }
    ensures passes { IfOk result (λ next.
        (plain_merging next).passes ≡ (plain_merging state).passes) }
{
    let back = f.inverse(alloc)?;
    let next = with_gather(state, back)?;
    Ok(next)
}

// A scatter into the last pass, where no gather waits.
fn scattered_last(
    alloc: Global,
    state: Merging,
    f: &Index,
    limits: Limits,
) -> Result<Merging, NoMemory>
    requires room { HasRoom limits.room limits.size }
    requires step { IsStep limits.size (mapping_of f.now) }
    requires none { state.waiting.items ≡ [] }
    requires known { AreKnownPasses limits.room limits.size (from_last state.passes.items) }
    ensures { IfOk result (λ next. plain_merging next ≡ with_scatter (most limits.room) limits.size
        [] (from_last state.passes.items) (mapping_of f.now)) }
{
    let mut state = state;
    let Some(last) = state.passes.pop() else {
        let next = with_back(alloc, state, f)?;
        return Ok(next);
    };
    match scattered(alloc, f, last, limits)? {
        Change::Made(pass) => {
            state.passes.push(pass)?;
            Ok(state)
        }
        Change::Refused(last) => {
            state.passes.push(last)?;
            let next = with_back(alloc, state, f)?;
            Ok(next)
        }
    }
}

/// At the end the gathers that wait, the earliest first, go into the stores of the last pass, and the others into copy
/// passes.
pub(crate) fn ended(
    alloc: Global,
    waiting: &[Index],
    passes: Vec<Vec<Nest>>,
    limits: Limits,
) -> Result<Vec<Vec<Nest>>, NoMemory>
    requires room { HasRoom limits.room limits.size }
    requires steps { AreSteps limits.size (mappings_of waiting.now) }
    requires known { AreKnownPasses limits.room limits.size (from_last passes.items) }
    ensures { IfOk result (λ ps. from_last ps.items ≡ ended (most limits.room) limits.size
        (mappings_of waiting.now) (from_last passes.items)) }
{
    let Some((f, rest)) = waiting.split_first() else {
        return Ok(passes);
    };
    let mut passes = passes;
    let Some(last) = passes.pop() else {
        let passes = settled(alloc, waiting, limits)?;
        return Ok(passes);
    };
    match scattered_back(alloc, f, last, limits)? {
        Change::Made(pass) => {
            passes.push(pass)?;
            let passes = ended(alloc, rest, passes, limits)?;
            Ok(passes)
        }
        Change::Refused(last) => {
            passes.push(last)?;
            let mut after = settled(alloc, waiting, limits)?;
            passes.append(&mut after)?;
            Ok(passes)
        }
    }
}

// A pass with the scatter that undoes a gather in its stores, if that is within the limits.
fn scattered_back(
    alloc: Global,
    f: &Index,
    nests: Vec<Nest>,
    limits: Limits,
) -> Result<Change, NoMemory>
    requires room { HasRoom limits.room limits.size }
    requires step { IsStep limits.size (mapping_of f.now) }
    requires known { IsKnownPass limits.room limits.size (plain_pass nests) }
    ensures made { IfOk result (λ r. ForMade r (λ zs. (can_scatter (most limits.room) limits.size
        (back_of (mapping_of f.now)) (plain_pass nests) ≡ true)
        × (zs ≡ scattered (back_of (mapping_of f.now)) (plain_pass nests)))) }
    ensures refused { IfOk result (λ r. ForRefused r (λ zs. (can_scatter (most limits.room)
        limits.size (back_of (mapping_of f.now)) (plain_pass nests) ≡ false)
        × (zs ≡ plain_pass nests))) }
{
    let back = f.inverse(alloc)?;
    let change = scattered(alloc, &back, nests, limits)?;
    Ok(change)
}
