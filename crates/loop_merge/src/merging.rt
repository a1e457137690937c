// A term, part by part.
ghost use Rattle.std.specs.Prelude.{◌≡◌, IfOk};
ghost use Rattle.sigma_spl.specs.Limits.{HasSeveral};
ghost use Rattle.sigma_spl.specs.Merge.{ended, from_end, merged, most, nothing, with_passes};
ghost use Rattle.sigma_spl.specs.Term.{move, nest};
ghost use Rattle.sigma_spl.specs.Views.{plain_term, plain_work};
ghost use Rattle.sigma_spl.specs.Work.{HasWords};
ghost use Rattle.loop_merge.specs.Alone.{merged_alone};
ghost use Rattle.loop_merge.specs.Known.{AreKnownPasses, HasRoom, IsGood, IsKnown};
ghost use Rattle.loop_nests.specs.Places.Known.{AreSteps};
ghost use Rattle.loop_nests.specs.Places.Views.{waiting_of};
ghost use Rattle.sigma_spl.specs.Words.{AreWords};
ghost use Rattle.loop_merge.specs.Views.{plain_merging};
ghost use Rattle.loop_nests.specs.Views.{from_last};

use crate::multiplying::with_diagonal;
use crate::state::Merging;
use crate::steps::{ended, with_gather, with_pass, with_scatter};
use loop_nests::{Limits, alone, moved_nest, natural_nest, sides};
use memory::NoMemory;
use operators::Tensor;
use sigma_spl::{Nest, Term, Work};
use std::alloc::Global;

/// What a term does to a state of merging.
#[cycle(merged)]
fn merged(alloc: Global, term: Term, state: Merging, limits: Limits) -> Result<Merging, NoMemory>
    requires room { HasRoom limits.room limits.size }
    requires known { IsKnown limits.room limits.size (plain_merging state) }
    requires good { IsGood limits.size (plain_term term) }
    requires several { HasSeveral (plain_term term) }
    requires words { AreWords limits.size (plain_term term) }
    ensures { IfOk result (λ next. plain_merging next
        ≡ merged (most limits.room) limits.size (plain_merging state) (plain_term term)) }
{
    match term {
        Term::Same => Ok(state),
        Term::Gath(f) => Ok(with_gather(state, f)?),
        Term::Scat(f) => Ok(with_scatter(alloc, state, &f, limits)?),
        Term::DiagAt { path, factors } => {
            Ok(with_diagonal(alloc, state, path, factors, limits)?)
        }
        Term::Sum { path, work } => Ok(with_copies(alloc, state, &path, work, limits)?),
        Term::Move { path, places } => Ok(with_moved(alloc, state, &path, &places, limits)?),
        Term::Compose(a, b) => {
            let next = merged(alloc, Box::into_inner(a), state, limits)?;
            Ok(merged(alloc, Box::into_inner(b), next, limits)?)
        }
        Term::Beside {
            path,
            first_size,
            first,
            second_size,
            second,
        } => {
            let room = limits.room - path.len() as u64;
            let left = merged_alone(alloc, first_size, Box::into_inner(first), room)?;
            let right = merged_alone(alloc, second_size, Box::into_inner(second), room)?;
            let both = sides(alloc, &path, (first_size, second_size), left, right)?;
            Ok(with_passes(alloc, state, both, limits)?)
        }
    }
}

/// The passes of a term by itself, on lists of `size` words.
#[cycle(merged)]
pub(crate) fn merged_alone(
    alloc: Global,
    size: u64,
    term: Term,
    room: u64,
) -> Result<Vec<Vec<Nest>>, NoMemory>
    requires room { HasRoom room size }
    requires good { IsGood size (plain_term term) }
    requires several { HasSeveral (plain_term term) }
    requires words { AreWords size (plain_term term) }
    ensures { IfOk result (λ ps.
        from_last ps.items ≡ merged_alone (most room) size (plain_term term)) }
{
    let limits = Limits { size, room };
    let state = merged(alloc, term, nothing(alloc), limits)?;
    let passes = finished(alloc, state, limits)?;
    Ok(passes)
}

fn with_copies(
    alloc: Global,
    state: Merging,
    path: &[Tensor],
    work: Work,
    limits: Limits,
) -> Result<Merging, NoMemory>
    requires room { HasRoom limits.room limits.size }
    requires known { IsKnown limits.room limits.size (plain_merging state) }
    requires good { IsGood limits.size (nest path.now (plain_work work)) }
    requires several { HasSeveral (nest path.now (plain_work work)) }
    requires words { HasWords (plain_work work) }
    ensures { IfOk result (λ next. plain_merging next ≡ merged (most limits.room) limits.size
        (plain_merging state) (nest path.now (plain_work work))) }
{
    let nest = natural_nest(alloc, path, work)?;
    let pass = alone(alloc, nest)?;
    let next = with_pass(alloc, state, pass, limits)?;
    Ok(next)
}

fn with_moved(
    alloc: Global,
    state: Merging,
    path: &[Tensor],
    places: &[u64],
    limits: Limits,
) -> Result<Merging, NoMemory>
    requires room { HasRoom limits.room limits.size }
    requires known { IsKnown limits.room limits.size (plain_merging state) }
    requires good { IsGood limits.size (move path.now places.now) }
    requires several { HasSeveral (move path.now places.now) }
    ensures { IfOk result (λ next. plain_merging next ≡ merged (most limits.room) limits.size
        (plain_merging state) (move path.now places.now)) }
{
    let nest = moved_nest(alloc, path, places)?;
    let pass = alone(alloc, nest)?;
    let next = with_pass(alloc, state, pass, limits)?;
    Ok(next)
}

// No gathers wait, and there are no passes.
fn nothing(alloc: Global) -> Merging
    ensures { plain_merging result ≡ nothing }
{
    Merging {
        waiting: Vec::new(alloc),
        passes: Vec::new(alloc),
    }
}

// The passes of a term from the state that it leaves.
fn finished(alloc: Global, state: Merging, limits: Limits) -> Result<Vec<Vec<Nest>>, NoMemory>
    requires room { HasRoom limits.room limits.size }
    requires known { IsKnown limits.room limits.size (plain_merging state) }
    ensures { IfOk result (λ ps. from_last ps.items ≡ ended (most limits.room) limits.size
        (from_end (plain_merging state).waiting) (plain_merging state).passes) }
{
    let Merging { waiting, passes } = state;
    let passes = ended(alloc, &waiting, passes, limits)?;
    Ok(passes)
}

// Passes, of which the first takes the gathers that wait.
fn with_passes(
    alloc: Global,
    state: Merging,
    passes: Vec<Vec<Nest>>,
    limits: Limits,
) -> Result<Merging, NoMemory>
    requires room { HasRoom limits.room limits.size }
    requires steps { AreSteps limits.size (waiting_of state.waiting.items) }
    requires known { AreKnownPasses limits.room limits.size (from_last passes.items) }
    ensures { IfOk result (λ next. plain_merging next ≡ with_passes (most limits.room) limits.size
        (plain_merging state) (from_last passes.items)) }
{
    let mut next = state;
    for pass in passes {
        next = with_pass(alloc, next, pass, limits)?;
    }
    Ok(next)
}
