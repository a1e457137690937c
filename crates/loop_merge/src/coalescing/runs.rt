// Runs of words that a nest copies to the places where they are.
ghost use Rattle.std.specs.Prelude.{◌≡◌, ◌∷◌, [], IfOk, map};
ghost use Rattle.std.specs.Option.{option_map};
ghost use Rattle.loop_merge.specs.Coalescing.Copies.{copying_run, is_word, run_of, same_words, together, words_at};
ghost use Rattle.loop_merge.specs.Coalescing.Views.{plain_run};
ghost use Rattle.sigma_spl.specs.Views.{plain_nest, plain_work};
ghost use Rattle.perm_algebra.specs.Affine.{constant, variable};
ghost use Rattle.perm_algebra.specs.Views.{plain_sum};

use memory::NoMemory;
use perm_algebra::Affine;
use sigma_spl::{Nest, Work};
use smallvec::SmallVec;
use std::alloc::Global;

// Places end below this one.
const LIMIT: u64 = 1 << 32;

/// A number of words from a place on.
#[derive(Clone, Copy, Drop)]
pub(crate) struct Run {
    pub first: u64,
    pub count: u64,
}

/// The words that the nest copies one by one to the places where they are, if that is all it does.
pub(crate) fn run_of(nest: &Nest) -> Option<Run>
    ensures { option_map plain_run result ≡ run_of (plain_nest nest.now) }
{
    if is_word(&nest.work) && nest.multiplier.is_none() {
        same_words(
            words_at(&nest.counts, &nest.gathers),
            words_at(&nest.counts, &nest.scatters),
        )
    } else {
        None
    }
}

fn is_word(work: &Work) -> bool
    ensures { result ≡ is_word (plain_work work.now) }
{
    match work {
        Work::Copy { size } => *size == 1,
        Work::Kernel { .. }
        | Work::Short { .. }
        | Work::Dense { .. }
        | Work::Horner { .. }
        | Work::Tile { .. } => false,
    }
}

fn same_words(loaded: Option<Run>, stored: Option<Run>) -> Option<Run>
    ensures { option_map plain_run result
        ≡ same_words (option_map plain_run loaded) (option_map plain_run stored) }
{
    match (loaded, stored) {
        (Some(from), Some(to)) => {
            if from.first == to.first {
                Some(from)
            } else {
                None
            }
        }
        _ => None,
    }
}

// The words of these places, under no loop, or under one that counts them.
fn words_at(counts: &[u64], places: &[Affine]) -> Option<Run>
    ensures { option_map plain_run result ≡ words_at counts.now (map plain_sum places.now) }
{
    match (counts, places) {
        ([], [place]) => word_at(place),
        ([count], [place]) => counted_from(*count, place),
        _ => None,
    }
}

fn word_at(place: &Affine) -> Option<Run>
    ensures { option_map plain_run result ≡ words_at [] (plain_sum place.now ∷ []) }
{
    match place {
        Affine::Constant(first) => Some(Run {
            first: *first,
            count: 1,
        }),
        _ => None,
    }
}

fn counted_from(count: u64, place: &Affine) -> Option<Run>
    ensures { option_map plain_run result ≡ words_at (count ∷ []) (plain_sum place.now ∷ []) }
{
    match place {
        Affine::Variable(factor, number, rest) => match **rest {
            Affine::Constant(first) => {
                if *factor == 1 && *number == 0 {
                    Some(Run { first, count })
                } else {
                    None
                }
            }
            _ => None,
        },
        _ => None,
    }
}

/// Both, where the second begins at the end of the first.
pub(crate) fn together(first: Option<Run>, second: Option<Run>) -> Option<Run>
    ensures { option_map plain_run result
        ≡ together (option_map plain_run first) (option_map plain_run second) }
{
    match (first, second) {
        (Some(first), Some(second)) => {
            if second.first >= first.first
                && second.first - first.first == first.count
                && second.first < LIMIT
                && second.count < LIMIT - second.first
            {
                Some(Run {
                    first: first.first,
                    count: first.count + second.count,
                })
            } else {
                None
            }
        }
        _ => None,
    }
}

/// The loop that copies them.
pub(crate) fn copying_run(alloc: Global, run: Run) -> Result<Nest, NoMemory>
    ensures { IfOk result (λ nest. plain_nest nest ≡ copying_run (plain_run run)) }
{
    let gathers = counting_from(alloc, run.first)?;
    let scatters = counting_from(alloc, run.first)?;
    let mut counts = SmallVec::new(alloc);
    counts.push(run.count)?;
    Ok(Nest {
        counts,
        work: Work::Copy { size: 1 },
        gathers,
        multiplier: None,
        scatters,
    })
}

fn counting_from(alloc: Global, first: u64) -> Result<Vec<Affine>, NoMemory>
    ensures { IfOk result
        (λ places. map plain_sum places.items ≡ variable 1 0 (constant first) ∷ []) }
{
    let start = Box::new(alloc, Affine::Constant(first))?;
    let mut places = Vec::with_capacity(alloc, 1)?;
    places.push(Affine::Variable(1, 0, start))?;
    Ok(places)
}
