//! Sigma-SPL: terms of permutations, diagonals and loops, phase by phase, the passes that merging makes of them, and
//! the laws of both (Franchetti et al., 2005).
#![tactic(auto)]

ghost use Rattle.sigma_spl.specs.Counts.{MergeCounts};
ghost use Rattle.sigma_spl.specs.Good.{MergeKeeps};
ghost use Rattle.sigma_spl.specs.Horner.{HornerRow};
ghost use Rattle.sigma_spl.specs.Limits.{MergeLimits};
ghost use Rattle.sigma_spl.specs.Loops.{LoopsAreGood, LoopsHavePlaces, MergeListed};
ghost use Rattle.sigma_spl.specs.Places.{PassStores};
ghost use Rattle.sigma_spl.specs.Plain.Shape.{GoodSigmasFit};
ghost use Rattle.sigma_spl.specs.Sigma.{SigmaMerges};
ghost use Rattle.sigma_spl.specs.CopiesLaws.{KeepsOnce, LoadsGather, LoopsScale, StandSideBySide, StandUnder, StoresScatter};

mod copies;
mod items;
mod nest;
mod plain;
mod sizes;
mod term;
mod variables;
mod work;

pub use copies::copied_sums;
pub use items::{items_in, items_out};
pub use nest::{Factors, Merged, Multiplier, Nest};
pub use sizes::size_of_whole;
pub use term::{Sigma, Term};
pub use variables::{counts, limits};
pub use work::Work;

/// What is merged into a pass, and how passes stand side by side and under tensors.
pub fn copies_merge()
    ensures loads { LoadsGather }
    ensures stores { StoresScatter }
    ensures scales { LoopsScale }
    ensures sides { StandSideBySide }
    ensures tensors { StandUnder }
    ensures once { KeepsOnce }
{}

/// The passes of a term do what it does, and each writes each word of its array once.
pub fn merge_keeps()
    ensures { MergeKeeps }
{}

/// The passes of a term have its operations.
pub fn merge_counts()
    ensures { MergeCounts }
{}

/// The places of a term's passes are within the limits of programs.
pub fn merge_limits()
    ensures { MergeLimits }
{}

/// Horner's rule gives the rows of a Fourier transform, for any root.
pub fn horner_row()
    ensures { HornerRow }
{}

/// A pass that stores each word once leaves at each place what the one copy stores there.
pub fn pass_stores()
    ensures { PassStores }
{}

/// Terms in order are merged into their loops, one by one, where no place is over a limit.
pub fn merge_listed()
    ensures { MergeListed }
{}

/// The sums of a loop's nest have the values of its places.
pub fn loops_have_places()
    ensures { LoopsHavePlaces }
{}

/// The loops of a good term in order can be named by sums.
pub fn loops_are_good()
    ensures { LoopsAreGood }
{}

/// The passes of good terms in phases do what the terms do, each phase in its operations.
pub fn sigma_merges()
    ensures { SigmaMerges }
{}

/// Terms that can be merged can be applied to a list, each by its definition.
pub fn good_sigmas_fit()
    ensures { GoodSigmasFit }
{}
