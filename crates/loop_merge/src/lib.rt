//! Terms merged into passes: permutations go into loads and stores, diagonals into the pass before them, and a copy
//! pass takes what no pass can take within the limits. Copies side by side are coalesced, and the passes of two
//! programs are joined.
#![tactic(auto)]

mod coalescing;
mod copies;
mod joined_passes;
mod merging;
mod multiplied_passes;
mod multiplying;
mod phases;
mod state;
mod steps;

ghost use Rattle.std.specs.Prelude.{◌≡◌, ◌^◌, ◌<◌, ◌≤◌, IfOk, map};
ghost use Rattle.sigma_spl.specs.Limits.{HasSeveral};
ghost use Rattle.sigma_spl.specs.Merge.{if_any};
ghost use Rattle.sigma_spl.specs.Sigma.{passes_in_order};
ghost use Rattle.sigma_spl.specs.Views.{plain_nest, plain_term};
ghost use Rattle.sigma_spl.specs.Words.{AreWords};
ghost use Rattle.loop_merge.specs.Known.{IsGood};
ghost use Rattle.loop_nests.specs.Views.{from_last};

use crate::copies::one_pass;
use crate::merging::merged_alone;
pub use coalescing::coalesce_copies;
pub use joined_passes::join;
use loop_nests::copying;
use memory::NoMemory;
pub use phases::merge;
use sigma_spl::{Nest, Term};
use std::alloc::Global;

/// The passes of a term on lists of `size` words, in their order: within the limits of programs.
pub(crate) fn merge_term(alloc: Global, size: u64, term: Term) -> Result<Vec<Vec<Nest>>, NoMemory>
    requires size { (0 < size) × (size ≤ 2 ^ 20) }
    requires good { IsGood size (plain_term term) }
    requires several { HasSeveral (plain_term term) }
    requires words { AreWords size (plain_term term) }
    ensures { IfOk result (λ ps. map (λ zs. map plain_nest zs.items) ps.items
        ≡ passes_in_order size (plain_term term)) }
{
    let passes = merged_alone(alloc, size, term, 64)?;
    let passes = if_any(alloc, size, passes)?;
    Ok(passes)
}

// The passes, or a copy where there are none.
fn if_any(alloc: Global, size: u64, passes: Vec<Vec<Nest>>) -> Result<Vec<Vec<Nest>>, NoMemory>
    requires { (0 < size) × (size ≤ 2 ^ 20) }
    ensures { IfOk result (λ ps. from_last ps.items ≡ if_any size (from_last passes.items)) }
{
    if passes.is_empty() {
        let copies = copying(alloc, size)?;
        let passes = one_pass(alloc, copies)?;
        return Ok(passes);
    }
    Ok(passes)
}
