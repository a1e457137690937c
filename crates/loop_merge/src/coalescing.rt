// Copies of words that stand side by side in a pass, as one loop. Where one part of a direct sum has more passes than
// the other, the shorter one copies its words in each pass that it lacks.
ghost use Rattle.std.specs.Prelude.{◌≡◌, IfOk, OnOk, map, reverse};
ghost use Rattle.loop_merge.specs.Coalescing.Copies.{all_coalesced, put_first, with_copies_coalesced};
ghost use Rattle.loop_merge.specs.Coalescing.Views.{plain_passes};
ghost use Rattle.sigma_spl.specs.Views.{plain_nest};

mod runs;

use crate::coalescing::runs::{copying_run, run_of, together};
use memory::NoMemory;
use sigma_spl::Nest;
use std::alloc::Global;
use std::mem::drop;

/// The passes, with copies of words that stand side by side as one loop.
pub fn coalesce_copies(alloc: Global, passes: Vec<Vec<Nest>>) -> Result<Vec<Vec<Nest>>, NoMemory>
    ensures { IfOk result
        (λ coalesced. plain_passes coalesced.items ≡ all_coalesced (plain_passes passes.items)) }
{
    let mut coalesced = Vec::with_capacity(alloc, passes.len())?;
    for pass in passes {
        coalesced.push(coalesced_pass(alloc, pass)?)?;
    }
    Ok(coalesced)
}

fn coalesced_pass(alloc: Global, nests: Vec<Nest>) -> Result<Vec<Nest>, NoMemory>
    ensures { IfOk result (λ coalesced.
        map plain_nest coalesced.items ≡ with_copies_coalesced (map plain_nest nests.items)) }
{
    let mut nests = nests;
    nests.reverse();
    let mut coalesced = Vec::new(alloc);
    for nest in nests {
        put_first(alloc, nest, &mut coalesced)?;
    }
    coalesced.reverse();
    Ok(coalesced)
}

// Puts a nest before others, which stand the last of them first.
fn put_first(alloc: Global, nest: Nest, others: &mut Vec<Nest>) -> Result<(), NoMemory>
    ensures { OnOk result (map plain_nest (reverse others.new.items)
        ≡ put_first (plain_nest nest) (map plain_nest (reverse others.old.items))) }
{
    match others.pop() {
        None => {
            others.push(nest)?;
            Ok(())
        }
        Some(next) => match together(run_of(&nest), run_of(&next)) {
            None => {
                others.push(next)?;
                others.push(nest)?;
                Ok(())
            }
            Some(run) => {
                drop(nest);
                drop(next);
                others.push(copying_run(alloc, run)?)?;
                Ok(())
            }
        },
    }
}
