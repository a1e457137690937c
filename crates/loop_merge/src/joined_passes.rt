// Passes, a diagonal of listed values and other passes, as the passes of one program.
ghost use Rattle.std.specs.Prelude.{◌≡◌, IfOk, length};
ghost use Rattle.loop_merge.specs.JoinedPasses.InOnePhase.{joined};
ghost use Rattle.loop_merge.specs.JoinedPasses.Laws.{AreInTurn, CountBoth, IsReadyJoined};
ghost use Rattle.loop_merge.specs.MultipliedPasses.Views.{plain_passes, plain_phases};
ghost use Rattle.sigma_spl.specs.Shared.Owners.{all_passes};
ghost use Rattle.sigma_spl.specs.Views.{plain_merged};

use crate::multiplied_passes::multiply_last_pass;
use memory::NoMemory;
use sigma_spl::{Factors, Merged, Nest};
use std::alloc::Global;
use std::mem::drop;

/// The passes of `first`, the diagonal after the last of them, and the passes of `second`: the value at a place multiplies
/// the item that the last pass stores there. All are in one phase, for one processor, which needs no barrier between them.
/// They count what both count, and a product for each word.
pub fn join(
    alloc: Global,
    first: Merged,
    diagonal: Vec<u64>,
    second: Merged,
) -> Result<Merged, NoMemory>
    ensures joined { IfOk result (λ all.
        plain_merged all ≡ joined (plain_merged first) diagonal.items (plain_merged second)) }
    ensures phase { IfOk result (λ all. length (plain_merged all).phases ≡ 1) }
    ensures meaning { IfOk result (λ all.
        AreInTurn (plain_merged first) diagonal.items (plain_merged second) (plain_merged all)) }
    ensures counts { IfOk result (λ all.
        CountBoth (plain_merged first) (plain_merged second) (plain_merged all)) }
    ensures ready { IfOk result (λ all.
        IsReadyJoined (plain_merged first) diagonal.items (plain_merged second) (plain_merged all)) }
{
    let Merged {
        size,
        procs,
        lanes,
        phases,
    } = first;
    let before = in_one_phase(alloc, phases)?;
    let factors = Factors::Values(diagonal);
    let multiplied = multiply_last_pass(alloc, before, &factors);
    drop(factors);
    let mut passes = multiplied?;
    let mut after = in_one_phase(alloc, second.phases)?;
    passes.append(&mut after)?;
    let mut phases = Vec::new(alloc);
    phases.push(passes)?;
    Ok(Merged {
        size,
        procs,
        lanes,
        phases,
    })
}

fn in_one_phase(alloc: Global, phases: Vec<Vec<Vec<Nest>>>) -> Result<Vec<Vec<Nest>>, NoMemory>
    ensures { IfOk result (λ passes.
        plain_passes passes.items ≡ all_passes (plain_phases phases.items)) }
{
    let mut passes = Vec::new(alloc);
    for mut phase in phases {
        passes.append(&mut phase)?;
    }
    Ok(passes)
}
