// Nests of a part, under tensors after the words before it.
ghost use Rattle.std.specs.Prelude.{◌≡◌, ◌+◌, ◌-◌, ◌^◌, ◌<◌, ◌++◌, IfOk, All, OnOk, length, map};
ghost use Rattle.std.specs.Option.{option_map};
ghost use Rattle.sigma_spl.specs.Merge.{lifted, renumbered, renumbered_places};
ghost use Rattle.sigma_spl.specs.Views.{plain_multiplier, plain_nest};
ghost use Rattle.perm_algebra.specs.Affine.{constant, added};
ghost use Rattle.perm_algebra.specs.Room.{CanAdd};
ghost use Rattle.perm_algebra.specs.Views.{plain_sum};
ghost use Rattle.operators.specs.Paths.Tensors.{count_of};
ghost use Rattle.loop_nests.specs.Lifted.{AllFit, AllLift, AreCounted, CanLift, CanRaise, IsCounted, SumsFit, behind, raised};

use crate::placed::{placed, renumber};
use memory::NoMemory;
use operators::Tensor;
use perm_algebra::{Affine, both, copy};
use sigma_spl::{Multiplier, Nest, counts};
use smallvec::SmallVec;
use std::alloc::Global;
use std::mem::replace;

/// Nests of a part that begins `before` words later, under the tensors of a path round `size` words.
pub(crate) fn lift_nests(
    alloc: Global,
    path: &[Tensor],
    size: u64,
    before: u64,
    nests: &mut [Nest],
) -> Result<(), NoMemory>
    requires { AllLift path.now size before (map plain_nest nests.old) }
    ensures { OnOk result (map plain_nest nests.new
        ≡ map (lifted path.now size before) (map plain_nest nests.old)) }
{
    match nests.split_first_mut() {
        None => Ok(()),
        Some((nest, rest)) => {
            lift(alloc, path, size, before, nest)?;
            lift_nests(alloc, path, size, before, rest)?;
            Ok(())
        }
    }
}

fn lift(
    alloc: Global,
    path: &[Tensor],
    size: u64,
    before: u64,
    nest: &mut Nest,
) -> Result<(), NoMemory>
    requires { CanLift path.now size before (plain_nest nest.old) }
    ensures { OnOk result
        (plain_nest nest.new ≡ lifted path.now size before (plain_nest nest.old)) }
{
    nest.counts = counts_round(alloc, path, &nest.counts)?;
    nest.gathers = all_raised(alloc, path, size, before, &nest.gathers)?;
    count_on(path.len() as u64, &mut nest.multiplier);
    nest.scatters = all_raised(alloc, path, size, before, &nest.scatters)?;
    Ok(())
}

// The counts of the path's loops, and these.
fn counts_round(alloc: Global, path: &[Tensor], inner: &[u64]) -> Result<SmallVec<u64, 8>, NoMemory>
    ensures { IfOk result (λ all. all.items ≡ map count_of path.now ++ inner.now) }
{
    let mut all = counts(alloc, path)?;
    all.extend_from_slice(inner)?;
    Ok(all)
}

fn all_raised(
    alloc: Global,
    path: &[Tensor],
    size: u64,
    before: u64,
    sums: &[Affine],
) -> Result<Vec<Affine>, NoMemory>
    requires { All (λ e.
        CanRaise (2 ^ 64 - length path.now) path.now size before (plain_sum e)) sums.now }
    ensures { IfOk result (λ es.
        map plain_sum es.items ≡ map (raised path.now size before) (map plain_sum sums.now)) }
{
    let mut places = Vec::with_capacity(alloc, sums.len())?;
    for sum in sums {
        let place = raised(alloc, path, size, before, sum)?;
        places.push(place)?;
    }
    Ok(places)
}

// A place of the part, in the whole.
fn raised(
    alloc: Global,
    path: &[Tensor],
    size: u64,
    before: u64,
    sum: &Affine,
) -> Result<Affine, NoMemory>
    requires { CanRaise (2 ^ 64 - length path.now) path.now size before (plain_sum sum.now) }
    ensures { IfOk result (λ e. plain_sum e ≡ raised path.now size before (plain_sum sum.now)) }
{
    let mut higher = copy(alloc, sum)?;
    renumber(path.len() as u64, &mut higher);
    let behind = both(Affine::Constant(before), higher);
    let place = placed(alloc, path, size, 0, behind)?;
    Ok(place)
}

// The variables at the places of a diagonal's factors get higher numbers.
fn count_on(by: u64, multiplier: &mut Option<Multiplier>)
    requires { IsCounted (2 ^ 64 - by) (option_map plain_multiplier multiplier.old) }
    ensures { option_map plain_multiplier multiplier.new
        ≡ renumbered_places by (option_map plain_multiplier multiplier.old) }
{
    match multiplier {
        None => (),
        Some(multiplier) => renumber_all(by, &mut multiplier.places),
    }
}

fn renumber_all(by: u64, sums: &mut [Affine])
    requires { AreCounted (2 ^ 64 - by) (map plain_sum sums.old) }
    ensures { map plain_sum sums.new ≡ map (renumbered by) (map plain_sum sums.old) }
{
    match sums.split_first_mut() {
        None => (),
        Some((sum, rest)) => {
            renumber(by, sum);
            renumber_all(by, rest);
        }
    }
}

/// Nests of a part that begins `before` words later.
pub(crate) fn raise_nests(before: u64, nests: &mut [Nest])
    requires { AllFit before (map plain_nest nests.old) }
    ensures { map plain_nest nests.new ≡ map (behind before) (map plain_nest nests.old) }
{
    match nests.split_first_mut() {
        None => (),
        Some((nest, rest)) => {
            raise_sums(before, &mut nest.gathers);
            raise_sums(before, &mut nest.scatters);
            raise_nests(before, rest);
        }
    }
}

fn raise_sums(before: u64, sums: &mut [Affine])
    requires { SumsFit before (map plain_sum sums.old) }
    ensures { map plain_sum sums.new ≡ map (added (constant before)) (map plain_sum sums.old) }
{
    match sums.split_first_mut() {
        None => (),
        Some((sum, rest)) => {
            raise_sum(before, sum);
            raise_sums(before, rest);
        }
    }
}

fn raise_sum(before: u64, sum: &mut Affine)
    requires { CanAdd (constant before) (plain_sum sum.old) }
    ensures { plain_sum sum.new ≡ added (constant before) (plain_sum sum.old) }
{
    let here = replace(sum, Affine::Constant(0));
    *sum = both(Affine::Constant(before), here);
}
