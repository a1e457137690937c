// What a permutation makes of the places of a pass, where that is within the limits.
ghost use Rattle.std.specs.Prelude.{◌≡◌, IfOk, false, length, map, true};
ghost use Rattle.std.specs.List.{list_all};
ghost use Rattle.index_fn.specs.Index.{mapping_of};
ghost use Rattle.index_fn.specs.Mapping.{Mapping};
ghost use Rattle.sigma_spl.specs.Merge.{can_gather, can_scatter, gathered, most, scattered};
ghost use Rattle.sigma_spl.specs.Views.{plain_nest};
ghost use Rattle.perm_algebra.specs.Views.{plain_sum};
ghost use Rattle.loop_nests.specs.Ready.{AreReady, IsReadyNest};
ghost use Rattle.loop_nests.specs.Views.{plain_pass};
ghost use Rattle.loop_nests.specs.Limits.Outcomes.{IfMade, IfRefused};
ghost use Rattle.loop_nests.specs.Places.Changes.{ForMade, ForRefused};
ghost use Rattle.loop_nests.specs.Places.Known.{IsKnownPass, IsPlaceFunction};
ghost use Rattle.loop_nests.specs.Places.Sides.{IsSideWithin, can_change, changed, nest_can_take, places_by};
ghost use Rattle.loop_nests.specs.Places.Sums.{all_limits, are_limited, can_lead_all, led_by};
ghost use Rattle.loop_nests.specs.Places.Views.{plain_sums};

use crate::limits::{Limits, simplify_within};
use crate::places::access::{Access, places_of, put_places};
use index_fn::Index;
use memory::NoMemory;
use perm_algebra::Affine;
use sigma_spl::{Nest, limits};
use smallvec::SmallVec;
use std::alloc::Global;

/// A pass with a function in its places, or as it was.
#[derive(Drop)]
pub enum Change {
    Made(Vec<Nest>),
    Refused(Vec<Nest>),
}

/// A pass with a gather in its loads, if that is within the limits.
pub fn gathered(
    alloc: Global,
    f: &Index,
    nests: Vec<Nest>,
    limits: Limits,
) -> Result<Change, NoMemory>
    requires leads { IsPlaceFunction limits.size (mapping_of f.now) }
    requires known { IsKnownPass limits.room limits.size (plain_pass nests) }
    ensures made { IfOk result (λ r. ForMade r (λ zs.
        (can_gather (most limits.room) limits.size (mapping_of f.now) (plain_pass nests) ≡ true)
        × (zs ≡ gathered (mapping_of f.now) (plain_pass nests)))) }
    ensures refused { IfOk result (λ r. ForRefused r (λ zs.
        (can_gather (most limits.room) limits.size (mapping_of f.now) (plain_pass nests) ≡ false)
        × (zs ≡ plain_pass nests))) }
{
    let change = changed(alloc, Access::Loads, f, nests, limits)?;
    Ok(change)
}

/// A pass with a scatter in its stores, if that is within the limits.
pub fn scattered(
    alloc: Global,
    f: &Index,
    nests: Vec<Nest>,
    limits: Limits,
) -> Result<Change, NoMemory>
    requires leads { IsPlaceFunction limits.size (mapping_of f.now) }
    requires known { IsKnownPass limits.room limits.size (plain_pass nests) }
    ensures made { IfOk result (λ r. ForMade r (λ zs.
        (can_scatter (most limits.room) limits.size (mapping_of f.now) (plain_pass nests) ≡ true)
        × (zs ≡ scattered (mapping_of f.now) (plain_pass nests)))) }
    ensures refused { IfOk result (λ r. ForRefused r (λ zs.
        (can_scatter (most limits.room) limits.size (mapping_of f.now) (plain_pass nests) ≡ false)
        × (zs ≡ plain_pass nests))) }
{
    let change = changed(alloc, Access::Stores, f, nests, limits)?;
    Ok(change)
}

// A pass with a function in its places on one side, if that is within the limits.
fn changed(
    alloc: Global,
    access: Access,
    f: &Index,
    nests: Vec<Nest>,
    limits: Limits,
) -> Result<Change, NoMemory>
    requires leads { IsPlaceFunction limits.size (mapping_of f.now) }
    requires known { IsKnownPass limits.room limits.size (plain_pass nests) }
    ensures made { IfOk result (λ r. ForMade r (λ zs.
        (can_change access limits.room limits.size (mapping_of f.now) (plain_pass nests) ≡ true)
        × (zs ≡ changed access (mapping_of f.now) (plain_pass nests)))) }
    ensures refused { IfOk result (λ r. ForRefused r (λ zs.
        (can_change access limits.room limits.size (mapping_of f.now) (plain_pass nests) ≡ false)
        × (zs ≡ plain_pass nests))) }
{
    match all_places_by(alloc, access, f, &nests, limits)? {
        None => Ok(Change::Refused(nests)),
        Some(places) => {
            let mut nests = nests;
            let mut places = places;
            put_all_places(access, &mut nests, &mut places);
            Ok(Change::Made(nests))
        }
    }
}

// Where the function leads the places of each nest, if all of them are within the limits.
fn all_places_by(
    alloc: Global,
    access: Access,
    f: &Index,
    nests: &[Nest],
    limits: Limits,
) -> Result<Option<Vec<Vec<Affine>>>, NoMemory>
    requires leads { IsPlaceFunction limits.size (mapping_of f.now) }
    requires known { IsKnownPass limits.room limits.size (map plain_nest nests.now) }
    ensures some { IfMade result (λ all.
        (list_all (nest_can_take access limits.room limits.size (mapping_of f.now))
        (map plain_nest nests.now) ≡ true)
        × (map plain_sums all.items
        ≡ map (places_by access (mapping_of f.now)) (map plain_nest nests.now))) }
    ensures none { IfRefused result
        (list_all (nest_can_take access limits.room limits.size (mapping_of f.now))
        (map plain_nest nests.now) ≡ false) }
{
    let mut all = Vec::new(alloc);
    for nest in nests {
        match places_by(alloc, access, f, nest, limits)? {
            None => return Ok(None),
            Some(places) => all.push(places)?,
        }
    }
    Ok(Some(all))
}

// Where the function leads the places of a nest.
fn places_by(
    alloc: Global,
    access: Access,
    f: &Index,
    nest: &Nest,
    limits: Limits,
) -> Result<Option<Vec<Affine>>, NoMemory>
    requires leads { IsPlaceFunction limits.size (mapping_of f.now) }
    requires ready { IsReadyNest (plain_nest nest.now) }
    requires within { IsSideWithin access limits.room limits.size (plain_nest nest.now) }
    ensures some { IfMade result (λ places.
        (nest_can_take access limits.room limits.size (mapping_of f.now) (plain_nest nest.now)
        ≡ true)
        × (plain_sums places ≡ places_by access (mapping_of f.now) (plain_nest nest.now))) }
    ensures none { IfRefused result
        (nest_can_take access limits.room limits.size (mapping_of f.now) (plain_nest nest.now)
        ≡ false) }
{
    let counts = limits_of(alloc, nest)?;
    let places = simplified_sums(alloc, f, places_of(access, nest), &counts, limits)?;
    Ok(places)
}

/// What the variables of a nest run below.
pub(crate) fn limits_of(alloc: Global, nest: &Nest) -> Result<SmallVec<u64, 10>, NoMemory>
    requires { IsReadyNest (plain_nest nest.now) }
    ensures { IfOk result (λ counts. counts.items ≡ all_limits (plain_nest nest.now)) }
{
    let limits = limits(alloc, &nest.counts, nest.work.size())?;
    Ok(limits)
}

// The function at each of these places, if all of them are within the limits.
fn simplified_sums(
    alloc: Global,
    f: &Index,
    sums: &[Affine],
    counts: &[u64],
    limits: Limits,
) -> Result<Option<Vec<Affine>>, NoMemory>
    requires leads { IsPlaceFunction limits.size (mapping_of f.now) }
    requires ready { AreReady (length counts.now) (map plain_sum sums.now) }
    requires within { are_limited limits.room limits.size counts.now (map plain_sum sums.now)
        ≡ true }
    ensures some { IfMade result (λ places.
        (can_lead_all limits.room limits.size counts.now (mapping_of f.now) (map plain_sum sums.now)
        ≡ true)
        × (plain_sums places ≡ led_by counts.now (mapping_of f.now) (map plain_sum sums.now))) }
    ensures none { IfRefused result
        (can_lead_all limits.room limits.size counts.now (mapping_of f.now) (map plain_sum sums.now)
        ≡ false) }
{
    let mut places = Vec::with_capacity(alloc, sums.len())?;
    for sum in sums {
        match simplify_within(alloc, f, sum, counts, limits)? {
            None => return Ok(None),
            Some(place) => places.push(place)?,
        }
    }
    Ok(Some(places))
}

// The nests get the given places on that side.
fn put_all_places(access: Access, nests: &mut [Nest], places: &mut [Vec<Affine>])
    ensures { (f : Mapping)
        → map plain_sums places.old ≡ map (places_by access f) (map plain_nest nests.old)
        → map plain_nest nests.new ≡ changed access f (map plain_nest nests.old) }
{
    match nests.split_first_mut() {
        None => (),
        Some((nest, nests)) => match places.split_first_mut() {
            None => (),
            Some((own, places)) => {
                put_places(access, nest, own);
                put_all_places(access, nests, places);
            }
        },
    }
}
