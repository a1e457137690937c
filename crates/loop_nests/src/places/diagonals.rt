// A diagonal in a pass, where each place on the way to its factors is within the limits.
ghost use Rattle.std.specs.Prelude.{◌≡◌, ◌^◌, ◌≤◌, [], IfOk, false, length, map, true};
ghost use Rattle.sigma_spl.specs.Merge.{can_multiply, multiplied};
ghost use Rattle.sigma_spl.specs.Nest.{factor_count};
ghost use Rattle.sigma_spl.specs.Views.{plain_factors, plain_nest};
ghost use Rattle.perm_algebra.specs.Views.{plain_sum};
ghost use Rattle.loop_nests.specs.Limits.Leading.{CanCarry};
ghost use Rattle.loop_nests.specs.Limits.Outcomes.{IfMade, IfRefused};
ghost use Rattle.loop_nests.specs.Ready.{AreReady, IsReadyNest};
ghost use Rattle.loop_nests.specs.Views.{plain_pass};
ghost use Rattle.loop_nests.specs.Places.Known.{IsKnownPass};
ghost use Rattle.loop_nests.specs.Places.Multiplied.{functions_of, nest_can_multiply, nest_multiplied, stores_can_carry};
ghost use Rattle.loop_nests.specs.Places.Sides.{IsSideWithin};
ghost use Rattle.loop_nests.specs.Places.Sums.{are_limited, can_carry_all, carried_by};
ghost use Rattle.loop_nests.specs.Places.Views.{mappings_of, multiplied_by, plain_sums};
ghost use Rattle.loop_nests.specs.declared.places.access.Access.TheVariants.{Stores};

use crate::limits::{Limits, carry_within};
use crate::nests::copied_nest;
use crate::places::changes::limits_of;
use index_fn::Index;
use memory::NoMemory;
use perm_algebra::Affine;
use sigma_spl::{Factors, Multiplier, Nest, copied_sums};
use std::alloc::Global;

/// A diagonal, and the functions that lead from a place of a pass to its factor.
#[derive(Drop)]
pub struct Diagonal {
    pub factors: Factors,
    /// How many factors there are.
    pub count: u64,
    pub places: Vec<Index>,
}

// Where these places find their factors, if all places on the way are within the limits.
fn carried_sums(
    alloc: Global,
    functions: &[Index],
    count: u64,
    sums: &[Affine],
    counts: &[u64],
    limits: Limits,
) -> Result<Option<Vec<Affine>>, NoMemory>
    requires can { CanCarry limits.size (mappings_of functions.now) }
    requires size { limits.size ≤ 2 ^ 20 }
    requires ready { AreReady (length counts.now) (map plain_sum sums.now) }
    requires within { are_limited limits.room limits.size counts.now (map plain_sum sums.now)
        ≡ true }
    ensures some { IfMade result (λ places.
        (can_carry_all limits.room limits.size count counts.now (mappings_of functions.now)
        (map plain_sum sums.now) ≡ true)
        × (plain_sums places
        ≡ carried_by counts.now (mappings_of functions.now) (map plain_sum sums.now))) }
    ensures none { IfRefused result (can_carry_all limits.room limits.size count counts.now
        (mappings_of functions.now) (map plain_sum sums.now) ≡ false) }
{
    let mut places = Vec::with_capacity(alloc, sums.len())?;
    for sum in sums {
        match carry_within(alloc, functions, sum, counts, limits, count)? {
            None => return Ok(None),
            Some(place) => places.push(place)?,
        }
    }
    Ok(Some(places))
}

// A copy of the nest with the factors after it, in other memory.
fn multiplied_by(
    alloc: Global,
    factors: &Factors,
    places: Vec<Affine>,
    nest: &Nest,
) -> Result<Nest, NoMemory>
    ensures { IfOk result (λ z. plain_nest z
        ≡ multiplied_by (plain_nest nest.now) (plain_factors factors.now) (plain_sums places)) }
{
    let factors = factors.copied(alloc)?;
    let mut other = copied_nest(alloc, nest)?;
    other.multiplier = Some(Multiplier { factors, places });
    Ok(other)
}

// A nest with the diagonal after it, in place of another.
fn multiplied_anew(
    alloc: Global,
    diagonal: &Diagonal,
    nest: &Nest,
    limits: Limits,
) -> Result<Option<Nest>, NoMemory>
    requires can { CanCarry limits.size (functions_of diagonal.now) }
    requires size { limits.size ≤ 2 ^ 20 }
    requires ready { IsReadyNest (plain_nest nest.now) }
    requires within { IsSideWithin Stores limits.room limits.size (plain_nest nest.now) }
    ensures some { IfMade result (λ z.
        (stores_can_carry limits.room limits.size diagonal.now.count
        (functions_of diagonal.now) (plain_nest nest.now) ≡ true)
        × (plain_nest z ≡ nest_multiplied (plain_factors diagonal.now.factors)
        (functions_of diagonal.now) (plain_nest nest.now))) }
    ensures none { IfRefused result (stores_can_carry limits.room limits.size
        diagonal.now.count (functions_of diagonal.now) (plain_nest nest.now) ≡ false) }
{
    let counts = limits_of(alloc, nest)?;
    let functions = diagonal.places.as_slice();
    let count = diagonal.count;
    match carried_sums(alloc, functions, count, &nest.scatters, &counts, limits)? {
        None => Ok(None),
        Some(places) => {
            let other = multiplied_by(alloc, &diagonal.factors, places, nest)?;
            Ok(Some(other))
        }
    }
}

// A nest with the diagonal after it.
fn multiplied_nest(
    alloc: Global,
    diagonal: &Diagonal,
    nest: &Nest,
    limits: Limits,
) -> Result<Option<Nest>, NoMemory>
    requires can { CanCarry limits.size (functions_of diagonal.now) }
    requires size { limits.size ≤ 2 ^ 20 }
    requires ready { IsReadyNest (plain_nest nest.now) }
    requires within { IsSideWithin Stores limits.room limits.size (plain_nest nest.now) }
    ensures some { IfMade result (λ z.
        (nest_can_multiply limits.room limits.size diagonal.now.count
        (functions_of diagonal.now) (plain_nest nest.now) ≡ true)
        × (plain_nest z ≡ nest_multiplied (plain_factors diagonal.now.factors)
        (functions_of diagonal.now) (plain_nest nest.now))) }
    ensures none { IfRefused result (nest_can_multiply limits.room limits.size
        diagonal.now.count (functions_of diagonal.now) (plain_nest nest.now) ≡ false) }
{
    match &nest.multiplier {
        Some(_) => Ok(None),
        None => {
            let changed = multiplied_anew(alloc, diagonal, nest, limits)?;
            Ok(changed)
        }
    }
}

/// A pass with the diagonal after it, if it has none and can take this one.
pub fn multiplied(
    alloc: Global,
    diagonal: &Diagonal,
    nests: &[Nest],
    limits: Limits,
) -> Result<Option<Vec<Nest>>, NoMemory>
    requires can { CanCarry limits.size (functions_of diagonal.now) }
    requires count { diagonal.now.count ≡ factor_count (plain_factors diagonal.now.factors) }
    requires size { limits.size ≤ 2 ^ 20 }
    requires known { IsKnownPass limits.room limits.size (map plain_nest nests.now) }
    ensures some { IfMade result (λ zs.
        (can_multiply limits.room limits.size (plain_factors diagonal.now.factors)
        (functions_of diagonal.now) (map plain_nest nests.now) ≡ true)
        × (plain_pass zs ≡ multiplied (plain_factors diagonal.now.factors)
        (functions_of diagonal.now) (map plain_nest nests.now))) }
    ensures none { IfRefused result
        (can_multiply limits.room limits.size (plain_factors diagonal.now.factors)
        (functions_of diagonal.now) (map plain_nest nests.now) ≡ false) }
{
    let mut changed = Vec::new(alloc);
    for nest in nests {
        match multiplied_nest(alloc, diagonal, nest, limits)? {
            None => return Ok(None),
            Some(nest) => changed.push(nest)?,
        }
    }
    Ok(Some(changed))
}

/// A pass with a diagonal whose factors stand as the places of its words do.
pub fn multiplied_in_order(
    alloc: Global,
    factors: &Factors,
    nests: &[Nest],
) -> Result<Vec<Nest>, NoMemory>
    ensures { IfOk result (λ zs.
        plain_pass zs ≡ multiplied (plain_factors factors.now) [] (map plain_nest nests.now)) }
{
    let mut changed = Vec::new(alloc);
    for nest in nests {
        changed.push(multiplied_by_place(alloc, factors, nest)?)?;
    }
    Ok(changed)
}

fn multiplied_by_place(alloc: Global, factors: &Factors, nest: &Nest) -> Result<Nest, NoMemory>
    ensures { IfOk result (λ z.
        plain_nest z ≡ nest_multiplied (plain_factors factors.now) [] (plain_nest nest.now)) }
{
    let places = copied_sums(alloc, &nest.scatters)?;
    let other = multiplied_by(alloc, factors, places, nest)?;
    Ok(other)
}
