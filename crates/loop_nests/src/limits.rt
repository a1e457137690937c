// Sums within the limits of programs: tests, and index functions at sums that stay within them.
mod rooms;

ghost use Rattle.std.specs.Prelude.{◌≡◌, ◌+◌, ◌*◌, ◌-◌, ◌^◌, ◌<◌, ◌≤◌, ◌↔◌, IsTrue, nat_lt, true, false, map, slice_index};
ghost use Rattle.std.specs.Option.{ForNone, ForSome};
ghost use Rattle.index_fn.specs.Index.{mapping_of};
ghost use Rattle.index_fn.specs.Mapping.{IsDefinedAt, IsWellFormed, at};
ghost use Rattle.sigma_spl.specs.Merge.{all_simplified, are_small, carries_sum, is_divided, total};
ghost use Rattle.perm_algebra.specs.Affine.{HasNoList, levels, parts, peak, top};
ghost use Rattle.perm_algebra.specs.Contract.{EachValue, FitsOver, IsImage, IsSimplified, IsSumOver};
ghost use Rattle.perm_algebra.specs.Room.{has_top};
ghost use Rattle.perm_algebra.specs.Views.{plain_sum};
ghost use Rattle.loop_nests.specs.Limits.Contract.{has_room_over, is_within};
ghost use Rattle.loop_nests.specs.Limits.Leading.{CanCarry, can_lead};
ghost use Rattle.loop_nests.specs.Limits.Outcomes.{IfMade, IfRefused};

use index_fn::Index;
use memory::NoMemory;
use perm_algebra::{Affine, copy};
use rooms::simplify_in_room;
use std::alloc::Global;

/// What a place may be.
#[derive(Clone, Copy, Debug)]
pub struct Limits {
    /// How many words the array has that it names.
    pub size: u64,
    /// How many parts it may have at all levels, but for the constants.
    pub room: u64,
}

/// The function `f` at the place `arg`, where the variable d runs below `counts[d]`, if that is within the limits and
/// every number on the way fits 64 bits.
pub fn simplify_within(
    alloc: Global,
    f: &Index,
    arg: &Affine,
    counts: &[u64],
    limits: Limits,
) -> Result<Option<Affine>, NoMemory>
    requires formed { IsWellFormed (mapping_of f.now) }
    requires no_list { HasNoList (mapping_of f.now) }
    requires affine { IsSumOver counts.now arg.now }
    requires fits { FitsOver counts.now arg.now }
    requires defined { EachValue counts.now (IsDefinedAt (mapping_of f.now)) arg.now }
    ensures some { IfMade result (IsSimplified counts.now (mapping_of f.now) arg.now) }
    ensures room { IfMade result
        (λ sum. has_room_over counts.now (mapping_of f.now) arg.now ≡ true) }
    ensures limited { IfMade result (λ sum. is_within counts.now limits sum ≡ true) }
    ensures none { IfRefused result (can_lead limits.room limits.size (slice_index counts.now)
        (mapping_of f.now) (plain_sum arg.now) ≡ false) }
    ensures value { IfMade result (IsImage counts.now (at (mapping_of f.now)) arg.now) }
    ensures affine { IfMade result (IsSumOver counts.now) }
    ensures fits { IfMade result (FitsOver counts.now) }
{
    match simplify_in_room(alloc, f, arg, counts)? {
        None => Ok(None),
        Some(sum) => {
            if is_within(counts, &sum, limits) {
                Ok(Some(sum))
            } else {
                Ok(None)
            }
        }
    }
}

/// The functions one after the other at the place `arg`, if each place on the way is within the limits, the last one
/// is below `count`, and every number in between fits 64 bits.
pub fn carry_within(
    alloc: Global,
    functions: &[Index],
    arg: &Affine,
    counts: &[u64],
    limits: Limits,
    count: u64,
) -> Result<Option<Affine>, NoMemory>
    requires can { CanCarry limits.size (map mapping_of functions.now) }
    requires affine { IsSumOver counts.now arg.now }
    ensures some { IfMade result (λ sum. plain_sum sum ≡ all_simplified (slice_index counts.now)
        (map mapping_of functions.now) (plain_sum arg.now)) }
    ensures carries { IfMade result (λ sum. carries_sum limits.room limits.size count
        (slice_index counts.now) (map mapping_of functions.now) (plain_sum arg.now) ≡ true) }
    ensures none { IfRefused result (carries_sum limits.room limits.size count
        (slice_index counts.now) (map mapping_of functions.now) (plain_sum arg.now) ≡ false) }
    ensures affine { IfMade result (IsSumOver counts.now) }
{
    match functions.split_first() {
        None => {
            let last = Limits {
                size: count,
                room: limits.room,
            };
            if is_within(counts, arg, last) {
                let place = copy(alloc, arg)?;
                Ok(Some(place))
            } else {
                Ok(None)
            }
        }
        Some((f, rest)) => {
            if !is_within(counts, arg, limits) {
                return Ok(None);
            }
            match simplify_in_room(alloc, f, arg, counts)? {
                None => Ok(None),
                Some(next) => {
                    let place = carry_within(alloc, rest, &next, counts, limits, count)?;
                    Ok(place)
                }
            }
        }
    }
}

/// Whether a place is within the limits: the test of merging.
pub fn is_within(counts: &[u64], sum: &Affine, limits: Limits) -> bool
    requires { IsSumOver counts.now sum.now }
    ensures { IsTrue result ↔ (is_within counts.now limits sum.now ≡ true) }
{
    if let Affine::Constant(number) = sum {
        return *number < limits.size && is_small(*number);
    }
    if !is_short(sum, limits.room) || !is_flat(sum, 64) || greatest_factor(sum) >= limits.size {
        return false;
    }
    if !are_small(counts, sum) {
        return false;
    }
    match top_of(counts, sum) {
        None => false,
        Some(top) => top < limits.size,
    }
}

// Whether a sum has at most `room` parts.
fn is_short(sum: &Affine, room: u64) -> bool
    ensures { IsTrue result ↔ (parts (plain_sum sum.now) ≤ room) }
{
    room_after(sum, room).is_some()
}

// How much room the parts of a sum leave.
fn room_after(sum: &Affine, room: u64) -> Option<u64>
    ensures some { ForSome result (λ left. parts (plain_sum sum.now) + left ≡ room) }
    ensures none { ForNone result (room < parts (plain_sum sum.now)) }
{
    match sum {
        Affine::Constant(_) => Some(room),
        Affine::Variable(_, _, rest) => {
            if room == 0 {
                return None;
            }
            room_after(rest, room - 1)
        }
        Affine::Remainder(_, of, _, rest) | Affine::Quotient(_, of, _, rest) => {
            if room == 0 {
                return None;
            }
            match room_after(of, room - 1) {
                None => None,
                Some(left) => room_after(rest, left),
            }
        }
    }
}

// Whether remainders and quotients stand at most so deep in one another.
fn is_flat(sum: &Affine, depth: u64) -> bool
    ensures { IsTrue result ↔ (levels (plain_sum sum.now) ≤ depth) }
{
    match sum {
        Affine::Constant(_) => true,
        Affine::Variable(_, _, rest) => is_flat(rest, depth),
        Affine::Remainder(_, of, _, rest) | Affine::Quotient(_, of, _, rest) => {
            depth != 0 && is_flat(of, depth - 1) && is_flat(rest, depth)
        }
    }
}

// The greatest of the constant and the outer factors.
fn greatest_factor(sum: &Affine) -> u64
    ensures { result ≡ peak (plain_sum sum.now) }
{
    match sum {
        Affine::Constant(c) => *c,
        Affine::Variable(factor, _, rest)
        | Affine::Remainder(factor, _, _, rest)
        | Affine::Quotient(factor, _, _, rest) => greatest_factor(rest).max(*factor),
    }
}

// The constant and the factors, all together, if they fit a word.
fn total(sum: &Affine) -> Option<u64>
    ensures some { ForSome result (λ t. t ≡ total (plain_sum sum.now)) }
    ensures none { ForNone result (2 ^ 64 ≤ total (plain_sum sum.now)) }
{
    match sum {
        Affine::Constant(c) => Some(*c),
        Affine::Variable(factor, _, rest)
        | Affine::Remainder(factor, _, _, rest)
        | Affine::Quotient(factor, _, _, rest) => match total(rest) {
            None => None,
            Some(rest) => factor.checked_add(rest),
        },
    }
}

// A bound on the values of a sum, if it fits a word.
fn top_of(counts: &[u64], sum: &Affine) -> Option<u64>
    requires { IsSumOver counts.now sum.now }
    ensures some { ForSome result (λ t. t ≡ top (plain_sum sum.now) (slice_index counts.now)) }
    ensures none { ForNone result (are_small (slice_index counts.now) (plain_sum sum.now) ≡ true
        → 2 ^ 64 ≤ top (plain_sum sum.now) (slice_index counts.now)) }
    ensures room { ForSome result (λ t.
        has_top (slice_index counts.now) (plain_sum sum.now) ≡ true) }
    ensures no_room { ForNone result
        (has_top (slice_index counts.now) (plain_sum sum.now) ≡ false) }
{
    match sum {
        Affine::Constant(c) => Some(*c),
        Affine::Variable(factor, variable, rest) => {
            let most = counts[*variable as usize].saturating_sub(1);
            match top_of(counts, rest) {
                None => None,
                Some(rest) => times_and(*factor, most, rest),
            }
        }
        Affine::Remainder(factor, _, divisor, rest) => match top_of(counts, rest) {
            None => None,
            Some(rest) => times_and(*factor, *divisor - 1, rest),
        },
        Affine::Quotient(factor, of, divisor, rest) => {
            match (top_of(counts, of), top_of(counts, rest)) {
                (Some(of), Some(rest)) => times_and(*factor, of / *divisor, rest),
                _ => None,
            }
        }
    }
}

// A number times another, and one more, if that fits a word.
fn times_and(factor: u64, most: u64, rest: u64) -> Option<u64>
    ensures some { ForSome result (λ t. t ≡ factor * most + rest) }
    ensures none { ForNone result (2 ^ 64 ≤ factor * most + rest) }
{
    match factor.checked_mul(most) {
        None => None,
        Some(product) => product.checked_add(rest),
    }
}

// Whether the numbers at all levels are small.
fn are_small(counts: &[u64], sum: &Affine) -> bool
    requires { IsSumOver counts.now sum.now }
    ensures { IsTrue result ↔ (are_small (slice_index counts.now) (plain_sum sum.now) ≡ true) }
{
    match sum {
        Affine::Constant(c) => is_small(*c),
        Affine::Variable(factor, _, rest) => is_small(*factor) && are_small(counts, rest),
        Affine::Remainder(factor, of, divisor, rest)
        | Affine::Quotient(factor, of, divisor, rest) => {
            are_small(counts, of)
                && is_divided(counts, *factor, of, *divisor)
                && are_small(counts, rest)
        }
    }
}

// Whether a part may divide this sum.
fn is_divided(counts: &[u64], factor: u64, of: &Affine, divisor: u64) -> bool
    requires affine { IsSumOver counts.now of.now }
    requires small { are_small (slice_index counts.now) (plain_sum of.now) ≡ true }
    ensures { IsTrue result
        ↔ (is_divided (slice_index counts.now) factor (plain_sum of.now) divisor ≡ true) }
{
    if factor == 0 || !is_small(factor) || divisor == 0 || !is_small(divisor) {
        return false;
    }
    match total(of) {
        None => false,
        Some(total) => is_small(total) && top_of(counts, of).is_some(),
    }
}

fn is_small(number: u64) -> bool
    ensures { result ≡ nat_lt number (2 ^ 32) }
{
    number < 1 << 32
}
