// Which loops a place follows. It follows a loop if it moves by the loop's step from round to round, and stays within that step
// while the loops inside go through all their rounds: then a round touches no word of another round's block.

ghost use Rattle.std.specs.Prelude.{◌≡◌, ◌+◌, ◌^◌, ◌<◌, ◌≤◌, length, nat_le, take, slice_index};
ghost use Rattle.icode.specs.Plain.{plain_part};
ghost use Rattle.nests.specs.Views.{plain_parts};
ghost use Rattle.fused_loops.specs.Blocks.{are_values, most_of, most, is_step, followed};

use icode::program::Part;

/// Whether they are multiples of loops' values alone.
pub(crate) fn are_values(parts: &[Part]) -> bool
    ensures { result ≡ are_values (plain_parts parts.now) }
{
    let Some((part, rest)) = parts.split_first() else {
        return true;
    };
    match part {
        Part::Var { .. } => are_values(rest),
        Part::Proc { .. } => false,
        Part::Product { .. } => false,
        Part::Rem { .. } => false,
        Part::Quot { .. } => false,
    }
}

// The count of the loop at this depth, or 0 if there is none.
fn count_at(counts: &[u64], depth: u64) -> u64
    ensures { result ≡ slice_index counts.now depth }
{
    if depth < counts.len() as u64 {
        counts[depth as usize]
    } else {
        0
    }
}

// The most that a multiple of a loop's value is.
fn most_of(counts: &[u64], part: &Part) -> u128
    ensures { result ≡ most_of counts.now (plain_part part.now) }
{
    match part {
        Part::Var { depth, factor } => {
            count_at(counts, *depth).saturating_sub(1) as u128 * *factor as u128
        }
        Part::Proc { .. } => 0,
        Part::Product { .. } => 0,
        Part::Rem { .. } => 0,
        Part::Quot { .. } => 0,
    }
}

// Whether the most that the parts are is in this room.
fn have_room(counts: &[u64], parts: &[Part], room: u64) -> bool
    ensures { result ≡ nat_le (most counts.now (plain_parts parts.now)) room }
{
    let Some((part, rest)) = parts.split_first() else {
        return true;
    };
    let width = most_of(counts, part);
    width <= room as u128 && have_room(counts, rest, room - width as u64)
}

// Whether `words` words, beside what the parts are, are within the step.
fn stay_within(counts: &[u64], words: u128, parts: &[Part], step: u64) -> bool
    ensures { result ≡ nat_le (words + most counts.now (plain_parts parts.now)) step }
{
    words <= step as u128 && have_room(counts, parts, step - words as u64)
}

fn is_step(depth: u64, step: u64, part: &Part) -> bool
    ensures { result ≡ is_step depth step (plain_part part.now) }
{
    match part {
        Part::Var { depth: of, factor } => *of == depth && *factor == step,
        Part::Proc { .. } => false,
        Part::Product { .. } => false,
        Part::Rem { .. } => false,
        Part::Quot { .. } => false,
    }
}

/// The number of loops, from this depth inward, that a place of `words` words with these parts follows: it moves by the given
/// step in each, and stays within that step in all loops further in.
pub(crate) fn followed(
    counts: &[u64],
    words: u128,
    depth: u64,
    steps: &[u64],
    parts: &[Part],
) -> usize
    requires { depth + length steps.now < 2 ^ 64 }
    ensures few { result ≤ length steps.now }
    ensures front { take result steps.now
        ≡ followed counts.now words depth steps.now (plain_parts parts.now) }
{
    let Some((step, further)) = steps.split_first() else {
        return 0;
    };
    let Some((part, rest)) = parts.split_first() else {
        return 0;
    };
    if !is_step(depth, *step, part) || !stay_within(counts, words, rest, *step) {
        return 0;
    }
    1 + followed(counts, words, depth + 1, further, rest)
}
