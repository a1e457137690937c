// The parts of linear places: multiples of the processor's number and of the values of loops. Such a place goes as far in each
// round of a loop, so its steps tell which words rounds touch.

ghost use Rattle.std.specs.Prelude.{◌≡◌, ◌+◌, ◌<◌};
ghost use Rattle.icode.specs.Plain.{plain_part};
ghost use Rattle.nests.specs.Places.{are_linear, stride, same_part, same_parts};
ghost use Rattle.nests.specs.Views.{plain_parts};

use icode::program::Part;

fn are_linear_from(least: u128, parts: &[Part]) -> bool
    ensures { result ≡ are_linear least (plain_parts parts.now) }
{
    let Some((part, rest)) = parts.split_first() else {
        return true;
    };
    match part {
        Part::Proc { .. } => least == 0 && are_linear_from(least, rest),
        Part::Var { depth, .. } => {
            let depth = *depth as u128;
            least <= depth && are_linear_from(depth + 1, rest)
        }
        Part::Product { .. } => false,
        Part::Rem { .. } => false,
        Part::Quot { .. } => false,
    }
}

/// Whether they are multiples of the processor's number and, after them, of loops' values alone, by rising depth.
pub fn are_linear(parts: &[Part]) -> bool
    ensures { result ≡ are_linear 0 (plain_parts parts.now) }
{
    are_linear_from(0, parts)
}

/// How far they go in a step of the loop at this depth.
pub fn stride(depth: u64, parts: &[Part]) -> u64
    ensures { result ≡ stride depth (plain_parts parts.now) }
{
    let Some((part, rest)) = parts.split_first() else {
        return 0;
    };
    match part {
        Part::Var { depth: of, factor } => {
            if *of == depth {
                *factor
            } else {
                stride(depth, rest)
            }
        }
        Part::Proc { .. } => stride(depth, rest),
        Part::Product { .. } => stride(depth, rest),
        Part::Rem { .. } => stride(depth, rest),
        Part::Quot { .. } => stride(depth, rest),
    }
}

fn same_part(left: &Part, right: &Part) -> bool
    ensures { result ≡ same_part (plain_part left.now) (plain_part right.now) }
{
    match (left, right) {
        (Part::Proc { factor: a }, Part::Proc { factor: b }) => *a == *b,
        (
            Part::Var {
                depth: v,
                factor: a,
            },
            Part::Var {
                depth: w,
                factor: b,
            },
        ) => *v == *w && *a == *b,
        _ => false,
    }
}

/// Whether both are the same linear parts.
pub fn same_parts(left: &[Part], right: &[Part]) -> bool
    ensures { result ≡ same_parts (plain_parts left.now) (plain_parts right.now) }
{
    match (left.split_first(), right.split_first()) {
        (None, None) => true,
        (Some((a, more)), Some((b, others))) => same_part(a, b) && same_parts(more, others),
        _ => false,
    }
}
