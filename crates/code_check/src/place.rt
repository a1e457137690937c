// The value of a place, where no number on the way to it reaches 2^64.

ghost use Rattle.std.specs.Prelude.{◌≡◌, ◌+◌, ◌*◌, ◌-◌, ◌^◌, ◌<◌, ◌≤◌, length, IsTrue, SomeIff};
ghost use Rattle.icode.specs.Expression.{expr_numbers, part_numbers};
ghost use Rattle.icode.specs.Limits.{is_sum_within, is_part_within};
ghost use Rattle.icode.specs.Plain.{plain_expr, plain_part};

use icode::program::{Expr, Part};

/// The value, where these are the values of the open loops, the outermost first, on this processor.
#[cycle(value)]
pub(crate) fn checked_value(place: &Expr, values: &[u64], proc: u64) -> Option<u64>
    requires { IsTrue (is_sum_within (plain_expr place.now) (length values.now)) }
    ensures { let at = expr_numbers place.now values.now proc in
        SomeIff result (at.peak < 2 ^ 64) at.value }
{
    let mut sum = place.constant;
    for part in &place.parts {
        let Some(value) = checked_part(part, values, proc) else {
            return None;
        };
        let Some(total) = sum.checked_add(value) else {
            return None;
        };
        sum = total;
    }
    Some(sum)
}

#[cycle(value)]
fn checked_part(part: &Part, values: &[u64], proc: u64) -> Option<u64>
    requires { IsTrue (is_part_within (plain_part part.now) (length values.now)) }
    ensures { let at = part_numbers part.now values.now proc in
        SomeIff result (at.peak < 2 ^ 64) at.value }
{
    match part {
        Part::Proc { factor } => proc.checked_mul(*factor),
        Part::Var { depth, factor } => values[*depth as usize].checked_mul(*factor),
        Part::Product {
            outer,
            inner,
            factor,
        } => {
            let Some(both) = values[*outer as usize].checked_mul(values[*inner as usize]) else {
                return None;
            };
            both.checked_mul(*factor)
        }
        Part::Rem {
            of,
            divisor,
            factor,
        } => {
            let Some(inner) = checked_value(of, values, proc) else {
                return None;
            };
            (inner % *divisor).checked_mul(*factor)
        }
        Part::Quot {
            of,
            divisor,
            factor,
        } => {
            let Some(inner) = checked_value(of, values, proc) else {
                return None;
            };
            (inner / *divisor).checked_mul(*factor)
        }
    }
}
