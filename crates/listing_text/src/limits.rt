//! The limits of what stands in a phase.

ghost use Rattle.std.specs.Prelude.{◌≡◌, ℕ, ◌+◌, ◌≤◌, ◌<◌, ◌^◌, MatchOption};
ghost use Rattle.icode.specs.Plain.{MulTable, plain_expr, plain_part, plain_op};
ghost use Rattle.icode.specs.Limits.{is_small, is_small_positive, rank, next_rank, is_sum_within, is_part_within, is_expr_within, is_op_within, sum_parts, part_parts, sum_depth};
ghost use Rattle.listing_text.specs.Acts.{OpFits};

use icode::program::{Expr, Op, Part};

fn is_small(number: u64) -> bool
    ensures { result ≡ is_small number }
{
    number < 1 << 32
}

/// A loop's count, a factor or a divisor.
pub fn is_small_positive(number: u64) -> bool
    ensures { result ≡ is_small_positive number }
{
    0 < number && is_small(number)
}

// Where a part stands among the others.
fn rank(part: &Part) -> u64
    requires { rank (plain_part part.now) < 2 ^ 32 }
    ensures { result ≡ rank (plain_part part.now) }
{
    match part {
        Part::Proc { .. } => 0,
        Part::Var { depth, .. } => 1 + *depth,
        Part::Product { outer, inner, .. } => 65 + (*outer * 64 + *inner),
        Part::Rem { .. } => 5000,
        Part::Quot { .. } => 5001,
    }
}

// The least rank of what may come after it.
fn next_rank(part: &Part) -> u64
    requires { next_rank (plain_part part.now) < 2 ^ 32 }
    ensures { result ≡ next_rank (plain_part part.now) }
{
    match part {
        Part::Proc { .. } => 1,
        Part::Var { depth, .. } => 2 + *depth,
        Part::Product { outer, inner, .. } => 66 + (*outer * 64 + *inner),
        Part::Rem { .. } => 5000,
        Part::Quot { .. } => 5001,
    }
}

#[cycle(limits)]
fn is_sum_within(place: &Expr, loops: u64) -> bool
    requires { loops ≤ 64 }
    ensures { result ≡ is_sum_within (plain_expr place.now) loops }
{
    if !is_small(place.constant) {
        return false;
    }
    let mut least = 0;
    for part in &place.parts {
        if !is_part_within(part, loops) {
            return false;
        }
        if rank(part) < least {
            return false;
        }
        least = next_rank(part);
    }
    true
}

#[cycle(limits)]
fn is_part_within(part: &Part, loops: u64) -> bool
    requires { loops ≤ 64 }
    ensures { result ≡ is_part_within (plain_part part.now) loops }
{
    match part {
        Part::Proc { factor } => is_small_positive(*factor),
        Part::Var { depth, factor } => *depth < loops && is_small_positive(*factor),
        Part::Product {
            outer,
            inner,
            factor,
        } => *outer < *inner && (*inner < loops && is_small_positive(*factor)),
        Part::Rem {
            of,
            divisor,
            factor,
        } => {
            is_sum_within(of, loops) && (is_small_positive(*divisor) && is_small_positive(*factor))
        }
        Part::Quot {
            of,
            divisor,
            factor,
        } => {
            is_sum_within(of, loops) && (is_small_positive(*divisor) && is_small_positive(*factor))
        }
    }
}

// How many of these parts are left, if there are as many as the place has.
#[cycle(counts)]
fn left_of(place: &Expr, parts: u64) -> Option<u64>
    ensures { MatchOption result (parts < sum_parts (plain_expr place.now))
        (λ left. left + sum_parts (plain_expr place.now) ≡ parts) }
{
    let mut left = parts;
    for part in &place.parts {
        match left_of_part(part, left) {
            Some(fewer) => left = fewer,
            None => return None,
        }
    }
    Some(left)
}

#[cycle(counts)]
fn left_of_part(part: &Part, parts: u64) -> Option<u64>
    ensures { MatchOption result (parts < part_parts (plain_part part.now))
        (λ left. left + part_parts (plain_part part.now) ≡ parts) }
{
    if parts == 0 {
        return None;
    }
    match part {
        Part::Rem { of, .. } => left_of(of, parts - 1),
        Part::Quot { of, .. } => left_of(of, parts - 1),
        _ => Some(parts - 1),
    }
}

fn is_expr_within(place: &Expr, loops: u64) -> bool
    requires loops { loops ≤ 64 }
    requires parentheses { sum_depth (plain_expr place.now) ≤ 64 }
    ensures { result ≡ is_expr_within (plain_expr place.now) loops }
{
    is_sum_within(place, loops) && left_of(place, 64).is_some()
}

// A product with factors of a table may stand inside this number of loops, whatever the modulus.
fn is_product_within(
    register: u64,
    source: u64,
    table: u64,
    place: &Expr,
    step: u64,
    loops: u64,
) -> bool
    requires loops { loops ≤ 64 }
    requires parentheses { sum_depth (plain_expr place.now) ≤ 64 }
    ensures { (m : ℕ) → result
        ≡ is_op_within m (MulTable register source table (plain_expr place.now) step) loops }
{
    is_small(register)
        && (is_small(source) && (is_small(table) && (step < 2 && is_expr_within(place, loops))))
}

/// The operation may stand in a program with this modulus, inside `loops` loops.
pub fn is_op_within(modulus: u64, op: &Op, loops: u64) -> bool
    requires loops { loops ≤ 64 }
    requires parentheses { OpFits (plain_op op.now) }
    ensures { result ≡ is_op_within modulus (plain_op op.now) loops }
{
    match op {
        Op::Load {
            register,
            place,
            ..
        } => is_small(*register) && is_expr_within(place, loops),
        Op::Store {
            place,
            register,
            ..
        } => is_small(*register) && is_expr_within(place, loops),
        Op::Zero { register } => is_small(*register),
        Op::Add {
            register,
            left,
            right,
        } => is_small(*register) && (is_small(*left) && is_small(*right)),
        Op::Sub {
            register,
            left,
            right,
        } => is_small(*register) && (is_small(*left) && is_small(*right)),
        Op::Neg { register, source } => is_small(*register) && is_small(*source),
        Op::MulConst {
            register,
            source,
            factor,
        } => is_small(*register) && (is_small(*source) && *factor < modulus),
        Op::MulTable {
            register,
            source,
            table,
            place,
            step,
        } => is_product_within(*register, *source, *table, place, *step, loops),
        Op::Tile { register, source } => is_small(*register) && is_small(*source),
    }
}
