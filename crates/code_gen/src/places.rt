// Places of a nest as expressions of code.
ghost use Rattle.std.specs.Prelude.{◌≡◌, ◌+◌, ◌==◌, if◌then◌else◌, IfOk};
ghost use Rattle.icode.specs.Plain.{AndParts, Rem, Quot, Var, plain_expr};
ghost use Rattle.code_gen.specs.PassCode.Conditions.{CanWrite};
ghost use Rattle.code_gen.specs.PassCode.Expressions.{expr_of, factor_at, processor_of};
ghost use Rattle.code_gen.specs.PassCode.Expressions.{quotients_of, remainders_of, sum_of};
ghost use Rattle.perm_algebra.specs.Room as room;
ghost use Rattle.perm_algebra.specs.Views.{plain_sum};
ghost use Rattle.code_gen.specs.Views.{parts_in, plain_frame};

use crate::host::Frame;
use icode::program::{Expr, Part};
use memory::NoMemory;
use perm_algebra::Affine;
use std::alloc::Global;

/// The expression of a sum of variables that the frame tells apart, inside `open_loops` loops: the constant, the
/// processor, the variables of the loops by rising depth, each with its parts added up, and then the remainders and the
/// quotients. The lane is left out, so that the place is that of the first lane.
#[cycle(place)]
pub fn place_expr(
    alloc: Global,
    frame: Frame,
    sum: &Affine,
    open_loops: u64,
) -> Result<Expr, NoMemory>
    requires { CanWrite (plain_sum sum.now) }
    ensures { IfOk result (λ e. plain_expr e
        ≡ expr_of (plain_frame frame) open_loops (plain_sum sum.now)) }
{
    let quotients = quotients(alloc, frame, sum, open_loops)?;
    let divisions = remainders(alloc, frame, sum, open_loops, quotients)?;
    let place = with_variables(frame, sum, open_loops, divisions)?;
    Ok(place)
}

// The remainders of a sum before other parts.
#[cycle(place)]
fn remainders(
    alloc: Global,
    frame: Frame,
    sum: &Affine,
    open_loops: u64,
    others: Vec<Part>,
) -> Result<Vec<Part>, NoMemory>
    requires { CanWrite (plain_sum sum.now) }
    ensures { IfOk result (λ parts. parts_in parts
        ≡ remainders_of (plain_frame frame) open_loops (plain_sum sum.now) (parts_in others)) }
{
    match sum {
        Affine::Constant(_) => Ok(others),
        Affine::Variable(_, _, rest) | Affine::Quotient(_, _, _, rest) => {
            let parts = remainders(alloc, frame, rest, open_loops, others)?;
            Ok(parts)
        }
        Affine::Remainder(factor, of, divisor, rest) => {
            let of = place_expr(alloc, frame, of, open_loops)?;
            let parts = remainders(alloc, frame, rest, open_loops, others)?;
            let parts = with_remainder(of, *divisor, *factor, parts)?;
            Ok(parts)
        }
    }
}

// The quotients of a sum.
#[cycle(place)]
fn quotients(
    alloc: Global,
    frame: Frame,
    sum: &Affine,
    open_loops: u64,
) -> Result<Vec<Part>, NoMemory>
    requires { CanWrite (plain_sum sum.now) }
    ensures { IfOk result (λ parts. parts_in parts
        ≡ quotients_of (plain_frame frame) open_loops (plain_sum sum.now)) }
{
    match sum {
        Affine::Constant(_) => Ok(Vec::new(alloc)),
        Affine::Variable(_, _, rest) | Affine::Remainder(_, _, _, rest) => {
            let parts = quotients(alloc, frame, rest, open_loops)?;
            Ok(parts)
        }
        Affine::Quotient(factor, of, divisor, rest) => {
            let of = place_expr(alloc, frame, of, open_loops)?;
            let parts = quotients(alloc, frame, rest, open_loops)?;
            let parts = with_quotient(of, *divisor, *factor, parts)?;
            Ok(parts)
        }
    }
}

// A multiple of a remainder before other parts.
fn with_remainder(
    of: Expr,
    divisor: u64,
    factor: u64,
    others: Vec<Part>,
) -> Result<Vec<Part>, NoMemory>
    ensures { IfOk result (λ parts. parts_in parts
        ≡ AndParts (Rem (plain_expr of) divisor factor) (parts_in others)) }
{
    let mut parts = others;
    parts.insert(
        0,
        Part::Rem {
            of,
            divisor,
            factor,
        },
    )?;
    Ok(parts)
}

// A multiple of a quotient before other parts.
fn with_quotient(
    of: Expr,
    divisor: u64,
    factor: u64,
    others: Vec<Part>,
) -> Result<Vec<Part>, NoMemory>
    ensures { IfOk result (λ parts. parts_in parts
        ≡ AndParts (Quot (plain_expr of) divisor factor) (parts_in others)) }
{
    let mut parts = others;
    parts.insert(
        0,
        Part::Quot {
            of,
            divisor,
            factor,
        },
    )?;
    Ok(parts)
}

// The constant and the variables of a sum, before other parts.
fn with_variables(
    frame: Frame,
    sum: &Affine,
    open_loops: u64,
    others: Vec<Part>,
) -> Result<Expr, NoMemory>
    requires { CanWrite (plain_sum sum.now) }
    ensures { IfOk result (λ e. plain_expr e
        ≡ sum_of (plain_frame frame) open_loops (plain_sum sum.now) (parts_in others)) }
{
    let mut parts = others;
    for depth in (0..open_loops).rev() {
        let factor = factor_of(sum, frame.first_loop, depth);
        parts = with_variable(depth, factor, parts)?;
    }
    let parts = with_processor(frame, sum, parts)?;
    Ok(Expr {
        constant: constant_of(sum),
        parts,
    })
}

// A multiple of a loop's variable before other parts; none where the factor is 0.
fn with_variable(depth: u64, factor: u64, others: Vec<Part>) -> Result<Vec<Part>, NoMemory>
    ensures { IfOk result (λ parts. parts_in parts
        ≡ (if factor == 0 then parts_in others
        else AndParts (Var depth factor) (parts_in others))) }
{
    if factor == 0 {
        return Ok(others);
    }
    let mut parts = others;
    parts.insert(0, Part::Var { depth, factor })?;
    Ok(parts)
}

// The multiple of the processor before other parts, where several share the pass; none where the factor is 0.
fn with_processor(frame: Frame, sum: &Affine, others: Vec<Part>) -> Result<Vec<Part>, NoMemory>
    requires { CanWrite (plain_sum sum.now) }
    ensures { IfOk result (λ parts. parts_in parts
        ≡ processor_of (plain_frame frame) (plain_sum sum.now) (parts_in others)) }
{
    if !frame.shared {
        return Ok(others);
    }
    let factor = factor_of(sum, 0, 0);
    if factor == 0 {
        return Ok(others);
    }
    let mut parts = others;
    parts.insert(0, Part::Proc { factor })?;
    Ok(parts)
}

// The factor of a variable that stands so far after the first one, all its parts together.
fn factor_of(sum: &Affine, first: u64, behind: u64) -> u64
    requires { CanWrite (plain_sum sum.now) }
    ensures { result ≡ factor_at (first + behind) (plain_sum sum.now) }
{
    match sum {
        Affine::Constant(_) => 0,
        Affine::Variable(factor, variable, rest) => {
            let others = factor_of(rest, first, behind);
            if *variable >= first && *variable - first == behind {
                *factor + others
            } else {
                others
            }
        }
        Affine::Remainder(_, _, _, rest) => factor_of(rest, first, behind),
        Affine::Quotient(_, _, _, rest) => factor_of(rest, first, behind),
    }
}

fn constant_of(sum: &Affine) -> u64
    ensures { result ≡ room.constant_of (plain_sum sum.now) }
{
    match sum {
        Affine::Constant(constant) => *constant,
        Affine::Variable(_, _, rest) => constant_of(rest),
        Affine::Remainder(_, _, _, rest) => constant_of(rest),
        Affine::Quotient(_, _, _, rest) => constant_of(rest),
    }
}
