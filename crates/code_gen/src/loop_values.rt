// Places that loops' values make.
ghost use Rattle.std.specs.Prelude.{◌≡◌, ◌^◌, ◌<◌, IfOk};
ghost use Rattle.icode.specs.Plain.{plain_expr};
ghost use Rattle.icode.specs.Plain as plain;
ghost use Rattle.code_gen.specs.PassCode.Statements as statements;

use icode::program::{Expr, Part};
use memory::NoMemory;
use std::alloc::Global;

// A place of one part.
fn place_of(alloc: Global, part: Part) -> Result<Expr, NoMemory>
    ensures { IfOk result (λ e. plain_expr e
        ≡ plain.Sum 0 (plain.AndParts (plain.plain_part part) plain.NoParts)) }
{
    let mut parts = Vec::new(alloc);
    parts.push(part)?;
    Ok(Expr { constant: 0, parts })
}

/// The value of the loop at this depth.
pub(crate) fn loop_value(alloc: Global, depth: u64) -> Result<Expr, NoMemory>
    ensures { IfOk result (λ e. plain_expr e ≡ statements.loop_value depth) }
{
    let place = place_of(alloc, Part::Var { depth, factor: 1 })?;
    Ok(place)
}

/// The product of the values of the loops at this depth and the next, modulo the size.
pub(crate) fn product_place(alloc: Global, depth: u64, size: u64) -> Result<Expr, NoMemory>
    requires { depth < 2 ^ 32 }
    ensures { IfOk result (λ e. plain_expr e ≡ statements.product_place depth size) }
{
    let product = place_of(
        alloc,
        Part::Product {
            outer: depth,
            inner: depth + 1,
            factor: 1,
        },
    )?;
    let place = place_of(
        alloc,
        Part::Rem {
            of: product,
            divisor: size,
            factor: 1,
        },
    )?;
    Ok(place)
}
