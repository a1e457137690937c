// Places of the factors of a table's entry.

ghost use Rattle.std.specs.Prelude.{◌≡◌, IfOk};
ghost use Rattle.icode.specs.Plain.{plain_expr};
ghost use Rattle.two_tables.specs.Places.{quotient_by, place_in_first, place_in_second};
ghost use Rattle.two_tables.specs.Views.{plain_cut};

use crate::factors::Cut;
use icode::program::{Expr, Part};
use memory::NoMemory;
use std::alloc::Global;

fn quotient_by(alloc: Global, place: &Expr, divisor: u64) -> Result<Expr, NoMemory>
    ensures { IfOk result (λ e. plain_expr e ≡ quotient_by (plain_expr place.now) divisor) }
{
    let of = place.copied(alloc)?;
    let mut parts = Vec::new(alloc);
    parts.push(Part::Quot {
        of,
        divisor,
        factor: 1,
    })?;
    Ok(Expr { constant: 0, parts })
}

pub(crate) fn place_in_first(alloc: Global, cut: Cut, place: &Expr) -> Result<Expr, NoMemory>
    ensures { IfOk result
        (λ e. plain_expr e ≡ place_in_first (plain_cut cut) (plain_expr place.now)) }
{
    let made = quotient_by(alloc, place, cut.width)?;
    Ok(made)
}

pub(crate) fn place_in_second(alloc: Global, cut: Cut, place: &Expr) -> Result<Expr, NoMemory>
    ensures { IfOk result
        (λ e. plain_expr e ≡ place_in_second (plain_cut cut) (plain_expr place.now)) }
{
    let of = place.copied(alloc)?;
    let block = quotient_by(alloc, place, cut.width)?;
    let mut parts = Vec::new(alloc);
    parts.push(Part::Rem {
        of,
        divisor: cut.width,
        factor: 1,
    })?;
    parts.push(Part::Quot {
        of: block,
        divisor: cut.across,
        factor: cut.width,
    })?;
    Ok(Expr { constant: 0, parts })
}
