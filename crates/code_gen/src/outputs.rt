// Stores of a nest, with the products before them.
ghost use Rattle.std.specs.Prelude.{◌≡◌, ◌+◌, IfOk, OnOk, map};
ghost use Rattle.icode.specs.Plain.{MulConst, MulTable, Store, plain_expr};
ghost use Rattle.code_gen.specs.PassCode.Statements as statements;
ghost use Rattle.sigma_spl.specs.Views.{plain_multiplier, plain_nest};
ghost use Rattle.perm_algebra.specs.Views.{plain_sum};
ghost use Rattle.code_gen.specs.Bodies.{Appends, AppendsOp, product_at, stored_at};
ghost use Rattle.code_gen.specs.Conditions.{CanStore, HasPlaces};
ghost use Rattle.code_gen.specs.Views.{plain_frame};

use crate::factors::one_factor;
use crate::host::Frame;
use crate::places::place_expr;
use crate::site::{Item, Site};
use crate::statements::put_op;
use icode::program::{Array, Expr, Op, Stmt};
use memory::NoMemory;
use perm_algebra::Affine;
use sigma_spl::{Multiplier, Nest};
use std::alloc::Global;

/// The place of a register.
pub(crate) fn place_at(
    alloc: Global,
    frame: Frame,
    sums: &[Affine],
    item: u64,
    open_loops: u64,
) -> Result<Expr, NoMemory>
    requires { HasPlaces (item + 1) (map plain_sum sums.now) }
    ensures { IfOk result (λ e. let places = map plain_sum sums.now in
        plain_expr e ≡ statements.place_at (plain_frame frame) open_loops places item) }
{
    let place = place_expr(alloc, frame, &sums[item as usize], open_loops)?;
    Ok(place)
}

fn put_store(out: &mut Vec<Stmt>, array: Array, place: Expr, register: u64) -> Result<(), NoMemory>
    ensures { OnOk result (AppendsOp out.old out.new (Store array (plain_expr place) register)) }
{
    put_op(
        out,
        Op::Store {
            array,
            place,
            register,
        },
    )?;
    Ok(())
}

// Appends the product of an item's register and a factor.
fn put_multiple(out: &mut Vec<Stmt>, item: Item, factor: u64) -> Result<(), NoMemory>
    ensures { OnOk result (AppendsOp out.old out.new (MulConst item.free item.from factor)) }
{
    put_op(
        out,
        Op::MulConst {
            register: item.free,
            source: item.from,
            factor,
        },
    )?;
    Ok(())
}

// Appends the product of an item's register and entries of a table, of which the first has this place.
fn put_product(
    out: &mut Vec<Stmt>,
    item: Item,
    table: u64,
    place: Expr,
    step: u64,
) -> Result<(), NoMemory>
    ensures { OnOk result (AppendsOp out.old out.new
        (MulTable item.free item.from table (plain_expr place) step)) }
{
    put_op(
        out,
        Op::MulTable {
            register: item.free,
            source: item.from,
            table,
            place,
            step,
        },
    )?;
    Ok(())
}

// Appends the product of an item's register and the one factor of a diagonal, or entries of its table.
fn put_multiplied(
    alloc: Global,
    out: &mut Vec<Stmt>,
    multiplier: &Multiplier,
    site: Site,
    step: u64,
    item: Item,
) -> Result<(), NoMemory>
    requires { HasPlaces (item.number + 1) (plain_multiplier multiplier.now).places }
    ensures { OnOk result (AppendsOp out.old out.new (product_at site step multiplier.now item)) }
{
    let sums = &multiplier.places;
    match one_factor(&multiplier.factors) {
        Some(factor) => {
            put_multiple(out, item, factor)?;
            Ok(())
        }
        None => {
            let place = place_at(alloc, site.frame, sums, item.number, site.open_loops)?;
            put_product(out, item, site.table, place, step)?;
            Ok(())
        }
    }
}

/// Appends the store of an item, multiplied where the nest has a diagonal. The factors of two lanes that lie side by
/// side stand `step` steps apart.
pub(crate) fn put_output(
    alloc: Global,
    out: &mut Vec<Stmt>,
    nest: &Nest,
    site: Site,
    step: u64,
    item: Item,
) -> Result<(), NoMemory>
    requires { CanStore (item.number + 1) (plain_nest nest.now) }
    ensures { OnOk result (Appends out.old out.new
        (stored_at site step nest.now item.number item.from item.free)) }
{
    let Site {
        frame,
        open_loops,
        target,
        ..
    } = site;
    let place = place_at(alloc, frame, &nest.scatters, item.number, open_loops)?;
    match &nest.multiplier {
        None => {
            put_store(out, target, place, item.from)?;
            Ok(())
        }
        Some(multiplier) => {
            put_multiplied(alloc, out, multiplier, site, step, item)?;
            put_store(out, target, place, item.free)?;
            Ok(())
        }
    }
}
