// The statements of work by rows: in a loop over its rows register 0 becomes a row's sum, and is stored.
ghost use Rattle.std.specs.Prelude.{◌≡◌, ◌+◌, ◌<◌, IfOk};
ghost use Rattle.icode.specs.Plain.{Load, MulTable, Add, plain_expr};
ghost use Rattle.sigma_spl.specs.Views.{plain_nest};
ghost use Rattle.code_gen.specs.Bodies.{horner_rows_at, product_rows_at, rows_at, three_steps};
ghost use Rattle.code_gen.specs.Conditions.{CanStore, HasPlaces};
ghost use Rattle.code_gen.specs.Views.{body_in};

use crate::loop_values::{loop_value, product_place};
use crate::loops::in_loops;
use crate::outputs;
use crate::outputs::put_output;
use crate::site::{Item, Site};
use crate::statements::put_op;
use icode::program::{Array, Expr, Op, Stmt};
use memory::NoMemory;
use sigma_spl::Nest;
use std::alloc::Global;

// An item of the source, times the entry of the powers' table at this place, is added to register 0.
fn term(alloc: Global, site: Site, input: Expr, place: Expr) -> Result<Vec<Stmt>, NoMemory>
    ensures { IfOk result (λ y. body_in y
        ≡ three_steps (Load 1 site.source (plain_expr input))
        (MulTable 2 1 site.powers (plain_expr place) 0) (Add 0 0 2)) }
{
    let mut body = Vec::new(alloc);
    put_op(
        &mut body,
        Op::Load {
            register: 1,
            array: site.source,
            place: input,
        },
    )?;
    put_op(
        &mut body,
        Op::MulTable {
            register: 2,
            source: 1,
            table: site.powers,
            place,
            step: 0,
        },
    )?;
    put_op(
        &mut body,
        Op::Add {
            register: 0,
            left: 0,
            right: 2,
        },
    )?;
    Ok(body)
}

// Register 0 becomes its product by the entry of the powers' table at this place, plus an item of the source.
fn horner_turn(alloc: Global, site: Site, input: Expr, place: Expr) -> Result<Vec<Stmt>, NoMemory>
    ensures { IfOk result (λ y. body_in y
        ≡ three_steps (MulTable 1 0 site.powers (plain_expr place) 0)
        (Load 2 site.source (plain_expr input)) (Add 0 1 2)) }
{
    let mut body = Vec::new(alloc);
    put_op(
        &mut body,
        Op::MulTable {
            register: 1,
            source: 0,
            table: site.powers,
            place,
            step: 0,
        },
    )?;
    put_op(
        &mut body,
        Op::Load {
            register: 2,
            array: site.source,
            place: input,
        },
    )?;
    put_op(
        &mut body,
        Op::Add {
            register: 0,
            left: 1,
            right: 2,
        },
    )?;
    Ok(body)
}

// A number of turns for each of a number of rows.
fn in_rows(
    alloc: Global,
    nest: &Nest,
    size: u64,
    turn: Vec<Stmt>,
    site: Site,
) -> Result<Vec<Stmt>, NoMemory>
    requires shallow { site.open_loops + 2 < 64 }
    requires stores { CanStore 1 (plain_nest nest.now) }
    ensures { IfOk result (λ y. body_in y ≡ rows_at site nest.now size (body_in turn)) }
{
    let mut sum = in_loops(alloc, &[size], turn)?;
    let mut row = Vec::new(alloc);
    put_op(&mut row, Op::Zero { register: 0 })?;
    row.append(&mut sum)?;
    let inner = Site {
        frame: site.frame,
        open_loops: site.open_loops + 1,
        powers: site.powers,
        table: site.table,
        source: site.source,
        target: site.target,
    };
    let item = Item {
        number: 0,
        from: 0,
        free: 3,
    };
    put_output(alloc, &mut row, nest, inner, 0, item)?;
    let rows = in_loops(alloc, &[size], row)?;
    Ok(rows)
}

/// The statements of a longer leaf: each row is the sum of its products.
pub(crate) fn statements_of_rows(
    alloc: Global,
    nest: &Nest,
    size: u64,
    site: Site,
) -> Result<Vec<Stmt>, NoMemory>
    requires shallow { site.open_loops + 2 < 64 }
    requires loads { HasPlaces 1 (plain_nest nest.now).gathers }
    requires stores { CanStore 1 (plain_nest nest.now) }
    ensures { IfOk result (λ y. body_in y ≡ product_rows_at site nest.now size) }
{
    let input = outputs::place_at(alloc, site.frame, &nest.gathers, 0, site.open_loops + 2)?;
    let entry = product_place(alloc, site.open_loops, size)?;
    let turn = term(alloc, site, input, entry)?;
    let rows = in_rows(alloc, nest, size, turn, site)?;
    Ok(rows)
}

/// The statements of a transform by Horner's rule, row by row.
pub(crate) fn statements_of_horner(
    alloc: Global,
    nest: &Nest,
    size: u64,
    site: Site,
) -> Result<Vec<Stmt>, NoMemory>
    requires shallow { site.open_loops + 2 < 64 }
    requires loads { HasPlaces 1 (plain_nest nest.now).gathers }
    requires stores { CanStore 1 (plain_nest nest.now) }
    ensures { IfOk result (λ y. body_in y ≡ horner_rows_at site nest.now size) }
{
    let input = outputs::place_at(alloc, site.frame, &nest.gathers, 0, site.open_loops + 2)?;
    let entry = loop_value(alloc, site.open_loops)?;
    let turn = horner_turn(alloc, site, input, entry)?;
    let rows = in_rows(alloc, nest, size, turn, site)?;
    Ok(rows)
}
