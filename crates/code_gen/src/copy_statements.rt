// The statements of copies.
ghost use Rattle.std.specs.Prelude.{◌≡◌, ◌+◌, IfOk, OnOk};
ghost use Rattle.sigma_spl.specs.Views.{plain_nest};
ghost use Rattle.code_gen.specs.Bodies.{Appends, copied_at, copies_at};
ghost use Rattle.code_gen.specs.Conditions.{CanStore, HasPlaces};
ghost use Rattle.code_gen.specs.Views.{body_in};

use crate::outputs;
use crate::outputs::put_output;
use crate::site::{Item, Site};
use crate::statements::put_op;
use icode::program::{Op, Stmt};
use memory::NoMemory;
use sigma_spl::Nest;
use std::alloc::Global;

// Appends the load of an item into register 0, and its store.
fn put_copy(
    alloc: Global,
    out: &mut Vec<Stmt>,
    nest: &Nest,
    site: Site,
    number: u64,
) -> Result<(), NoMemory>
    requires loads { HasPlaces (number + 1) (plain_nest nest.now).gathers }
    requires stores { CanStore (number + 1) (plain_nest nest.now) }
    ensures { OnOk result (Appends out.old out.new (copied_at site nest.now number)) }
{
    let place = outputs::place_at(alloc, site.frame, &nest.gathers, number, site.open_loops)?;
    put_op(
        out,
        Op::Load {
            register: 0,
            array: site.source,
            place,
        },
    )?;
    let item = Item {
        number,
        from: 0,
        free: 1,
    };
    put_output(alloc, out, nest, site, 0, item)?;
    Ok(())
}

/// The statements of copies: each item goes by way of register 0.
pub(crate) fn statements_of_copies(
    alloc: Global,
    nest: &Nest,
    size: u64,
    site: Site,
) -> Result<Vec<Stmt>, NoMemory>
    requires loads { HasPlaces size (plain_nest nest.now).gathers }
    requires stores { CanStore size (plain_nest nest.now) }
    ensures { IfOk result (λ y. body_in y ≡ copies_at site nest.now size) }
{
    let mut body = Vec::new(alloc);
    for number in 0..size {
        put_copy(alloc, &mut body, nest, site, number)?;
    }
    Ok(body)
}
