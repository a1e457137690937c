// The statements of a tile.
ghost use Rattle.std.specs.Prelude.{◌≡◌, ◌+◌, ◌≤◌, IfOk};
ghost use Rattle.sigma_spl.specs.Views.{plain_nest};
ghost use Rattle.code_gen.specs.Bodies.{tile_at, tile_stores_at};
ghost use Rattle.code_gen.specs.Conditions.{CanStore, HasPlaces};
ghost use Rattle.code_gen.specs.Views.{body_in};

use crate::inputs::loads;
use crate::outputs::put_output;
use crate::site::{Item, Site};
use crate::statements::put_op;
use icode::program::{Op, Stmt};
use memory::NoMemory;
use sigma_spl::Nest;
use std::alloc::Global;

// The stores of the registers that a tile of `lanes` rows leaves. Those after them are free.
fn outputs(alloc: Global, nest: &Nest, lanes: u64, site: Site) -> Result<Vec<Stmt>, NoMemory>
    requires stores { CanStore lanes (plain_nest nest.now) }
    requires few { lanes ≤ 16 }
    ensures { IfOk result (λ y. body_in y ≡ tile_stores_at site nest.now lanes) }
{
    let mut body = Vec::new(alloc);
    for number in 0..lanes {
        let item = Item {
            number,
            from: lanes + number,
            free: lanes + lanes + number,
        };
        put_output(alloc, &mut body, nest, site, 1, item)?;
    }
    Ok(body)
}

/// The statements of a tile: its rows are loaded, and its columns are stored. The items on the lanes of a register lie
/// side by side, and so do their factors.
pub(crate) fn statements_of_tile(
    alloc: Global,
    nest: &Nest,
    lanes: u64,
    site: Site,
) -> Result<Vec<Stmt>, NoMemory>
    requires loads { HasPlaces lanes (plain_nest nest.now).gathers }
    requires stores { CanStore lanes (plain_nest nest.now) }
    requires few { lanes ≤ 16 }
    ensures { IfOk result (λ y. body_in y ≡ tile_at site nest.now lanes) }
{
    let mut stores = outputs(alloc, nest, lanes, site)?;
    let mut statements = loads(alloc, nest, lanes, site)?;
    put_op(
        &mut statements,
        Op::Tile {
            register: lanes,
            source: 0,
        },
    )?;
    statements.append(&mut stores)?;
    Ok(statements)
}
