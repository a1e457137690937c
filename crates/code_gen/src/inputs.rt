// Loads of a nest.
ghost use Rattle.std.specs.Prelude.{◌≡◌, IfOk};
ghost use Rattle.sigma_spl.specs.Views.{plain_nest};
ghost use Rattle.code_gen.specs.Bodies.{loads_at};
ghost use Rattle.code_gen.specs.Conditions.{HasPlaces};
ghost use Rattle.code_gen.specs.Views.{body_in};

use crate::outputs::place_at;
use crate::site::Site;
use crate::statements::put_op;
use icode::program::{Op, Stmt};
use memory::NoMemory;
use sigma_spl::Nest;
use std::alloc::Global;

/// A load of each of the first registers.
pub(crate) fn loads(
    alloc: Global,
    nest: &Nest,
    count: u64,
    site: Site,
) -> Result<Vec<Stmt>, NoMemory>
    requires { HasPlaces count (plain_nest nest.now).gathers }
    ensures { IfOk result (λ y. body_in y ≡ loads_at site nest.now count) }
{
    let mut body = Vec::new(alloc);
    for register in 0..count {
        let place = place_at(alloc, site.frame, &nest.gathers, register, site.open_loops)?;
        put_op(
            &mut body,
            Op::Load {
                register,
                array: site.source,
                place,
            },
        )?;
    }
    Ok(body)
}
