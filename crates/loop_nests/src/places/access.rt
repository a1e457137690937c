// The sides of a nest, and their places.
ghost use Rattle.std.specs.Prelude.{◌≡◌, map};
ghost use Rattle.sigma_spl.specs.Views.{plain_nest};
ghost use Rattle.perm_algebra.specs.Views.{plain_sum};
ghost use Rattle.loop_nests.specs.Places.Sides.{places_of, with_places};
ghost use Rattle.loop_nests.specs.Places.Views.{plain_sums};

use perm_algebra::Affine;
use sigma_spl::Nest;
use std::mem;

/// A side of a nest: what it reads, or what it writes.
#[derive(Clone, Copy)]
pub enum Access {
    Loads,
    Stores,
}

/// The places on that side.
pub(crate) fn places_of(access: Access, nest: &Nest) -> &[Affine]
    ensures { map plain_sum result.now ≡ places_of access (plain_nest nest.now) }
{
    match access {
        Access::Loads => &nest.gathers,
        Access::Stores => &nest.scatters,
    }
}

/// The nest gets the given places on that side.
pub(crate) fn put_places(access: Access, nest: &mut Nest, places: &mut Vec<Affine>)
    ensures { plain_nest nest.new
        ≡ with_places access (plain_sums places.old) (plain_nest nest.old) }
{
    match access {
        Access::Loads => mem::swap(&mut nest.gathers, places),
        Access::Stores => mem::swap(&mut nest.scatters, places),
    }
}
