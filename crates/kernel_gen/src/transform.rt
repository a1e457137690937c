// The transform of a tree, and its items as a grid.
ghost use Rattle.std.specs.Prelude.{◌≡◌};
ghost use Rattle.tree_model.specs.Breakdown.{breakdown_of, size_of, HasWordSizes};
ghost use Rattle.kernel_gen.specs.Writing.{part_of, IsReduced};

use matrix_meaning::Kind;
use ring_mod::Modulus;
use tree_model::Tree;

/// A transform by a root. Its size is that of the tree that does it.
#[derive(Clone, Copy)]
pub(crate) struct Transform<'a> {
    pub(crate) modulus: &'a Modulus,
    pub(crate) kind: Kind,
    pub(crate) root: u64,
}

impl<'a> Transform<'a> {
    /// That of a part of the tree: its root is this power of the tree's.
    pub(crate) fn part(&self, power: u64) -> Transform<'a>
        requires { IsReduced self.now }
        ensures value { result ≡ part_of self.now power }
        ensures residue { IsReduced result }
    {
        Transform {
            modulus: self.modulus,
            kind: self.kind,
            root: self.modulus.pow(self.root, power),
        }
    }
}

/// Items in rows and columns, row by row.
#[derive(Clone, Copy)]
pub(crate) struct Grid {
    pub(crate) rows: u64,
    pub(crate) columns: u64,
}

impl Grid {
    /// The items of a tree of two parts: columns as long as the first, rows as long as the second.
    pub(crate) fn of_parts(first: &Tree, second: &Tree) -> Grid
        requires first { HasWordSizes (breakdown_of first.now) }
        requires second { HasWordSizes (breakdown_of second.now) }
        ensures rows { result.rows ≡ size_of (breakdown_of first.now) }
        ensures columns { result.columns ≡ size_of (breakdown_of second.now) }
    {
        Grid {
            rows: first.size(),
            columns: second.size(),
        }
    }
}
