// Routes of statements.

use icode::program::Array;

/// The arrays that a statement loads from and stores into.
#[derive(Clone, Copy, Drop, PartialEq, Eq, Debug)]
pub(crate) struct Route {
    pub(crate) source: Array,
    pub(crate) target: Array,
}
