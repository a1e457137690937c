// Where the statements of a nest stand.

use crate::host::Frame;
use icode::program::Array;

/// Where a nest stands: what its variables are, how many loops are open, the tables of its powers and of its diagonal,
/// and the arrays that it reads and writes.
#[derive(Clone, Copy)]
pub(crate) struct Site {
    pub frame: Frame,
    pub open_loops: u64,
    pub powers: u64,
    pub table: u64,
    pub source: Array,
    pub target: Array,
}

/// An item that is stored from a register, by way of a free one where it is multiplied.
#[derive(Clone, Copy)]
pub(crate) struct Item {
    pub number: u64,
    pub from: u64,
    pub free: u64,
}
