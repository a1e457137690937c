// Events of a machine with store buffers, and what machines answer.

use crate::action::Action;

/// What a machine with store buffers does next.
#[derive(Clone, Copy, PartialEq, Eq, Debug)]
pub enum Event {
    /// The turn of a processor.
    Turn(u64),
    /// A processor's oldest waiting store is written to memory.
    Drain(u64),
}

/// What a turn did.
#[derive(Clone, Copy, PartialEq, Eq, Debug)]
pub enum Turned {
    Did(Action),
    /// The phase is not over.
    Waits,
    /// All phases are done.
    Done,
}

/// What a drain did.
#[derive(Clone, Copy, PartialEq, Eq, Debug)]
pub enum Drained {
    /// It wrote the store whose first word has this address.
    Wrote(u64),
    /// No store waits.
    Empty,
}
