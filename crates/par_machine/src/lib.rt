//! The machine that runs loop code: several processors over one memory, one action of one processor at a time.
#![tactic(auto)]

mod compile;
mod cursor;
mod header;
mod initial;
mod machine;
mod perform;
mod phase;
mod processor;
mod scale;

pub use icode::event::Turned;
pub use machine::Machine;
