//! The machine with store buffers: what a processor stores waits in a queue of its own, and is written to memory later.
#![tactic(auto)]

mod events;
mod lend;
mod machine;
mod make;
mod play;
mod queue;
mod registers;
mod settle;
mod values;

pub use events::Events;
pub use icode::event::{Drained, Event, Turned};
pub use machine::BufMachine;
