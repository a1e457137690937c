//! The order of events: the words that name turns and drains, and the generator of random turns.
#![tactic(auto)]

mod mix;
mod random;
mod schedule;

pub use mix::{Mix, MixFault, read_mix};
pub use random::next_state;
pub use schedule::{Schedule, ScheduleFault, read_schedule};
