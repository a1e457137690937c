//! Loop coalescing: a loop and the one that stands alone in it become one loop, where each place goes on from the last round of
//! the inner loop to its first round in the next of the outer one.
#![tactic(auto)]

mod coalescing;
mod conditions;
mod lifts;

pub use coalescing::{coalesce_loops, coalesced_does_the_same};
