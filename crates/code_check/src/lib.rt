//! Tests of a stranger's program: that it fits, and that its processors share no line.
#![tactic(auto)]

mod check;
mod count;
mod fault;
mod fresh;
pub mod laws;
mod lines;
mod live;
mod mark_table;
mod phase;
mod place;
mod registers;
mod walk;

pub use check::{Verified, verify};
pub use fault::{CheckFault, STEP_LIMIT};
pub use fresh::is_fresh;
