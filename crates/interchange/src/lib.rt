//! Loop interchange: of loops one in the other, those whose rounds load from places nearer to one another become the inner ones.
#![tactic(auto)]

mod exchange;
mod orders;
mod programs;

pub use programs::{interchange, interchanged_leaves_the_same};
