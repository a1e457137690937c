//! Data in tokens: vectors of numbers from a source, their text, and an input part by part.
#![tactic(auto)]

mod parts;
mod token;
mod vectors;
mod write;

pub use parts::{RestFault, read_part, read_rest};
pub use vectors::{DataFault, Next, Vectors};
pub use write::write_vector;
