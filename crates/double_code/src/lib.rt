//! Words that are doubles: whole numbers up to 2^53 that stand for residues, and loop code on them.
#![tactic(auto)]

mod doubles;
pub mod laws;
pub mod limits;
mod note;
pub mod program;
mod settle;
pub mod tables;

pub use doubles::make_double;
