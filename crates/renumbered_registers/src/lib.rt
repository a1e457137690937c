//! Renumbered registers: each run of operations numbers its registers in the order in which it puts them, so that
//! passes over loops take any author's program as they take one of `code_gen`.
#![tactic(auto)]

mod numbering;
mod operations;
mod orders;
mod programs;

pub use programs::{in_order_stays, renumber_registers, renumbered_leaves_the_same};
