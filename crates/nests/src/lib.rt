//! Nests of loops: places that are linear in the loops' values, rounds that are independent of one another, registers that
//! no round reads from another, and one program in place of another. All passes over loops speak of these.
#![tactic(auto)]

mod bodies;
mod independence;
mod parts;
mod registers;

pub use bodies::{innermost, is_nest, push_counts};
pub use independence::{are_independent, same_array};
pub use parts::{are_linear, same_parts, stride};
pub use registers::{are_fresh, is_fresh, put_after};
