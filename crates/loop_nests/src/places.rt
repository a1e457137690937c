// Permutations and diagonals in the places of a pass, where these stay within the limits of programs.
mod access;
mod backs;
mod changes;
mod diagonals;

pub use backs::{factor_count, factor_places};
pub use changes::{Change, gathered, scattered};
pub use diagonals::{Diagonal, multiplied, multiplied_in_order};
