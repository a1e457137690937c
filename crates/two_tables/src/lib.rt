//! Large tables in two factors: a product by an entry is one by an entry of each of two small tables.
#![tactic(auto)]

mod cuts;
mod even;
mod factors;
mod places;
mod room;
mod split;
mod tables;

pub use tables::{LARGE_TABLE, factor_tables, factored_leaves_the_same};
