//! Lanes from loops: rounds of the innermost loop, one after the other, become lanes of one round.
#![tactic(auto)]

mod columns;
mod lanes;
mod loads;
mod loops;
mod obstacles;
mod rows;
mod tiles;
mod ways;

pub use lanes::{lane_loops, laned_leaves_the_same};
pub use obstacles::{NestFault, Obstacle, first_obstacle, obstacles_are_all};
