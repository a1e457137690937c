//! Loop fusion: nests, one after the other, that go over the same blocks of words become one nest.
#![tactic(auto)]

mod blocks;
mod followed;
mod fusion;
mod statements;

pub use fusion::{LARGE_SIZE, fuse_loops, fused_leaves_the_same};
