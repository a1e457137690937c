//! Straight-line code of breakdown trees.
#![tactic(auto)]

mod dimensions;
mod kernels;
mod matrix;
mod nodes;
mod places;
mod straight;
mod transform;
mod writer;

pub use kernels::{dft_kernel, kernel};
pub use straight::{Kernel, KernelOp};
