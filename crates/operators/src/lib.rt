//! Matrices by what they do to a list, and the identities by which products and tensors of them are rewritten.
#![tactic(auto)]

mod laws;
mod paths;
mod target;

/// No list that a transform is of has more items.
pub const MAX_SIZE: u64 = 1_048_576;

pub use laws::{lane_identities, loop_identities, processor_identities};
pub use paths::{Tensor, loop_is_under};
pub use target::Target;
