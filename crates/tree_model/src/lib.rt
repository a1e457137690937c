//! Breakdown trees of requests: which of them a request admits, what they cost, their order, their passes, and their
//! roots.
//!
//! The rules are those of Cooley and Tukey (ct) and of Good and Thomas (gt) for the Fourier transform, the split of the
//! Walsh-Hadamard transform, and dim, which takes several dimensions apart into the first one and the others. Trees of
//! rules are as in SPIRAL (Püschel et al., 2005), and the sizes that may stand at the root on several processors as in
//! Franchetti et al., 2006.
#![tactic(auto)]

mod admission;
mod context;
mod costs;
mod inverse;
mod laws;
mod order;
mod tree;

pub use admission::{admissible, allows_leaf, allows_node, allows_split};
pub use context::{Ctx, divides};
pub use costs::{closing_cost, cost, is_kernel, leaf_cost, mul_cost, node_cost, node_root};
pub use inverse::inverse_trees;
pub use laws::{nodes_do_what_is_asked, passes_do_the_cost, trees_are_made_of_parts};
pub use order::before;
pub use tree::{Rule, Tree};
