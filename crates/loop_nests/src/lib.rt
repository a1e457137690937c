//! Loop nests with the places of their items: new ones, copies, sides under tensors, and what a nest takes of a
//! permutation or a diagonal within the limits of places.
#![tactic(auto)]

mod beside;
mod lifted;
mod limits;
mod nests;
mod placed;
mod places;

pub use beside::sides;
pub use limits::{Limits, carry_within, is_within, simplify_within};
pub use nests::{alone, copying, copying_words, moved_nest, natural_nest};
pub use places::{
    Change, Diagonal, factor_count, factor_places, gathered, multiplied, multiplied_in_order,
    scattered,
};
