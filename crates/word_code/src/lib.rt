//! Loop code on words: lazy residues, products by known factors, and passes in place.
#![tactic(auto)]

mod in_place;
mod input;
pub mod laws;
pub mod laziness;
mod needs;
mod note;
pub mod program;
mod quicken;
mod settle;
mod single;

pub use in_place::work_in_place;
pub use input::input_writer;
