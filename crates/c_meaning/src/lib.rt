//! The meaning of the C that our texts are written in, and laws of the C text of a program in it.
#![tactic(auto)]

mod laws;

pub use laws::{elements, functions, lanes, memory, places, programs, small_texts};
