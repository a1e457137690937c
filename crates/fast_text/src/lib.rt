//! The C text of a program on words, in vectors of GCC and Clang.
#![tactic(auto)]

mod first_values;
mod form;
mod front;
mod function;
mod header;
pub mod laws;
mod operations;
mod places;
mod printing;
mod products;

pub use form::Form;
pub use printing::print_words;
