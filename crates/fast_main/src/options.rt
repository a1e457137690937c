// What the words of a call of `spiral-fast` ask for.
mod app;
mod asked;
mod form;
mod line;
mod names;

pub use asked::{Options, Refusal, options_of};
