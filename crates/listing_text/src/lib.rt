//! The listing of a program: its text, line by line.
#![tactic(auto)]

mod acts;
mod draft;
mod drafts;
mod language;
mod limits;
mod listing;
mod pieces;
mod printing;
mod progress;
mod reader;
mod reading;

pub use acts::{Act, PARENTHESES};
pub use draft::{Draft, Header, Level};
pub use drafts::{Refusal, blank, entered, read_header, with_act, with_table};
pub use language::{Language, print};
pub use listing::{ListingFault, read_listing};
pub use pieces::{array_words, put, put_numbered, put_numbers, put_word};
pub use printing::{print_listing, put_array, put_expr, put_header, put_sum};
pub use progress::Progress;
pub use reader::read;
pub use reading::read_place;
