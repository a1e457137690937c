//! The C text of a program: printing it, and reading it line by line.
#![tactic(auto)]

mod header;
mod lines;
mod printing;
mod reading;
mod tables;

pub use header::read_c_header;
pub use lines::read_c_line;
pub use printing::print_c;
pub use reading::{CFault, read_c};
pub use tables::read_c_table;
