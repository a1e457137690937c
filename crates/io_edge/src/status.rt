// Rows of the table of statuses: of each its number, and its line as texts with numbers between them.
mod row;

pub use row::{Part, StatusRow};
