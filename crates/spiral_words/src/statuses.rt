// How a call ended: its status, the exit code of that, and the line that says why.
mod faults;
mod rows;
mod status;

pub use faults::{CERTIFICATE_LIMIT, LINE_LIMIT};
pub use rows::write_note;
pub use status::Status;
