//! Runs of a program by events, on a machine without store buffers or with them: the line of each event, and the lines of
//! each vector of a stream.
#![tactic(auto)]

mod buffered;
mod direct;
mod engine;
mod first;
pub mod laws;
mod queued;
mod steps;
mod stream;
mod text;
mod unbuffered;

pub use buffered::run_buffered;
pub use engine::Engine;
pub use first::read_first;
pub use steps::write_steps;
pub use stream::StreamFault;
pub use unbuffered::{run_stream, run_vectors, transform};
