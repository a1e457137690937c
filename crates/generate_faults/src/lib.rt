//! Why there may be no program for a request.
//!
//! Statuses are made of these faults, and stand below the generator.
#![tactic(auto)]

mod conv_fault;
mod generate_fault;

pub use conv_fault::ConvFault;
pub use generate_fault::GenerateFault;
