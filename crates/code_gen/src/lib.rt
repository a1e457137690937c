//! The program of merged passes: loops round bodies that load, compute and store, phase by phase.
#![tactic(auto)]

mod copy_statements;
mod emitting;
mod factors;
mod host;
mod inputs;
mod kernel_statements;
mod kernels;
mod loop_values;
mod loops;
mod nest;
mod outputs;
mod pass_actions;
mod pass_code;
mod places;
mod program;
mod row_statements;
mod site;
mod statements;
mod tables;
mod tile_statements;
mod work;

pub use emitting::{emit, emit_formula, emit_joined};
pub use host::Frame;
pub use pass_actions::passes_run;
pub use pass_code::{expressions_are_within, passes_are_emitted, tested_sums_are_coded};
pub use places::place_expr;
