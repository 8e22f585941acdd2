//! Runs of a kernel: over the rows of a trace, by hosts beside workers or by rewriting; and over the rows of a
//! workload.
#![tactic(auto)]

mod hosting;
mod rewriting;

pub use hosting::{host_trace, host_workload};
pub use rewriting::rewrite_trace;
