//! The machine that runs one thread of a code.
#![tactic(auto)]

mod branches;
mod calls;
mod counted;
mod fork;
mod laws;
mod merging;
mod running;
mod thread;

pub use laws::replies_answer_jobs;
pub use thread::{Event, Thread};
