//! The jobs that the ticks of a code give its thread 0, what its reply tells, and what threads were told and did.
#![tactic(auto)]

mod boxed;
mod job;
mod outcome;

pub use boxed::Boxed;
pub use job::write_job;
pub use outcome::write_outcome;
