//! The numbers of a run's log are in range, so the log can be read back.
#![tactic(auto)]

mod laws;

pub use laws::logs_fit;
