//! Runs whose exchanges are kept, as a log; and logs that are held to a run.
#![tactic(auto)]

mod laws;
mod logging;
mod quiet;
mod replaying;
mod ticker;

pub use laws::{a_run_has_one_log, a_run_has_one_replay};
pub use logging::log_trace;
pub use replaying::{MAX_LOG_BYTES, replay_log};
