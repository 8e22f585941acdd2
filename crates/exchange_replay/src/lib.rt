//! Replays of a log of exchanges: whether a thread, given its logged jobs and the logged replies of its branches, tells its
//! branches what is logged for them, and replies as is logged.
#![tactic(auto)]

mod replay;
mod replayer;
mod same;
mod track;
mod walk;

pub use replay::{Replay, replay_thread};
pub use replayer::{Replayer, Step};
