//! What the jobs and replies of a program's threads are, as a log, and how a log is replayed (in `specs/`).
#![tactic(auto)]

mod laws;

pub use laws::{
    answer_is_one, log_is_one, replays_give_the_log, replays_tell_the_ticks,
    threads_tell_their_branches,
};
