//! One step of a running thread, in place: of a statement, of a loop in progress, of a fork whose branches run or have
//! ended; and how a thread wakes for a later tick.
#![tactic(auto)]

mod forks;
mod joins;
mod moving;
mod statements;
mod steps;
mod wakes;

pub use forks::start_body;
pub use moving::set_copy;
pub use steps::thread_step;
pub use wakes::wake_thread;
