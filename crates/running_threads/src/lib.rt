//! Threads in progress: a thread's running text as frames over the kernel's own statements, the children of
//! a fork, and what is asked of them.
#![tactic(auto)]

mod children;
mod frames;
mod threads;

pub use children::{
    all_done, duplicate_focus, duplicate_thread, leftmost_trap, ran, retire, runs, runs_there,
    some_run,
};
pub use frames::{NextText, go_on, leave_last, resume, start, start_list};
pub use threads::{Children, Focus, Frame, Status, Thread, Turn};
