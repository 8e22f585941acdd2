//! A port that keeps the jobs and replies that go through it.
#![tactic(auto)]

mod book;
mod entry;
mod laws;
mod lines;
mod links;
mod port;
mod register;

pub use book::PairPlace;
pub use laws::posts_make_the_log;
pub use lines::log_room;
pub use port::LogPort;
