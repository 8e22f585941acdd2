//! How much room the frames of a thread need, before it is loaded.
#![tactic(auto)]

mod depths;
mod room;

pub use room::{Needs, is_short, thread_need, variable_at};
