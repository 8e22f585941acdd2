//! Which fault of a program is the least, one after the other.
#![tactic(auto)]

mod least;

pub use least::{is_less, keep_fault};
