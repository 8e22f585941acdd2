//! The text of a log, written by what a port has kept.
#![tactic(auto)]

mod pieces;
mod writing;

pub use writing::{Room, write_log};
