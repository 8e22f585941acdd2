//! Writing all of some bytes to a sink that takes a front of each piece.
#![tactic(auto)]

mod writing;

pub use writing::write_all;
