//! The meaning of kernels as a plain program: a tick steps the threads' texts in place, in any order, and
//! gives the outcome, the outputs and the state that the definition gives.
#![tactic(auto)]

mod orders;
mod ticks;

pub use ticks::{State, rewrite_tick};
