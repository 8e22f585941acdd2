//! The most words of a thread of a program, with those along chains of calls of int functions and of
//! combine functions, counted on its text, without its kernel being made.
#![tactic(auto)]

mod bodies;
mod peaks;
mod tally;
mod terms;

pub use peaks::most_words;
pub use tally::{Tally, Weights};
