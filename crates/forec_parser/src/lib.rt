//! Reads the tree of a program from its tokens.
#![tactic(auto)]

mod fault;
mod item;
mod values;
mod whole;

pub use fault::ParseFault;
pub use whole::{one_program, parse};
