//! From the tree of a program to its kernel.
#![tactic(auto)]

mod beyond;
mod front;
mod judge;
mod lower_fault;

pub use front::{lower, lower_within};
pub use lower_fault::LowerFault;
pub use text_kernel::Quantity;
