//! From the statements of a function's body to those of the kernel.
#![tactic(auto)]

mod assign;
mod body;
mod branches;
mod loops;
mod threads;

pub use body::{FUEL, in_function, inlined};
pub use threads::threads_below;
