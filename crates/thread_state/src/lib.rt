//! What one thread of a code holds while it runs: its frames, its copies of variables, its flags, and the
//! branches of each par.
#![tactic(auto)]

mod frame;
mod own;
mod pars;
mod stack;
mod uses;

pub use frame::{Frame, FrameStack};
pub use own::Own;
pub use pars::Pars;
pub use stack::{Resume, Stack};
