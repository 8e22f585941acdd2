//! What runs the ticks of a kernel: hosts beside workers, one host by itself, one core alone, or a rewriting.
#![tactic(auto)]

mod beside;
mod hosted;
mod orders;
mod rewriter;

pub use beside::lead_hosts;
pub use hosted::{Alone, OnOneCore};
pub use rewriter::Rewriter;
