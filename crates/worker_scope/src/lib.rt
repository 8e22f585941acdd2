//! Work in threads of its own beside the calling thread, and what the calling thread did meanwhile.
#![tactic(auto)]

mod runnable;
mod scope;

pub use runnable::Runnable;
pub use scope::with_workers;
