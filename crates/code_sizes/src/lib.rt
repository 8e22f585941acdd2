//! How many instructions the code of a kernel has, before it is written.
#![tactic(auto)]

mod sizes;

pub use sizes::statement_size;
