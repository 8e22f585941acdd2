//! How all threads of a code run on one core, by plain calls, without mailboxes.
#![tactic(auto)]

mod calls;
mod load;
mod single;

pub use single::OneCore;
