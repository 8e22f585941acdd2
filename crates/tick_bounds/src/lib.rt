//! The most units that a tick of a kernel can take.
#![tactic(auto)]

mod bodies;
mod capped;
mod functions;
mod pars;
mod scope;
mod threads;
mod tick;

pub use tick::tick_bound;
