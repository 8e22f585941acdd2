//! What the bound of a kernel's ticks is good for: no tick passes it where no loop runs on for ever within one.
#![tactic(auto)]

mod laws;

pub use laws::no_tick_passes_the_bound;
