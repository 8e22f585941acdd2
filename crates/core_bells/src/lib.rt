//! What cores need in order to wait without constant looking.
#![tactic(auto)]

mod bed;
mod belfry;
mod bells;
mod hints;
mod laws;
mod passes;
mod patience;
mod queue;
mod rooms;
mod rope;
mod watch;

pub use bed::{Bed, Rings, Rung};
pub use bells::{Bells, GivesRopes};
pub use laws::every_step_is_ruled;
pub use rope::Rope;
