//! Which core runs which thread of a kernel: by a list of places, or balanced by the threads' weights.
#![tactic(auto)]

mod laws;
mod listing;
mod placing;
mod weighing;

pub use laws::{one_placement, some_placement};
pub use listing::thread_list;
pub use placing::place;
pub use weighing::weights;
