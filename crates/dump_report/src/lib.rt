//! What a value change dump tells: the report of the run that wrote it.
#![tactic(auto)]

mod laws;
mod refusing;
mod report;
mod room;
mod sending;
mod status;
mod telling;

pub use laws::dumps_are_told;
pub use report::tell;
pub use status::DumpStatus;
