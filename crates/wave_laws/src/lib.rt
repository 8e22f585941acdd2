//! What the value change dump of a run tells is the run's report.
#![tactic(auto)]

mod laws;

pub use laws::{a_dump_tells_its_run, each_accepted_text_can_be_dumped};
