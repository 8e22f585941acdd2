//! The top call: from the words, the program's text and the trace to the bytes of the report.
#![tactic(auto)]

mod answering;
mod command;
mod dumps;
mod farm_lines;
mod farm_reports;
mod farm_traces;
mod farming;
mod folding;
mod laws;
mod lines;
mod logging;
mod programs;
mod replaying;
mod room;

pub use command::{forec, forec_within};
pub use laws::{
    each_command_has_a_report, enough_is_never_over, folding_prints_the_same, replay_ok_is_the_log,
    reports_are_alike, reports_are_unique,
};
pub use trace_ticks::{Setting, Status};
