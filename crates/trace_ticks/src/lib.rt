//! A program runs tick by tick, over the rows of a trace or of a workload, and its lines are written; whatever runs it.
#![tactic(auto)]

mod format;
mod generated;
mod image;
mod laws;
mod lead;
mod names;
mod session;
mod setting;
mod sink;
mod status;
mod ticker;
mod ticks;
mod trace_run;
mod waiting;
mod workload_run;

pub use format::{Format, Telling};
pub use laws::each_format_writes_one_run;
pub use lead::Lead;
pub use session::Session;
pub use setting::{Company, Nobody, Setting};
pub use sink::say;
pub use status::Status;
pub use ticker::Ticker;
pub use ticks::{last_status, run, send_due};
pub use trace_run::TraceRun;
pub use waiting::Waiting;
pub use workload_run::WorkloadRun;
