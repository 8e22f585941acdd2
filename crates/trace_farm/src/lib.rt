//! One program over many traces: where threads are to be had the traces are run beside each other, and the reports are
//! those of one trace after the other.
#![tactic(auto)]

mod farm_report;
mod farming;
mod halves;
mod report_sink;
mod slice_source;
mod statuses;
mod width;

pub use farm_report::FarmReport;
pub use halves::farm;
pub use report_sink::ReportSink;
pub use slice_source::SliceSource;
pub use statuses::greatest;
