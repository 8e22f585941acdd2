//! A line that is the whole report.
ghost use Rattle.dump_report.specs.Calls.{TellsReport};
ghost use Rattle.dump_report.specs.Ends.{EndsReport};

use crate::status::DumpStatus;
use forec_base::Sink;
use whole_writes::write_all;

/// Writes a line that is the whole report, and gives the status, which is a report's own.
pub fn say<K: Sink>(out: &mut K, line: &[u8], status: DumpStatus) -> DumpStatus
    requires { EndsReport status }
    ensures { TellsReport K.held K.faults K.down (record { bytes = line.now; status = status }) out.old out.new result }
{
    match write_all(out, line) {
        Ok(()) => status,
        Err(_) => DumpStatus::WriteFault,
    }
}
