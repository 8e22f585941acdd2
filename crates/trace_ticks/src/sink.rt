//! The line with which a report ends.
ghost use Rattle.std.specs.Prelude.{◌≡◌};
ghost use Rattle.trace_ticks.specs.Ends.{IsOwn};
ghost use Rattle.trace_ticks.specs.Prints.{PrintsReport};

use crate::Status;
use forec_base::Sink;
use whole_writes::write_all;

/// Writes the last line, and gives the status, which is a report's own.
pub fn say<K: Sink>(out: &mut K, line: &[u8], status: Status) -> Status
    requires { IsOwn status }
    ensures { PrintsReport K.held K.faults K.down (record { bytes = line.now; status = status }) (status ≡ Status.Usage)
        out.old out.new result }
{
    match write_all(out, line) {
        Ok(()) => status,
        Err(_) => Status::WriteFault,
    }
}
