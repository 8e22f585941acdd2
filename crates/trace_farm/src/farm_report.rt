//! What a farm gives for a trace.

ghost use Rattle.std.specs.Prelude.{◌≡◌, IfOk};
ghost use Rattle.trace_ticks.specs.Ends.{IsOwn};
ghost use Rattle.trace_farm.specs.Farm.{KeepsReport};

use forec_base::OutOfMemory;
use trace_ticks::Status;

/// The report of a trace: what a run over it writes, and the number of the status with which it ends.
#[derive(Drop)]
pub struct FarmReport {
    pub bytes: Vec<u8>,
    pub status: u32,
}

impl FarmReport {
    /// The report of a run that wrote these bytes and ended so.
    ///
    /// # Errors
    ///
    /// Out of memory, where the run ended by a fault of its streams: the trace lies in memory, so that is what it was.
    pub(crate) fn of(bytes: Vec<u8>, status: Status) -> Result<FarmReport, OutOfMemory>
        ensures own { IfOk result (λ _. IsOwn status) }
        ensures kept { IfOk result (KeepsReport bytes.items status) }
    {
        match status {
            Status::ReadFault | Status::WriteFault | Status::NoMemory => Err(OutOfMemory),
            _ => Ok(FarmReport {
                bytes,
                status: u32::from(status.number()),
            }),
        }
    }
}
