//! A report that is kept in memory.

use forec_base::{Failed, OutOfMemory, Sink};
use std::alloc::Global;

/// A report that is kept in memory. A fault is an allocation that was refused; the bytes are then those of before.
#[derive(Drop)]
pub struct ReportSink {
    /// What was written.
    pub bytes: Vec<u8>,
    faults: u64,
    down: bool,
}

impl ReportSink {
    ghost use Rattle.std.specs.Prelude.{◌≡◌, ◌≤◌, [], false, IfOk, vec_capacity};
    ghost use Rattle.trace_farm.specs.Kept.{report_held, report_faults, report_down};

    /// An empty report with room for so many bytes, which is taken here.
    ///
    /// # Errors
    ///
    /// Out of memory.
    pub fn new(alloc: Global, room: usize) -> Result<ReportSink, OutOfMemory>
        ensures held { IfOk result (λ s. report_held s ≡ []) }
        ensures faults { IfOk result (λ s. report_faults s ≡ 0) }
        ensures down { IfOk result (λ s. report_down s ≡ false) }
        ensures room { IfOk result (λ s. room ≤ vec_capacity s.bytes) }
    {
        let bytes = Vec::with_capacity(alloc, room)?;
        Ok(ReportSink {
            bytes,
            faults: 0,
            down: false,
        })
    }
}

impl Sink for ReportSink {
    ghost use Rattle.std.specs.Prelude.{Some};
    ghost use Rattle.trace_farm.specs.Kept.{report_held, report_faults, report_down};

    ghost held = { λ s. Some (report_held s) };

    ghost faults = { λ s. report_faults s };

    ghost down = { λ s. report_down s };

    fn write(&mut self, piece: &[u8]) -> Result<usize, Failed> {
        self.down = self.bytes.extend_from_slice(piece).is_err();
        if self.down {
            self.faults = self.faults.saturating_add(1);
            return Err(Failed);
        }
        Ok(piece.len())
    }
}
