//! A log that was read.
ghost use Rattle.std.specs.Prelude.{◌≡◌, ℕ, IfOk, Err};
ghost use Rattle.forec_kernel.specs.Shapes.{PlainShape, plain_shape};
ghost use Rattle.log_text.specs.Fronts.{IsFirstBad};
ghost use Rattle.log_text.specs.ReadLogs.{IsReadFrom};

use crate::fault::LogFault;
use crate::section::{Section, Spot, read_section};
use combine_tree::Packet;
use forec_kernel::Shape;
use std::alloc::Global;

/// A log of a shape: its text, and where each thread's part of it stands. Its jobs and replies are read again by
/// cursors.
#[derive(Drop)]
pub struct Log {
    pub(crate) bytes: Vec<u8>,
    /// Of each thread from 1.
    pub(crate) sections: Vec<Section>,
}

impl Log {
    /// Reads a log of the shape. It is Ok exactly where the bytes are the text of one, and then it is that one.
    ///
    /// # Errors
    ///
    /// `Bad` with the first line, from 1, that with those before it begins no log of the shape, or the number of lines
    /// plus 1 where lines are missing. Bytes after the last byte 10 are a line that begins no log. Out of memory.
    pub fn read(alloc: Global, bytes: Vec<u8>, shape: &Shape) -> Result<Log, LogFault>
        ensures log { IfOk result (λ l. IsReadFrom (plain_shape shape.now) bytes.items l) }
        ensures bad { (line : ℕ) → result ≡ Err (LogFault.Bad line)
            → IsFirstBad (plain_shape shape.now) bytes.items line }
    {
        let size = bytes.len();
        let mut sections = Vec::new(alloc);
        let mut spot = Spot { at: 0, line: 1 };
        for t in 1..shape.threads.len() {
            let thread = &shape.threads[t];
            let mut packet = Packet::new(alloc, thread.params as usize, thread.uses.len())?;
            match read_section(&bytes, spot, t as u64, &mut packet) {
                Ok((section, next)) => {
                    sections.push(section)?;
                    spot = next;
                }
                Err(fault) => return Err(fault),
            }
        }
        if spot.at < size {
            return Err(LogFault::Bad { line: spot.line });
        }
        Ok(Log { bytes, sections })
    }
}
