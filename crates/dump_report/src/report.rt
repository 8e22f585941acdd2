//! The report of a text that is to be a dump.
ghost use Rattle.std.specs.Prelude.{◌≡◌, length};
ghost use Rattle.std.specs.Io.KnownBytes.{Appends};
ghost use Rattle.forec_base.specs.Outside.{Fell};
ghost use Rattle.whole_writes.specs.Calls.{AppendsFront};
ghost use Rattle.dump_report.specs.Ends.{EndsReport};
ghost use Rattle.dump_report.specs.Told.{dump_report};

use crate::refusing::{refuse, refuse_long};
use crate::status::DumpStatus;
use crate::telling::tell_read;
use forec_base::{MAX_TEXT_BYTES, Sink};
use std::alloc::Global;
use wave_dump::{WaveFault, read_wave};

/// Writes the report of a text that is to be a value change dump's, and gives its status.
///
/// Of a dump that is the line of each tick, numbered from 1, and then the dump's ending as a line; the status is
/// [`DumpStatus::Done`]. Of any other text it is `refused byte N`, where N, counted from 1, is the first byte with which
/// no dump goes on, or the one behind the text's last where some dump does. Of a text of more than 1,048,576 bytes it is
/// `refused long`. The status of both is [`DumpStatus::Refused`].
///
/// No memory is taken once a byte was written, and the time is that of the text's bytes and of those of the report.
pub fn tell<K: Sink>(alloc: Global, text: &[u8], out: &mut K) -> DumpStatus
    // The report of the text was written, whole, and the status is the report's.
    ensures own { EndsReport result → (result ≡ (dump_report text.now).status)
        × Appends (K.held out.old) (K.held out.new) (dump_report text.now).bytes }

    // The sink failed. What was written is a front of the report.
    ensures write { result ≡ DumpStatus.WriteFault → Fell (K.faults out.old) (K.faults out.new) (K.down out.new)
        × AppendsFront (K.held out.old) (K.held out.new) (dump_report text.now).bytes }

    // Where memory ran out, the sink wasn't called.
    ensures memory { result ≡ DumpStatus.NoMemory → out.new ≡ out.old }
{
    if text.len() > MAX_TEXT_BYTES {
        return refuse_long(out);
    }
    match read_wave(alloc, text) {
        Ok(dump) => tell_read(alloc, &dump, out),
        Err(WaveFault::Bad { at }) => refuse(at, out),
        Err(WaveFault::OutOfMemory) => DumpStatus::NoMemory,
    }
}
