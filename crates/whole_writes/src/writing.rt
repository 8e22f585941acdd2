//! Bytes for a sink that takes a front of each piece.
ghost use Rattle.std.specs.Prelude.{OnOk, OnErr};
ghost use Rattle.std.specs.Io.KnownBytes.{Appends};
ghost use Rattle.trace_rows.specs.Calls.{Faults};
ghost use Rattle.whole_writes.specs.Calls.{AppendsFront};

use forec_base::{Failed, Sink};

/// Writes all of the bytes.
///
/// # Errors
///
/// The sink failed. Then a front of the bytes is written.
pub fn write_all<K: Sink>(out: &mut K, bytes: &[u8]) -> Result<(), Failed>
    ensures ok { OnOk result (Appends (K.held out.old) (K.held out.new) bytes.now) }
    ensures err { OnErr result (AppendsFront (K.held out.old) (K.held out.new) bytes.now) }
    ensures cause { Faults (K.faults out.old) (K.faults out.new) (K.down out.new) result }
{
    let mut at = 0;
    while at < bytes.len() {
        match out.write(&bytes[at..]) {
            Ok(n) => at += n,
            Err(failed) => return Err(failed),
        }
    }
    Ok(())
}
