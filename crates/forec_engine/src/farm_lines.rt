//! The report of a farm: a group of lines for each trace.
ghost use Rattle.std.specs.Prelude.{map, OnOk, OnErr};
ghost use Rattle.std.specs.List.{concat};
ghost use Rattle.std.specs.Io.KnownBytes.{Appends};
ghost use Rattle.trace_rows.specs.Calls.{Faults};
ghost use Rattle.whole_writes.specs.Calls.{AppendsFront};
ghost use Rattle.forec_engine.specs.Farms.{trace_group};
ghost use Rattle.forec_engine.specs.Farming.{plain_told};

use forec_base::{Failed, Sink};
use itoa::Buffer;
use whole_writes::write_all;

/// What is told of a trace: the bytes of its report, and the number of its status.
#[derive(Clone, Copy)]
pub struct Told<'a> {
    pub bytes: &'a [u8],
    pub status: u32,
}

/// Writes these pieces, one after the other. At an `Err` a front of them is written.
fn write_pieces<K: Sink>(out: &mut K, pieces: &[&[u8]]) -> Result<(), Failed>
    ensures ok { OnOk result (Appends (K.held out.old) (K.held out.new) (concat (map (λ p. p.now) pieces.now))) }
    ensures err { OnErr result (AppendsFront (K.held out.old) (K.held out.new) (concat (map (λ p. p.now)
        pieces.now))) }
    ensures cause { Faults (K.faults out.old) (K.faults out.new) (K.down out.new) result }
{
    for piece in pieces {
        match write_all(out, piece) {
            Ok(()) => {}
            Err(failed) => return Err(failed),
        }
    }
    Ok(())
}

/// Writes the lines of the trace of this name. At an `Err` a front of them is written.
pub fn write_group<K: Sink>(out: &mut K, name: &str, told: Told<'_>) -> Result<(), Failed>
    ensures ok { OnOk result (Appends (K.held out.old) (K.held out.new) (trace_group name.now (plain_told
        told.entry))) }
    ensures err { OnErr result (AppendsFront (K.held out.old) (K.held out.new) (trace_group name.now (plain_told
        told.entry))) }
    ensures cause { Faults (K.faults out.old) (K.faults out.new) (K.down out.new) result }
{
    let mut digits = Buffer::new();
    let number = digits.format(told.status).as_bytes();
    let pieces: [&[u8]; 7] = [
        b"trace ",
        name.as_bytes(),
        b"\n",
        told.bytes,
        b"status ",
        number,
        b"\n",
    ];
    write_pieces(out, &pieces)
}
