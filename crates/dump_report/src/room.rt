//! Lines that wait to be written, at the front of room that is made once.
ghost use Rattle.std.specs.Prelude.{◌≡◌, ◌≤◌, ◌+◌, ◌^◌, ◌-◌, ◌++◌, length, take, min, codes, IfOk, OnErr};
ghost use Rattle.trace_rows.specs.Calls.{Faults};
ghost use Rattle.trace_rows.specs.Report.{tick_line, tick_room};
ghost use Rattle.whole_writes.specs.Calls.{AppendsFront};
ghost use Rattle.dump_report.specs.Calls.{Sends};

use forec_base::{Failed, Labels, Sink};
use trace_rows::line;
use whole_writes::write_all;

/// Writes what waits where fewer than so many bytes of the room are left: its first `end` bytes. Gives how many wait
/// then. At an `Err` a front of them is written.
pub fn make_room<K: Sink>(
    room: &[u8],
    end: usize,
    most: usize,
    out: &mut K,
) -> Result<usize, Failed>
    requires within { end ≤ length room.now }
    requires ample { most ≤ length room.now }
    ensures fits { IfOk result (λ next. next + most ≤ length room.now) }
    ensures ok { IfOk result (λ next. Sends (K.held out.old) (K.held out.new)
        (take end room.now) (take next room.now)) }
    ensures err { OnErr result (AppendsFront (K.held out.old) (K.held out.new) (take end room.now)) }
    ensures cause { Faults (K.faults out.old) (K.faults out.new) (K.down out.new) result }
{
    if most <= room.len() - end {
        return Ok(end);
    }
    match write_all(out, &room[..end]) {
        Ok(()) => Ok(0),
        Err(failed) => Err(failed),
    }
}

/// Puts bytes at a place, and says where they end.
pub fn put(room: &mut [u8], at: usize, bytes: &[u8]) -> usize
    requires { at + length bytes.now ≤ length room.old }
    ensures end { result ≡ at + length bytes.now }
    ensures front { take result room.new ≡ take at room.old ++ bytes.now }
{
    let end = at + bytes.len();
    room[at..end].copy_from_slice(bytes);
    end
}

/// Puts the line of a tick behind what waits, and says where it ends. The outputs of these names have these values.
pub fn put_tick(room: &mut [u8], end: usize, tick: u64, names: &Labels, values: &[i32]) -> usize
    requires values { length values.now ≡ length names.now }
    requires room { end + min (tick_room names.now) (2 ^ 64 - 1) ≤ length room.old }
    ensures within { result ≤ length room.old }
    ensures front { take result room.new ≡ take end room.old ++ tick_line tick names.now values.now }
{
    let length = line(tick, names, values, &mut room[end..]);
    end + length
}

/// Puts the ending as a line behind what waits, and says where it ends.
pub fn put_ending(room: &mut [u8], end: usize, ending: &[u8]) -> usize
    requires { end + (length ending.now + 1) ≤ length room.old }
    ensures within { result ≤ length room.old }
    ensures front { take result room.new ≡ take end room.old ++ (ending.now ++ codes "\n") }
{
    let at = put(room, end, ending);
    put(room, at, b"\n")
}
