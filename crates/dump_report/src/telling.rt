//! What a dump tells.
ghost use Rattle.std.specs.Prelude.{◌≡◌, ◌≤◌, ◌+◌, ◌^◌, ◌-◌, length, take, min, IfOk, OnOk, OnErr};
ghost use Rattle.std.specs.Io.KnownBytes.{Appends};
ghost use Rattle.std.specs.List.{AllByRecursion};
ghost use Rattle.trace_rows.specs.Calls.{Faults};
ghost use Rattle.trace_rows.specs.Report.{tick_room};
ghost use Rattle.wave_dump.specs.Wave.{AreValues, IsDump};
ghost use Rattle.wave_dump.specs.Dumps.{plain_dump, plain_ticks};
ghost use Rattle.whole_writes.specs.Calls.{AppendsFront};
ghost use Rattle.dump_report.specs.Calls.{Sends, TellsReport};
ghost use Rattle.dump_report.specs.Told.{told_report, told_lines, told_ticks};

use crate::room::{make_room, put_ending, put_tick};
use crate::status::DumpStatus;
use forec_base::{Failed, Labels, Sink};
use std::alloc::Global;
use trace_rows::line_room;
use wave_dump::Dump;
use whole_writes::write_all;

/// What is written at once where many lines wait.
const PIECE: usize = 65536;

/// Puts the line of each tick into the room, from tick 1 on, and writes what waits where a further line may not fit: so
/// many bytes at most. Gives how many bytes wait then. At an `Err` a front of the lines is written.
fn tell_ticks<K: Sink>(
    names: &Labels,
    ticks: &[Vec<i32>],
    most: usize,
    room: &mut [u8],
    out: &mut K,
) -> Result<usize, Failed>
    requires values { AllByRecursion (AreValues (length names.now)) (plain_ticks ticks.now) }
    requires most { min (tick_room names.now) (2 ^ 64 - 1) ≤ most }
    requires ample { most ≤ length room.old }
    ensures within { IfOk result (λ end. end ≤ length room.old) }
    ensures ok { IfOk result (λ end. Sends (K.held out.old) (K.held out.new)
        (told_ticks 1 names.now (plain_ticks ticks.now)) (take end room.new)) }
    ensures err { OnErr result (AppendsFront (K.held out.old) (K.held out.new)
        (told_ticks 1 names.now (plain_ticks ticks.now))) }
    ensures cause { Faults (K.faults out.old) (K.faults out.new) (K.down out.new) result }
{
    let mut end = 0;
    for i in 0..ticks.len() {
        match make_room(room, end, most, out) {
            Ok(next) => end = put_tick(room, next, i as u64 + 1, names, &ticks[i]),
            Err(failed) => return Err(failed),
        }
    }
    Ok(end)
}

/// Writes what a dump tells, in room that holds the longest of its lines. At an `Err` a front of it is written.
fn tell_lines<K: Sink>(dump: &Dump, most: usize, room: &mut [u8], out: &mut K) -> Result<(), Failed>
    requires dump { IsDump (plain_dump dump.now) }
    requires ticks { min (tick_room dump.now.names) (2 ^ 64 - 1) ≤ most }
    requires ending { length dump.now.ending.items + 1 ≤ most }
    requires ample { most ≤ length room.old }
    ensures ok { OnOk result (Appends (K.held out.old) (K.held out.new) (told_lines (plain_dump dump.now))) }
    ensures err { OnErr result (AppendsFront (K.held out.old) (K.held out.new) (told_lines (plain_dump dump.now))) }
    ensures cause { Faults (K.faults out.old) (K.faults out.new) (K.down out.new) result }
{
    let waiting = tell_ticks(&dump.names, &dump.ticks, most, room, out)?;
    let left = make_room(room, waiting, most, out)?;
    let end = put_ending(room, left, &dump.ending);
    write_all(out, &room[..end])
}

/// Writes what a dump tells. All memory that it takes is taken before the first byte is written.
pub fn tell_read<K: Sink>(alloc: Global, dump: &Dump, out: &mut K) -> DumpStatus
    requires { IsDump (plain_dump dump.now) }
    ensures { TellsReport K.held K.faults K.down (told_report (plain_dump dump.now)) out.old out.new result }
{
    let most = line_room(&dump.names).max(dump.ending.len() + 1);
    let Ok(mut room) = vec![in alloc; 0u8; most.saturating_add(PIECE)] else {
        return DumpStatus::NoMemory;
    };
    match tell_lines(dump, most, room.as_mut_slice(), out) {
        Ok(()) => DumpStatus::Done,
        Err(_) => DumpStatus::WriteFault,
    }
}
