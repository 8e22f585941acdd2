//! Finished lines of the report that aren't with the sink yet.
ghost use Rattle.std.specs.Prelude.{◌≡◌, ◌≢◌, ◌+◌, ◌-◌, ◌^◌, ◌≤◌, ◌++◌, ◌∷◌, [], ℤ, List, length, min, take, codes, decimal, vec_len, vec_capacity, true, IfOk, OnOk, OnErr, IsTrue};
ghost use Rattle.std.specs.Io.KnownBytes.{Appends};
ghost use Rattle.trace_rows.specs.Calls.{Faults};
ghost use Rattle.tick_jobs.specs.Outcomes.{HasOutputs};
ghost use Rattle.whole_writes.specs.Calls.{AppendsFront};
ghost use Rattle.forec_kernel.specs.Ticks.{goes_on};
ghost use Rattle.trace_rows.specs.Report.{end_words, trap_word, trap_words, over_words, rows_words, fault_word, row_words};
ghost use Rattle.trace_ticks.specs.Formats.{IsFit, after_words, before_words, format_after, last_written, names_in, opening, room_in, tick_written};
ghost use Rattle.trace_ticks.specs.Report.{outcome_lines};
ghost use Rattle.trace_ticks.specs.Workload.{workload_line};

use crate::format::Format;
use crate::status::Status;
use forec_base::{Failed, Labels, OutOfMemory, Place, Sink, Trap};
use forec_kernel::Outcome;
use itoa::Buffer;
use std::alloc::Global;
use trace_rows::RowFault;
use whole_writes::write_all;

/// Room for the lines of a tick, that of its outputs apart.
const TICK_ROOM: usize = 96;

/// What is written at once where many lines wait.
const PIECE: usize = 65536;

/// Lines that wait, in room that is made once, and how they are written. In `line` the lines of a tick are made.
#[derive(Drop)]
pub struct Waiting {
    pub bytes: Vec<u8>,
    pub line: Vec<u8>,
    pub format: Format,
    ghost fits: { length line.items + 96 ≤ vec_capacity bytes },
    ghost ample: { 128 ≤ vec_capacity bytes },
    ghost whole: { min (room_in format) (2 ^ 64 - 1) ≤ length line.items },
    ghost fit: { IsFit format },
}

/// Adds bytes for which there is room.
fn append(to: &mut Vec<u8>, bytes: &[u8])
    requires { vec_len to.old + length bytes.now ≤ vec_capacity to.old }
    ensures items { to.new.items ≡ to.old.items ++ bytes.now }
    ensures capacity { vec_capacity to.old ≤ vec_capacity to.new }
{
    let Ok(()) = to.extend_from_slice(bytes) else {
        unreachable!()
    };
}

impl Waiting {
    ghost use Rattle.trace_ticks.specs.Ends.{IsOwn};
    ghost use Rattle.trace_ticks.specs.Prints.{PrintsReport};
    ghost use Rattle.trace_ticks.specs.WaitingRoom.{HasRoomFor, HasTickRoom, AddsLines, GainsBytes, IsPlain};

    /// What stands before tick 1 waits. There is room for the lines of a tick that are written so.
    pub fn new(alloc: Global, format: Format) -> Result<Waiting, OutOfMemory>
        requires { IsFit format }
        ensures opened { IfOk result (λ w. w.bytes.items ≡ opening w.format) }
        ensures format { IfOk result (λ w. w.format ≡ format) }
        ensures ample { IfOk result (λ w. HasRoomFor w 128) }
    {
        let opening = format.opening(alloc)?;
        let line = vec![in alloc; 0u8; format.room()]?;
        let room = opening.len().saturating_add(line.len() + TICK_ROOM + PIECE);
        let mut bytes = Vec::with_capacity(alloc, room)?;
        append(&mut bytes, opening.as_bytes());
        Ok(Waiting {
            bytes,
            line,
            format,
        })
    }

    /// Nothing waits, no tick is run, and lines are written as in a report.
    pub fn plain(alloc: Global) -> Result<Waiting, OutOfMemory>
        ensures empty { IfOk result (λ w. w.bytes.items ≡ []) }
        ensures plain { IfOk result IsPlain }
        ensures ample { IfOk result (λ w. HasRoomFor w 128) }
    {
        let names = Labels::new(alloc)?;
        Waiting::new(alloc, Format::Report { names })
    }

    /// Whether the lines of a further tick fit.
    pub fn has_room(&self) -> bool
        ensures { IsTrue result → HasTickRoom self.now }
    {
        self.bytes.capacity() - self.bytes.len() >= self.line.len() + TICK_ROOM
    }

    /// Adds bytes for which there is room.
    pub fn put(&mut self, bytes: &[u8])
        requires { HasRoomFor self.old (length bytes.now) }
        ensures { GainsBytes self.old self.new bytes.now }
    {
        append(&mut self.bytes, bytes);
    }

    /// Adds a number in decimal.
    pub fn put_number(&mut self, number: u64)
        requires { HasRoomFor self.old 20 }
        ensures number { GainsBytes self.old self.new (decimal number) }
        ensures short { length (decimal number) ≤ 20 }
    {
        self.put(Buffer::new().format(number).as_bytes());
    }

    /// Adds the lines of a tick whose outputs have these values.
    fn put_tick(&mut self, tick: u64, values: &[i32])
        requires room { HasRoomFor self.old (length self.old.line.items) }
        requires values { length values.now ≡ length (names_in self.old.format) }
        ensures lines { AddsLines self.old self.new (tick_written self.old.format tick values.now) }
        ensures short { length (tick_written self.old.format tick values.now) ≤ length self.old.line.items }
        ensures format { self.new.format ≡ format_after self.old.format values.now }
    {
        let length = self.format.write_tick(tick, values, &mut self.line);
        append(&mut self.bytes, &self.line[..length]);
    }

    /// Adds what stands before the words of the last line.
    fn begin_last(&mut self)
        requires { HasRoomFor self.old 9 }
        ensures last { GainsBytes self.old self.new (before_words self.old.format) }
        ensures short { length (before_words self.old.format) ≤ 9 }
    {
        let words = self.format.before_words();
        self.put(words);
    }

    /// Adds what stands behind the words of the last line.
    fn end_last(&mut self)
        requires { HasRoomFor self.old 6 }
        ensures { GainsBytes self.old self.new (after_words self.old.format) }
    {
        let words = self.format.after_words();
        self.put(words);
    }

    fn put_end_words(&mut self, tick: u64)
        requires { HasRoomFor self.old 24 }
        ensures words { GainsBytes self.old self.new (end_words tick) }
        ensures short { length (end_words tick) ≤ 24 }
    {
        self.put(b"end ");
        self.put_number(tick);
    }

    fn put_end(&mut self, tick: u64)
        requires { HasRoomFor self.old 96 }
        ensures { GainsBytes self.old self.new (last_written self.old.format (end_words tick)) }
    {
        self.begin_last();
        self.put_end_words(tick);
        self.end_last();
    }

    fn put_trap_words(&mut self, tick: u64, place: Place, trap: Trap)
        requires { HasRoomFor self.old 64 }
        ensures words { GainsBytes self.old self.new (trap_words tick place trap) }
        ensures short { length (trap_words tick place trap) ≤ 64 }
    {
        self.put(b"trap ");
        self.put_number(tick);
        self.put(b" ");
        self.put(Buffer::new().format(place.line).as_bytes());
        self.put(b":");
        self.put(Buffer::new().format(place.column).as_bytes());
        self.put(trap_text(trap));
    }

    /// Adds the last line, of a tick that trapped here.
    pub fn put_trap(&mut self, tick: u64, place: Place, trap: Trap)
        requires { HasRoomFor self.old 96 }
        ensures { GainsBytes self.old self.new (last_written self.old.format (trap_words tick place trap)) }
    {
        self.begin_last();
        self.put_trap_words(tick, place, trap);
        self.end_last();
    }

    fn put_over_words(&mut self, tick: u64, budget: u64)
        requires { HasRoomFor self.old 64 }
        ensures words { GainsBytes self.old self.new (over_words tick budget) }
        ensures short { length (over_words tick budget) ≤ 64 }
    {
        self.put(b"over ");
        self.put_number(tick);
        self.put(b" budget ");
        self.put_number(budget);
    }

    /// Adds the last line, of a tick whose units passed the budget.
    pub fn put_over(&mut self, tick: u64, budget: u64)
        requires { HasRoomFor self.old 96 }
        ensures { GainsBytes self.old self.new (last_written self.old.format (over_words tick budget)) }
    {
        self.begin_last();
        self.put_over_words(tick, budget);
        self.end_last();
    }

    fn put_rows_words(&mut self, rows: u64)
        requires { HasRoomFor self.old 25 }
        ensures words { GainsBytes self.old self.new (rows_words rows) }
        ensures short { length (rows_words rows) ≤ 25 }
    {
        self.put(b"rows ");
        self.put_number(rows);
    }

    /// Adds the last line, of a trace that ended after so many rows.
    pub fn put_rows(&mut self, rows: u64)
        requires { HasRoomFor self.old 96 }
        ensures { GainsBytes self.old self.new (last_written self.old.format (rows_words rows)) }
    {
        self.begin_last();
        self.put_rows_words(rows);
        self.end_last();
    }

    fn put_row_words(&mut self, row: u64, fault: RowFault)
        requires { HasRoomFor self.old 64 }
        ensures words { GainsBytes self.old self.new (row_words row fault) }
        ensures short { length (row_words row fault) ≤ 64 }
    {
        self.put(b"row ");
        self.put_number(row);
        self.put(fault_text(fault));
    }

    /// Adds the last line, of a line of the trace that is no row.
    pub fn put_row(&mut self, row: u64, fault: RowFault)
        requires { HasRoomFor self.old 96 }
        ensures { GainsBytes self.old self.new (last_written self.old.format (row_words row fault)) }
    {
        self.begin_last();
        self.put_row_words(row, fault);
        self.end_last();
    }

    /// Adds the line of a workload of so many threads, whose outputs have this sum.
    #[tactic(auto, unfolding(crate::specs::Workload::workload_line))]
    pub fn put_workload(&mut self, threads: u32, sum: u32)
        requires { HasRoomFor self.old 128 }
        ensures { GainsBytes self.old self.new (workload_line threads sum) }
    {
        self.put(b"gen ");
        self.put_number(u64::from(threads));
        self.put(b" ticks 1000 sum ");
        self.put_number(u64::from(sum));
        self.put(b"\n");
    }

    /// Adds the lines of a tick that went so, whose outputs have these values.
    pub fn put_outcome(&mut self, tick: u64, outcome: Outcome, values: &[i32], budget: u64)
        requires values { length values.now ≡ length (names_in self.old.format) }
        requires fits { HasTickRoom self.old }
        ensures lines { (outputs : List ℤ) → (HasOutputs outcome → outputs ≡ values.now)
            → AddsLines self.old self.new (outcome_lines self.old.format budget tick outcome outputs) }
        ensures format { goes_on outcome ≡ true → self.new.format ≡ format_after self.old.format values.now }
    {
        match outcome {
            Outcome::Paused => self.put_tick(tick, values),
            Outcome::Ended => {
                self.put_tick(tick, values);
                self.put_end(tick);
            }
            Outcome::Trapped { place, trap } => self.put_trap(tick, place, trap),
            Outcome::Over => self.put_over(tick, budget),
        }
    }

    /// Writes all that waits. At an `Err` a front of it is written.
    pub fn flush<K: Sink>(&mut self, out: &mut K) -> Result<(), Failed>
        ensures ok { OnOk result (Appends (K.held out.old) (K.held out.new) self.old.bytes.items) }
        ensures empty { OnOk result (self.new.bytes.items ≡ []) }
        ensures err { OnErr result (AppendsFront (K.held out.old) (K.held out.new) self.old.bytes.items) }
        ensures format { self.new.format ≡ self.old.format }
        ensures line { self.new.line ≡ self.old.line }
        ensures fits { OnOk result (HasTickRoom self.new) }
        ensures cause { Faults (K.faults out.old) (K.faults out.new) (K.down out.new) result }
    {
        match write_all(out, &self.bytes) {
            Ok(()) => {
                self.bytes.clear();
                Ok(())
            }
            Err(failed) => Err(failed),
        }
    }

    /// Writes all that waits, and gives the status, which is a report's own.
    pub fn finish<K: Sink>(&mut self, out: &mut K, status: Status) -> Status
        requires { IsOwn status }
        ensures says { PrintsReport K.held K.faults K.down (record { bytes = self.old.bytes.items; status = status })
            (status ≡ Status.Usage)
            out.old out.new result }
        ensures memory { result ≢ Status.NoMemory }
    {
        match self.flush(out) {
            Ok(()) => status,
            Err(_) => Status::WriteFault,
        }
    }
}

fn trap_text(trap: Trap) -> &'static [u8]
    ensures text { result.now ≡ trap_word trap }
    ensures short { length result.now ≤ 7 }
{
    match trap {
        Trap::Divide => b" divide",
        Trap::Index => b" index",
        Trap::Turns => b" turns",
    }
}

fn fault_text(fault: RowFault) -> &'static [u8]
    ensures text { result.now ≡ fault_word fault }
    ensures short { length result.now ≤ 5 }
{
    match fault {
        RowFault::Bad => b" bad",
        RowFault::Long => b" long",
        RowFault::Many => b" many",
        RowFault::ReadFault => b"",
        RowFault::OutOfMemory => b"",
    }
}
