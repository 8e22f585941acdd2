//! How what a run tells is written.
ghost use Rattle.std.specs.Prelude.{◌≡◌, ◌≤◌, ◌-◌, ◌^◌, length, take, min, string_bytes, IfOk};
ghost use Rattle.trace_ticks.specs.Formats.{IsFit, after_words, before_words, format_for, format_after, names_in, opening, room_in, tick_written};

use forec_base::{Labels, OutOfMemory};
use std::alloc::Global;
use trace_rows::{line, line_room};
use wave_dump::{Waver, head, wave_room};

/// What a run tells: its report, or the same as a value change dump.
#[derive(Clone, Copy, Debug, PartialEq, Eq)]
pub enum Telling {
    Report,
    Wave,
}

/// How what a run tells is written, with the names of the outputs in order of declaration.
#[derive(Drop)]
pub enum Format {
    /// As the lines of a report.
    Report { names: Labels },
    /// As a value change dump, by what each output had in the tick before.
    Wave { names: Labels, waver: Waver },
}

impl Format {
    /// Before tick 1, for outputs of these names, which are at most 64.
    ///
    /// # Errors
    ///
    /// Out of memory.
    pub fn new(alloc: Global, telling: Telling, names: Labels) -> Result<Format, OutOfMemory>
        requires { length names ≤ 64 }
        ensures format { IfOk result (λ f. f ≡ format_for telling names) }
        ensures fit { IfOk result IsFit }
    {
        match telling {
            Telling::Report => Ok(Format::Report { names }),
            Telling::Wave => {
                let waver = Waver::new(alloc, names.len() as usize)?;
                Ok(Format::Wave { names, waver })
            }
        }
    }

    /// What stands before tick 1.
    ///
    /// # Errors
    ///
    /// Out of memory.
    pub fn opening(&self, alloc: Global) -> Result<String, OutOfMemory>
        requires { IsFit self.now }
        ensures { IfOk result (λ text. string_bytes text ≡ opening self.now) }
    {
        match self {
            Format::Report { .. } => Ok(String::from_str(alloc, "")?),
            Format::Wave { names, .. } => head(alloc, names),
        }
    }

    /// How many bytes the lines of a tick take at most. Where that is more than a `usize` holds it is the greatest one.
    pub fn room(&self) -> usize
        ensures { result ≡ min (room_in self.now) (2 ^ 64 - 1) }
    {
        match self {
            Format::Report { names } => line_room(names),
            Format::Wave { names, .. } => wave_room(names.len() as usize),
        }
    }

    /// What stands before the words of the last line.
    pub fn before_words(&self) -> &'static [u8]
        ensures text { result.now ≡ before_words self.now }
        ensures short { length result.now ≤ 9 }
    {
        match self {
            Format::Report { .. } => b"",
            Format::Wave { .. } => b"$comment ",
        }
    }

    /// What stands behind the words of the last line.
    pub fn after_words(&self) -> &'static [u8]
        ensures text { result.now ≡ after_words self.now }
        ensures short { length result.now ≤ 6 }
    {
        match self {
            Format::Report { .. } => b"\n",
            Format::Wave { .. } => b" $end\n",
        }
    }

    /// Writes the lines of a tick, in which the outputs have these values, to the front of a buffer, and says how many
    /// bytes they have. It takes no memory.
    pub fn write_tick(&mut self, tick: u64, values: &[i32], buffer: &mut [u8]) -> usize
        requires fit { IsFit self.old }
        requires values { length values.now ≡ length (names_in self.old) }
        requires room { min (room_in self.old) (2 ^ 64 - 1) ≤ length buffer.old }
        ensures lines { take result buffer.new ≡ tick_written self.old tick values.now }
        ensures format { self.new ≡ format_after self.old values.now }
        ensures fits { result ≤ length buffer.new }
        ensures room { length buffer.new ≡ length buffer.old }
    {
        match self {
            Format::Report { names } => line(tick, names, values, buffer),
            Format::Wave { waver, .. } => waver.tick(tick, values, buffer),
        }
    }
}
