//! Lines out of a source that gives its bytes in pieces of any size.
ghost use Rattle.std.specs.Prelude.{◌≡◌, ◌≢◌, ◌+◌, ◌*◌, ◌<◌, ◌≤◌, ◌++◌, true, false, List, ℕ, [], length, slice_range, IfOk, IsTrue, OnOk, OnErr, IfSome, IfNone, Err, ◌↔◌, ◌⊎◌};
ghost use Rattle.std.specs.List.{position_or_len, after_first};
ghost use Rattle.std.specs.Io.KnownBytes.{IsAtEnd};
ghost use Rattle.forec_base.specs.Outside.{HasCause, Fell};
ghost use Rattle.trace_rows.specs.Calls.{Faults};
ghost use Rattle.trace_rows.specs.Lines.{is_newline};
ghost use Rattle.trace_rows.specs.Reader.{first_line, HasLine, Came};
ghost use Rattle.trace_rows.specs.SourceReads.{Gathers, IsRead};
ghost use Rattle.trace_rows.specs.declared.lines.TheConstants.{ROOM};

use crate::buffer::{fill, line_end, move_to_front};
use crate::fault::{Next, RowFault};
use forec_base::{Failed, MAX_LINE_BYTES, OutOfMemory, Source};
use std::alloc::Global;

/// The most bytes that are read at once.
const PIECE: usize = 65536;

/// The bytes of the buffer: two lines and a piece.
const ROOM: usize = 2 * MAX_LINE_BYTES + PIECE;

/// A buffer of bytes of a source, of which those from `at` to `end` aren't taken yet. At `stop` stands the first
/// byte 10 of these, or it is `end`. `ended` says that the source has told its end.
#[derive(Drop)]
pub struct Lines {
    bytes: Vec<u8>,
    at: usize,
    stop: usize,
    end: usize,
    ended: bool,
    ghost ordered: { at ≤ stop },
    ghost within: { stop ≤ end },
    ghost fits: { end ≤ length bytes.items },
    ghost room: { length bytes.items ≡ ROOM },
    ghost first: { stop ≡ at + position_or_len is_newline (slice_range bytes.items at end) },
}

impl Lines {
    ghost use Rattle.trace_rows.specs.Held.{held, FindsFirstLine, BeginsLine};

    /// Nothing is read yet. It takes all the memory that it ever needs.
    pub fn new(alloc: Global) -> Result<Lines, OutOfMemory>
        ensures held { IfOk result (λ l. held l ≡ []) }
        ensures ended { IfOk result (λ l. l.ended ≡ false) }
    {
        let bytes = vec![in alloc; 0u8; ROOM]?;
        Ok(Lines {
            bytes,
            at: 0,
            stop: 0,
            end: 0,
            ended: false,
        })
    }

    /// Whether a whole line is held.
    pub fn has_line(&self) -> bool
        ensures { IsTrue result ↔ HasLine (held self.now) }
    {
        self.stop < self.end
    }

    /// Makes room for a piece after what is held.
    fn make_room(&mut self)
        requires short { length (held self.old) ≤ MAX_LINE_BYTES }
        ensures held { held self.new ≡ held self.old }
        ensures ended { self.new.ended ≡ self.old.ended }
        ensures room { self.new.end ≤ 2 * MAX_LINE_BYTES }
    {
        if self.end > 2 * MAX_LINE_BYTES {
            let count = self.end - self.at;
            move_to_front(&mut self.bytes, self.at, count);
            self.stop -= self.at;
            self.end = count;
            self.at = 0;
        }
    }

    /// Reads the next piece.
    fn refill<S: Source>(&mut self, source: &mut S) -> Result<(), Failed>
        requires short { length (held self.old) ≤ MAX_LINE_BYTES }
        requires none { HasLine (held self.old) → ⊥ }
        requires going { self.old.ended ≡ false }
        ensures read { (piece : List ℕ) × (held self.new ≡ held self.old ++ piece)
            × IsRead S.left S.faults S.down source.old source.new piece }
        ensures ok { OnOk result ((length (held self.old) < length (held self.new)) ⊎ (self.new.ended ≡ true)) }
        ensures err { OnErr result ((held self.new ≡ held self.old) × (self.new.ended ≡ false)) }
        ensures ended { self.new.ended ≡ true → IsAtEnd (S.left source.new) × (held self.new ≡ held self.old) }
        ensures cause { HasCause (S.faults source.old) (S.faults source.new) (S.down source.new) result }
    {
        self.make_room();
        let count = match fill(source, &mut self.bytes, self.end) {
            Ok(count) => count,
            Err(failed) => return Err(failed),
        };
        self.ended = count == 0;
        self.stop = self.end + line_end(&self.bytes[self.end..self.end + count]);
        self.end += count;
        Ok(())
    }

    /// What the bytes that are held tell of the first line, if no further ones are needed.
    fn found(&self) -> Option<Result<Next, RowFault>>
        ensures some { IfSome result (λ f. FindsFirstLine (held self.now) self.now.ended f) }
        ensures told { IfSome result (λ f. f ≢ Err RowFault.ReadFault) }
        ensures none { IfNone result ((HasLine (held self.now) → ⊥) × (self.now.ended ≡ false)
            × (length (held self.now) ≤ 8192)) }
    {
        if self.stop - self.at > MAX_LINE_BYTES {
            return Some(Err(RowFault::Long));
        }
        if self.stop < self.end {
            return Some(Ok(Next::Row));
        }
        if !self.ended {
            return None;
        }
        if self.at == self.end {
            return Some(Ok(Next::End));
        }
        Some(Ok(Next::Row))
    }

    /// Finds the first line of what is held and comes, and takes nothing. No read is made where a whole line is held.
    ///
    /// Errors: `Long` where it has more than 8,192 bytes, though it may not have come whole; `ReadFault` only where the
    /// source failed and no whole line had come.
    pub fn find<S: Source>(&mut self, source: &mut S) -> Result<Next, RowFault>
        requires { self.old.ended ≡ true → IsAtEnd (S.left source.old) }
        ensures came { Came (held self.old) (held self.new) (S.left source.old) (S.left source.new) }
        ensures reads { Gathers S.left S.faults S.down (held self.old) self.old.ended (held self.new) source.old
            source.new }
        ensures finds { FindsFirstLine (held self.new) self.new.ended result }
        ensures ended { self.new.ended ≡ true → IsAtEnd (S.left source.new) }
        ensures stays { self.new.ended ≡ false → self.old.ended ≡ false }
        ensures asks { HasLine (held self.old) → source.new ≡ source.old }
        ensures closed { self.old.ended ≡ true → source.new ≡ source.old }
        ensures later { S.faults source.old ≤ S.faults source.new }
        ensures fault { result ≡ Err RowFault.ReadFault → Fell (S.faults source.old) (S.faults source.new)
            (S.down source.new) }
    {
        'pieces: loop {
            if let Some(found) = self.found() {
                return found;
            }
            if let Err(_) = self.refill(source) {
                return Err(RowFault::ReadFault);
            }
        }
    }

    /// Whether a further line begins. A read is made only where nothing is held.
    pub fn begins<S: Source>(&mut self, source: &mut S) -> Result<bool, Failed>
        requires { self.old.ended ≡ true → IsAtEnd (S.left source.old) }
        ensures came { Came (held self.old) (held self.new) (S.left source.old) (S.left source.new) }
        ensures reads { Gathers S.left S.faults S.down (held self.old) self.old.ended (held self.new) source.old
            source.new }
        ensures begins { BeginsLine (held self.new) self.new.ended result }
        ensures ended { self.new.ended ≡ true → IsAtEnd (S.left source.new) }
        ensures stays { self.new.ended ≡ false → self.old.ended ≡ false }
        ensures asks { HasLine (held self.old) → source.new ≡ source.old }
        ensures closed { self.old.ended ≡ true → source.new ≡ source.old }
        ensures cause { Faults (S.faults source.old) (S.faults source.new) (S.down source.new) result }
    {
        if self.at < self.end {
            return Ok(true);
        }
        if self.ended {
            return Ok(false);
        }
        match self.refill(source) {
            Ok(()) => Ok(self.at < self.end),
            Err(failed) => Err(failed),
        }
    }

    /// The bytes of the first line that is held, as far as they came.
    pub fn line(&self) -> &[u8]
        ensures { result.now ≡ first_line (held self.now) }
    {
        &self.bytes[self.at..self.stop]
    }

    /// Takes the first line.
    pub fn pass(&mut self)
        ensures held { held self.new ≡ after_first is_newline (held self.old) }
        ensures ended { self.new.ended ≡ self.old.ended }
    {
        self.at = (self.stop + 1).min(self.end);
        self.stop = self.at + line_end(&self.bytes[self.at..self.end]);
    }
}
