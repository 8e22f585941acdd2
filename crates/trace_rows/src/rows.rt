//! The rows of a trace.
ghost use Rattle.std.specs.Prelude.{◌≡◌, ◌≢◌, ◌≤◌, ◌↔◌, true, false, [], length, IfOk, IsTrue, Ok, Err};
ghost use Rattle.std.specs.Io.KnownBytes.{IsAtEnd};
ghost use Rattle.forec_base.specs.Outside.{Fell};
ghost use Rattle.trace_rows.specs.Calls.{IfTold};
ghost use Rattle.trace_rows.specs.Reader.{HasLine, StartTakes, StartSays, NextTakes, NextSays, NextLeaves};
ghost use Rattle.trace_rows.specs.SourceReads.{Reading, StartTook, NextTook};
ghost use Rattle.trace_rows.specs.Trace.{row_width};

use crate::fault::{Next, RowFault};
use crate::form::RowForm;
use crate::lines::Lines;
use crate::names::Names;
use crate::steps::{find_next, take_header};
use forec_base::{Labels, Source};
use std::alloc::Global;
use std::marker::Model;

/// Reads the rows of a trace, one after the other. Each call is handed the source that it was started with.
///
/// The rows are those of the whole text, however the source cuts its bytes. The source is asked for bytes only where no
/// whole line is held, and never again once it has told its end. So a row that came whole is given before any further
/// read, and a source that fails later has lost none.
#[derive(Drop)]
pub struct Rows {
    lines: Lines,
    form: RowForm,
    limit: u64,
    given: u64,
    live: bool,
}

impl Model for Rows {
    ghost use Rattle.trace_rows.specs.Reader.{Reader};

    ghost Value = { Reader };

    ghost use Rattle.trace_rows.specs.Shown.{reader_of};

    ghost view = { reader_of };
}

impl Rows {
    /// Reads the header of a trace for inputs of these names, of which at most `limit` rows are to be given. All memory
    /// that is ever needed is asked for before the source is.
    ///
    /// Errors: `Long` where the first line has more than 8,192 bytes; `Bad` where it has not and is no header, or where
    /// there is none; `ReadFault` only where the source failed and no whole line had come; `OutOfMemory`, with the source
    /// untouched.
    pub fn start<S: Source>(
        alloc: Global,
        source: &mut S,
        inputs: &Labels,
        limit: u64,
    ) -> Result<Rows, RowFault>
        ensures trace { IfTold (S.left source.old) (S.left source.new) (StartSays inputs.now limit result) }
        ensures bytes { StartTakes inputs.now (S.left source.old) (S.left source.new) result }
        ensures reads { Reading S.left S.faults S.down [] false source.old source.new (StartTook inputs.now result) }
        ensures rows { IfOk result (λ r. (row_width r.form ≡ length inputs.now) × (r.limit ≡ limit) × (r.given ≡ 0)
            × (r.live ≡ true)) }
        ensures ended { IfOk result (λ r. r.ended ≡ true → IsAtEnd (S.left source.new)) }
        ensures memory { result ≡ Err RowFault.OutOfMemory → source.new ≡ source.old }
        ensures many { result ≢ Err RowFault.Many }
        ensures later { S.faults source.old ≤ S.faults source.new }
        ensures fault { result ≡ Err RowFault.ReadFault → Fell (S.faults source.old) (S.faults source.new)
            (S.down source.new) }
    {
        let mut lines = Lines::new(alloc)?;
        let mut places = vec![in alloc; 0usize; inputs.len() as usize]?;
        let values = vec![in alloc; 0i32; inputs.len() as usize]?;
        let named = vec![in alloc; false; inputs.len() as usize]?;
        let names = Names::new(alloc, inputs)?;
        let changes = match take_header(&mut lines, source, inputs, &mut places) {
            Ok(changes) => changes,
            Err(fault) => return Err(fault),
        };
        let form = RowForm {
            changes,
            names,
            places,
            values,
            named,
        };
        Ok(Rows {
            lines,
            form,
            limit,
            given: 0,
            live: true,
        })
    }

    /// Whether a further row may be asked for: no call has answered `End` or a fault.
    pub fn live(&self) -> bool
        ensures { result ≡ self.now.live }
    {
        self.live
    }

    /// Whether a whole line is held, so that the next row is given without a read.
    pub fn has_line(&self) -> bool
        ensures { IsTrue result ↔ HasLine self.now.held }
    {
        self.lines.has_line()
    }

    /// Gives the next row, one value for each input in order of declaration, or tells the end of the trace. What `row`
    /// holds before counts for nothing. At `End` and at a fault it stays, and no further one may be asked for. It takes
    /// no memory.
    ///
    /// Errors: `Many` where `limit` rows were given and a further line begins; else `Long` where the next line has more
    /// than 8,192 bytes, though it may not have come whole; else `Bad` where it is no row; `ReadFault` only where the
    /// source failed and no whole line had come.
    pub fn next<S: Source>(&mut self, source: &mut S, row: &mut [i32]) -> Result<Next, RowFault>
        requires live { self.old.live ≡ true }
        requires width { length row.old ≡ row_width self.old.form }
        requires ended { self.old.ended ≡ true → IsAtEnd (S.left source.old) }
        ensures trace { IfTold (S.left source.old) (S.left source.new) (NextSays self.old self.new row.new result) }
        ensures bytes { NextTakes self.old self.new row.new (S.left source.old) (S.left source.new) result }
        ensures reads { Reading S.left S.faults S.down self.old.held self.old.ended source.old source.new
            (NextTook self.old self.new row.new result) }
        ensures goes { NextLeaves self.old self.new row.old row.new result }
        ensures same { self.new.limit ≡ self.old.limit }
        ensures ended { self.new.ended ≡ true → IsAtEnd (S.left source.new) }
        ensures stays { self.new.ended ≡ false → self.old.ended ≡ false }
        ensures asks { HasLine self.old.held → source.new ≡ source.old }
        ensures closed { self.old.ended ≡ true → source.new ≡ source.old }
        ensures memory { result ≢ Err RowFault.OutOfMemory }
        ensures later { S.faults source.old ≤ S.faults source.new }
        ensures fault { result ≡ Err RowFault.ReadFault → Fell (S.faults source.old) (S.faults source.new)
            (S.down source.new) }
    {
        self.live = false;
        match find_next(&mut self.lines, source, self.given, self.limit) {
            Err(fault) => return Err(fault),
            Ok(Next::End) => return Ok(Next::End),
            Ok(Next::Row) => {}
        }
        if !self.form.read(self.lines.line(), row) {
            return Err(RowFault::Bad);
        }
        self.lines.pass();
        self.given += 1;
        self.live = true;
        Ok(Next::Row)
    }
}
