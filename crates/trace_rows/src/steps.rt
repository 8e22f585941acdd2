//! The steps of a reader of rows.
ghost use Rattle.std.specs.Prelude.{◌≡◌, ◌≤◌, true, false, length, Err};
ghost use Rattle.std.specs.Io.KnownBytes.{IsAtEnd};
ghost use Rattle.forec_base.specs.Outside.{Fell};
ghost use Rattle.trace_rows.specs.Held.{held};
ghost use Rattle.trace_rows.specs.Reader.{Came, HasLine};
ghost use Rattle.trace_rows.specs.SourceReads.{Gathers};
ghost use Rattle.trace_rows.specs.Steps.{LinesTakeHeader, LinesReadHeader, FindsNext};

use crate::fault::{Next, RowFault};
use crate::header::read_form;
use crate::lines::Lines;
use forec_base::{Labels, Source};

/// Takes the header off a trace, and says whether the rows have changes alone. Else the places are those of the inputs.
pub fn take_header<S: Source>(
    lines: &mut Lines,
    source: &mut S,
    inputs: &Labels,
    places: &mut Vec<usize>,
) -> Result<bool, RowFault>
    requires places { length places.old.items ≡ length inputs.now }
    requires ended { lines.old.ended ≡ true → IsAtEnd (S.left source.old) }
    ensures header { LinesTakeHeader inputs.now places.new.items lines.old lines.new (S.left source.old)
        (S.left source.new) result }
    ensures reads { LinesReadHeader S.left S.faults S.down inputs.now places.new.items lines.old lines.new source.old
        source.new result }
    ensures places { length places.new.items ≡ length places.old.items }
    ensures ended { lines.new.ended ≡ true → IsAtEnd (S.left source.new) }
    ensures later { S.faults source.old ≤ S.faults source.new }
    ensures fault { result ≡ Err RowFault.ReadFault → Fell (S.faults source.old) (S.faults source.new)
        (S.down source.new) }
{
    match lines.find(source) {
        Err(fault) => return Err(fault),
        Ok(Next::End) => return Err(RowFault::Bad),
        Ok(Next::Row) => {}
    }
    let Some(changes) = read_form(lines.line(), inputs, places) else {
        return Err(RowFault::Bad);
    };
    lines.pass();
    Ok(changes)
}

/// Looks for the line after so many rows, of at most `limit`. A line beyond the limit needn't be whole.
pub fn find_next<S: Source>(
    lines: &mut Lines,
    source: &mut S,
    given: u64,
    limit: u64,
) -> Result<Next, RowFault>
    requires ended { lines.old.ended ≡ true → IsAtEnd (S.left source.old) }
    ensures came { Came (held lines.old) (held lines.new) (S.left source.old) (S.left source.new) }
    ensures reads { Gathers S.left S.faults S.down (held lines.old) lines.old.ended (held lines.new) source.old
        source.new }
    ensures finds { FindsNext limit given (held lines.new) lines.new.ended result }
    ensures ended { lines.new.ended ≡ true → IsAtEnd (S.left source.new) }
    ensures stays { lines.new.ended ≡ false → lines.old.ended ≡ false }
    ensures asks { HasLine (held lines.old) → source.new ≡ source.old }
    ensures closed { lines.old.ended ≡ true → source.new ≡ source.old }
    ensures later { S.faults source.old ≤ S.faults source.new }
    ensures fault { result ≡ Err RowFault.ReadFault → Fell (S.faults source.old) (S.faults source.new)
        (S.down source.new) }
{
    if given >= limit {
        return match lines.begins(source) {
            Err(_) => Err(RowFault::ReadFault),
            Ok(true) => Err(RowFault::Many),
            Ok(false) => Ok(Next::End),
        };
    }
    lines.find(source)
}
