//! How the rows of a trace are read.
ghost use Rattle.std.specs.Prelude.{◌≡◌, ◌<◌, true, false, length, Some, None, IsTrue};
ghost use Rattle.std.specs.List.{All};
ghost use Rattle.trace_rows.specs.Words.{line_words};
ghost use Rattle.trace_rows.specs.Trace.{next_form, row_of, row_width};

use crate::changes::read_changes;
use crate::names::Names;
use crate::values::{arrange, read_numbers};

/// In form 1 the numbers of a row go to `values` in the header's order, and `places` has the place of each input among
/// them. In form 2, where `changes` says so, `values` has the last row, and `named` which inputs the next one names.
#[derive(Drop)]
pub struct RowForm {
    pub changes: bool,
    pub names: Names,
    pub places: Vec<usize>,
    pub values: Vec<i32>,
    pub named: Vec<bool>,
    ghost each: { length values.items ≡ length names.texts },
    ghost flags: { length named.items ≡ length names.texts },
    ghost columns: { length places.items ≡ length names.texts },
    ghost inside: { changes ≡ false → All (λ place. place < length values.items) places.items },
}

impl RowForm {
    ghost use Rattle.trace_rows.specs.RowForms.{shown_form};

    /// Reads the words of a line as a row, and keeps what the next one needs of it. Where it is none the row stays.
    pub fn read(&mut self, line: &[u8], row: &mut [i32]) -> bool
        requires { length row.old ≡ row_width (shown_form self.old) }
        ensures yes { IsTrue result → row_of (shown_form self.old) (line_words line.now) ≡ Some row.new }
        ensures next { IsTrue result → shown_form self.new ≡ next_form (shown_form self.old) row.new }
        ensures no { result ≡ false → row_of (shown_form self.old) (line_words line.now) ≡ None }
        ensures stays { result ≡ false → row.new ≡ row.old }
    {
        if self.changes {
            if !read_changes(line, &self.names, &mut self.values, &mut self.named) {
                return false;
            }
            row.copy_from_slice(&self.values);
            return true;
        }
        if !read_numbers(line, &mut self.values) {
            return false;
        }
        arrange(&self.values, &self.places, row);
        true
    }
}
