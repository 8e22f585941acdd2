//! The values of a row.
ghost use Rattle.std.specs.Prelude.{◌≡◌, ◌<◌, ◌≤◌, true, false, length, Some, None, IsTrue};
ghost use Rattle.std.specs.List.{All};
ghost use Rattle.trace_rows.specs.Words.{line_words};
ghost use Rattle.trace_rows.specs.Trace.{numbers_in, arranged};

use crate::numbers::number_at;
use crate::words::skip_blanks;

/// Reads the numbers of a line, where its words are as many numbers as there are values. Else some values may be
/// written.
pub fn read_numbers(line: &[u8], values: &mut [i32]) -> bool
    ensures yes { IsTrue result → numbers_in (length values.old) (line_words line.now) ≡ Some values.new }
    ensures no { result ≡ false → numbers_in (length values.old) (line_words line.now) ≡ None }
{
    let mut rest = skip_blanks(line);
    let mut count = 0;
    'words: while !rest.is_empty() {
        if count == values.len() {
            return false;
        }
        let Some(number) = number_at(rest) else {
            return false;
        };
        values[count] = number.value;
        count += 1;
        rest = skip_blanks(&rest[number.len..]);
    }
    count == values.len()
}

/// Puts the values at these places into a row.
pub fn arrange(values: &[i32], places: &[usize], row: &mut [i32])
    requires within { All (λ place. place < length values.now) places.now }
    requires same { length row.old ≡ length places.now }
    ensures { row.new ≡ arranged places.now values.now }
{
    for i in 0..row.len() {
        row[i] = values[places[i]];
    }
}
