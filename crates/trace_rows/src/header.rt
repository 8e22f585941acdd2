//! The header of a trace.
ghost use Rattle.std.specs.Prelude.{◌≡◌, true, false, length, count_by, IsTrue, IfSome, IfNone, Some, None};
ghost use Rattle.std.specs.List.{position_or_len};
ghost use Rattle.std.specs.Str.{bytes_eq};
ghost use Rattle.trace_rows.specs.Words.{line_words};
ghost use Rattle.trace_rows.specs.Trace.{first_form, form_of, is_mark, names_each, places_of};

use crate::words::next_word;
use forec_base::Labels;

fn count_words(line: &[u8]) -> usize
    ensures { result ≡ length (line_words line.now) }
{
    let mut rest = line;
    let mut count = 0;
    'words: while let Some((_word, after)) = next_word(rest) {
        count += 1;
        rest = after;
    }
    count
}

/// How often a name stands among the words of a line.
fn count_name(line: &[u8], name: &[u8]) -> usize
    ensures { result ≡ count_by (bytes_eq name.now) (line_words line.now) }
{
    let mut rest = line;
    let mut count = 0;
    'words: while let Some((word, after)) = next_word(rest) {
        if name == word {
            count += 1;
        }
        rest = after;
    }
    count
}

/// Where a name stands first among the words of a line, or how many words there are.
fn first_place(line: &[u8], name: &[u8]) -> usize
    ensures { result ≡ position_or_len (bytes_eq name.now) (line_words line.now) }
{
    let mut rest = line;
    let mut place = 0;
    'words: while let Some((word, after)) = next_word(rest) {
        if name == word {
            return place;
        }
        place += 1;
        rest = after;
    }
    place
}

/// Finds the place of each of these inputs in a header. Where it doesn't have each once, some places may be written.
fn read_header(line: &[u8], inputs: &Labels, places: &mut [usize]) -> bool
    requires { length places.old ≡ length inputs.now }
    ensures yes { IsTrue result → (names_each inputs.now (line_words line.now) ≡ true) }
    ensures places { IsTrue result → places.new ≡ places_of inputs.now (line_words line.now) }
    ensures no { result ≡ false → (names_each inputs.now (line_words line.now) ≡ false) }
{
    if count_words(line) != inputs.len() as usize {
        return false;
    }
    for i in 0..inputs.len() {
        let name = inputs.get(i).as_bytes();
        if count_name(line, name) != 1 {
            return false;
        }
        places[i as usize] = first_place(line, name);
    }
    true
}

/// Whether `#2` is the only word of a line.
fn marked(line: &[u8]) -> bool
    ensures { result ≡ is_mark (line_words line.now) }
{
    let Some((word, after)) = next_word(line) else {
        return false;
    };
    let Some(_more) = next_word(after) else {
        let mark: &[u8] = b"#2";
        return mark == word;
    };
    false
}

/// Reads a header for these inputs: whether the rows have changes alone, else the place of each input. Where it is none
/// some places may be written.
pub fn read_form(line: &[u8], inputs: &Labels, places: &mut [usize]) -> Option<bool>
    requires { length places.old ≡ length inputs.now }
    ensures some { IfSome result (λ changes. form_of inputs.now (line_words line.now)
        ≡ Some (first_form inputs.now places.new changes)) }
    ensures none { IfNone result (form_of inputs.now (line_words line.now) ≡ None) }
{
    if marked(line) {
        return Some(true);
    }
    if !read_header(line, inputs, places) {
        return None;
    }
    Some(false)
}
