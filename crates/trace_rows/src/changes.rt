//! The changes of a row.
ghost use Rattle.std.specs.Prelude.{◌≡◌, ◌<◌, ◌≤◌, false, length, take, Some, None, IsTrue, IfSome, IfNone};
ghost use Rattle.std.specs.List.{position_or_len};
ghost use Rattle.trace_rows.specs.Changes.{is_equals, change_in, row_behind};
ghost use Rattle.trace_rows.specs.Words.{is_blank, line_words};

use crate::names::{Names, next_slot};
use crate::numbers::number_at;
use crate::words::{blank, skip_blanks};

/// The name at the front of a word: its bytes, and the slot of these.
#[derive(Clone, Copy)]
struct Head {
    len: usize,
    slot: usize,
}

/// An input by its number, its new value, and how many bytes the word takes that tells it.
#[derive(Clone, Copy)]
struct Change {
    input: usize,
    value: i32,
    len: usize,
}

/// What stands before the first `=` of the first word of a text.
fn head_at(text: &[u8]) -> Option<Head>
    ensures within { IfSome result (λ h. h.len < length text.now) }
    ensures some { IfSome result (λ h. (h.len < position_or_len is_blank text.now)
        × (h.len ≡ position_or_len is_equals text.now)) }
    ensures none { IfNone result (position_or_len is_blank text.now ≤ position_or_len is_equals text.now) }
{
    let mut slot = 0;
    for i in 0..text.len() {
        let b = text[i];
        if b == 61 {
            return Some(Head { len: i, slot });
        }
        if blank(b) {
            return None;
        }
        slot = next_slot(slot, b);
    }
    None
}

/// The change that is the first word of a text, if it is one. The name is looked for at `next` first.
fn change_at(text: &[u8], names: &Names, next: usize) -> Option<Change>
    ensures within { IfSome result (λ c. c.len ≤ length text.now) }
    ensures some { IfSome result (λ c. (c.len ≡ position_or_len is_blank text.now)
        × (change_in names.now.texts (take c.len text.now) ≡ Some (c.input, c.value))
        × (c.input < length names.now.texts)) }
    ensures none { IfNone result
        (change_in names.now.texts (take (position_or_len is_blank text.now) text.now) ≡ None) }
{
    let Some(head) = head_at(text) else {
        return None;
    };
    let Some(number) = number_at(&text[head.len + 1..]) else {
        return None;
    };
    let Some(input) = names.find(&text[..head.len], head.slot, next) else {
        return None;
    };
    Some(Change {
        input,
        value: number.value,
        len: head.len + 1 + number.len,
    })
}

/// Reads the changes of a line into the values of the inputs of these names, where its words are changes of an input
/// each. Else some values may be written.
pub fn read_changes(line: &[u8], names: &Names, values: &mut [i32], named: &mut [bool]) -> bool
    requires values { length values.old ≡ length names.now.texts }
    requires named { length named.old ≡ length names.now.texts }
    ensures yes { IsTrue result → row_behind names.now.texts values.old (line_words line.now) ≡ Some values.new }
    ensures no { result ≡ false → row_behind names.now.texts values.old (line_words line.now) ≡ None }
{
    named.fill(false);
    let mut rest = skip_blanks(line);
    let mut next = 0;
    'words: while !rest.is_empty() {
        let Some(change) = change_at(rest, names, next) else {
            return false;
        };
        if named[change.input] {
            return false;
        }
        named[change.input] = true;
        values[change.input] = change.value;
        next = change.input + 1;
        rest = skip_blanks(&rest[change.len..]);
    }
    true
}
