//! The numbers of a trace.
ghost use Rattle.std.specs.Prelude.{◌≡◌, ◌+◌, ◌≤◌, ◌<◌, true, false, take, length, min, slice_index, IsTrue, IfSome, IfNone, Some, None};
ghost use Rattle.std.specs.Option.{option_map};
ghost use Rattle.std.specs.List.{prefix_len, position_or_len};
ghost use Rattle.std.specs.Char.{is_ascii_digit};
ghost use Rattle.trace_rows.specs.Words.{is_blank};
ghost use Rattle.trace_rows.specs.Numbers.{digits_value, magnitude_of, positive, negative, word_number};

use crate::words::blank;

/// Beyond any number that counts.
const CAP: u64 = 10_000_000_000;

/// The digits at the front of a text: how many there are, and the number that they spell, or `CAP` where it is greater.
#[derive(Clone, Copy)]
struct Digits {
    count: usize,
    value: u64,
}

/// A number at the front of a text, and how many bytes it takes.
#[derive(Clone, Copy)]
pub struct Number {
    pub value: i32,
    pub len: usize,
}

fn digits_at(text: &[u8]) -> Digits
    ensures count { result.count ≡ prefix_len is_ascii_digit text.now }
    ensures within { result.count ≤ length text.now }
    ensures value { result.value ≡ min 10000000000 (digits_value (take result.count text.now)) }
{
    let mut value = 0u64;
    for i in 0..text.len() {
        let b = text[i];
        if !b.is_ascii_digit() {
            return Digits { count: i, value };
        }
        value = (value * 10 + u64::from(b - 48)).min(CAP);
    }
    Digits {
        count: text.len(),
        value,
    }
}

/// Whether a blank stands at this place of a text, or the text ends there.
fn ends_word(text: &[u8], at: usize) -> bool
    requires { at ≤ length text.now }
    ensures yes { IsTrue result → at < length text.now → is_blank (slice_index text.now at) ≡ true }
    ensures no { result ≡ false → (at < length text.now) × (is_blank (slice_index text.now at) ≡ false) }
{
    if at == text.len() {
        return true;
    }
    blank(text[at])
}

/// The digits that are the first word of a text, if they are.
fn magnitude_at(text: &[u8]) -> Option<Digits>
    ensures some { IfSome result (λ d. (d.count ≡ position_or_len is_blank text.now)
        × (option_map (min 10000000000) (magnitude_of (take d.count text.now)) ≡ Some d.value)) }
    ensures none { IfNone result (magnitude_of (take (position_or_len is_blank text.now) text.now) ≡ None) }
{
    let digits = digits_at(text);
    if digits.count == 0 {
        return None;
    }
    if !ends_word(text, digits.count) {
        return None;
    }
    Some(digits)
}

fn positive_number(magnitude: u64) -> Option<i32>
    ensures { result ≡ positive (Some magnitude) }
{
    if magnitude > 2_147_483_647 {
        return None;
    }
    Some(magnitude as i32)
}

fn negative_number(magnitude: u64) -> Option<i32>
    ensures { result ≡ negative (Some magnitude) }
{
    if magnitude > 2_147_483_648 {
        return None;
    }
    Some((-(magnitude as i64)) as i32)
}

/// The number that digits at the front of a text are, if they are its first word.
fn positive_at(text: &[u8]) -> Option<Number>
    ensures some { IfSome result (λ n. (n.len ≡ position_or_len is_blank text.now)
        × (positive (magnitude_of (take n.len text.now)) ≡ Some n.value)) }
    ensures none { IfNone result (positive (magnitude_of (take (position_or_len is_blank text.now) text.now)) ≡ None) }
{
    let digits = magnitude_at(text)?;
    let value = positive_number(digits.value)?;
    Some(Number {
        value,
        len: digits.count,
    })
}

/// The same of what stands after a `-`.
fn negative_at(text: &[u8]) -> Option<Number>
    ensures some { IfSome result (λ n. (n.len ≡ position_or_len is_blank text.now)
        × (negative (magnitude_of (take n.len text.now)) ≡ Some n.value)) }
    ensures none { IfNone result (negative (magnitude_of (take (position_or_len is_blank text.now) text.now)) ≡ None) }
{
    let digits = magnitude_at(text)?;
    let value = negative_number(digits.value)?;
    Some(Number {
        value,
        len: digits.count,
    })
}

/// The number that is the first word of a text, if it is one. The text begins with no blank.
pub fn number_at(text: &[u8]) -> Option<Number>
    ensures some { IfSome result (λ n. (n.len ≡ position_or_len is_blank text.now)
        × (word_number (take n.len text.now) ≡ Some n.value)) }
    ensures none { IfNone result (word_number (take (position_or_len is_blank text.now) text.now) ≡ None) }
{
    match text {
        [45, rest @ ..] => {
            let number = negative_at(rest)?;
            Some(Number {
                value: number.value,
                len: number.len + 1,
            })
        }
        _ => positive_at(text),
    }
}
