//! The lines of ticks.
ghost use Rattle.std.specs.Prelude.{◌≡◌, ◌<◌, ◌≤◌, ◌+◌, ◌-◌, ◌^◌, ◌++◌, length, take, map, min, pos, codes, decimal, slice_index_or, Some, IfOk};
ghost use Rattle.wave_dump.specs.Wave.{low_bits, bits_line, is_kept, change_line, tick_text};
ghost use Rattle.wave_dump.specs.Writing.{value_before, values_before, none_yet, tick_lines_room};

use crate::put::put;
use forec_base::OutOfMemory;
use itoa::Buffer;
use std::alloc::Global;
use std::marker::Model;

/// The 32 bits of a word, from the highest, as digits.
fn bits_of(word: u32) -> [u8; 32]
    ensures { result ≡ low_bits 32 word }
{
    let mut digits = [b'0'; 32];
    let mut left = word;
    for i in 0..32usize {
        digits[31 - i] = b'0' + (left % 2) as u8;
        left /= 2;
    }
    digits
}

/// Puts the line of output k, which has the value of these bits from now on.
fn put_value(buffer: &mut [u8], at: usize, k: u8, word: u32) -> usize
    requires few { k < 64 }
    requires room { at + 36 ≤ length buffer.old }
    ensures end { result ≡ at + 36 }
    ensures same_length { length buffer.new ≡ length buffer.old }
    ensures front { take result buffer.new ≡ take at buffer.old ++ bits_line k (low_bits 32 word) }
{
    let begun = put(buffer, at, b"b");
    let told = put(buffer, begun, &bits_of(word));
    put(buffer, told, &[b' ', 33 + k, b'\n'])
}

/// Whether output k has the value of the tick before, if there was one.
fn stays(first: bool, last: &[i32], values: &[i32], k: usize) -> bool
    requires last { k < length last.now }
    requires values { k < length values.now }
    ensures { result
        ≡ is_kept (value_before first (slice_index_or last.now k (pos 0))) (slice_index_or values.now k (pos 0)) }
{
    !first && last[k] == values[k]
}

/// Puts the line of output k where its value isn't that of the tick before.
fn put_change(
    buffer: &mut [u8],
    at: usize,
    first: bool,
    last: &[i32],
    values: &[i32],
    k: usize,
) -> usize
    requires few { k < 64 }
    requires last { k < length last.now }
    requires values { k < length values.now }
    requires room { at + 36 ≤ length buffer.old }
    ensures within { result ≤ at + 36 }
    ensures same_length { length buffer.new ≡ length buffer.old }
    ensures front { take result buffer.new ≡ take at buffer.old ++ change_line k
        (value_before first (slice_index_or last.now k (pos 0))) (slice_index_or values.now k (pos 0)) }
{
    if stays(first, last, values, k) {
        return at;
    }
    let word = values[k].cast_unsigned();
    put_value(buffer, at, k as u8, word)
}

/// Puts the line with the number of a tick to the front.
fn put_number(buffer: &mut [u8], tick: u64) -> usize
    requires room { 22 ≤ length buffer.old }
    ensures within { result ≤ 22 }
    ensures same_length { length buffer.new ≡ length buffer.old }
    ensures front { take result buffer.new ≡ codes "#" ++ (decimal tick ++ codes "\n") }
{
    let mut digits = Buffer::new();
    let begun = put(buffer, 0, b"#");
    let told = put(buffer, begun, digits.format(tick).as_bytes());
    put(buffer, told, b"\n")
}

/// Puts the lines of a tick to the front, by the values of the tick before.
fn put_tick(buffer: &mut [u8], tick: u64, first: bool, last: &[i32], values: &[i32]) -> usize
    requires few { length values.now ≤ 64 }
    requires values { length values.now ≡ length last.now }
    requires room { tick_lines_room (length values.now) ≤ length buffer.old }
    ensures within { result ≤ tick_lines_room (length values.now) }
    ensures same_length { length buffer.new ≡ length buffer.old }
    ensures lines { take result buffer.new ≡ tick_text tick (values_before first last.now) values.now }
{
    let mut at = put_number(buffer, tick);
    for k in 0..values.len() {
        at = put_change(buffer, at, first, last, values, k);
    }
    at
}

/// How many bytes the lines of a tick take at most, for so many outputs. Where that is more than a `usize` holds it is
/// the greatest one.
pub fn wave_room(outputs: usize) -> usize
    ensures { result ≡ min (tick_lines_room outputs) (2 ^ 64 - 1) }
{
    outputs.saturating_mul(36).saturating_add(22)
}

/// A writer of the ticks of a dump, one after the other. It is seen as what each output had in the tick before, and
/// `None` before the first tick.
#[derive(Drop)]
pub struct Waver {
    first: bool,
    last: Vec<i32>,
}

impl Model for Waver {
    ghost use Rattle.std.specs.Prelude.{List, Option, ℤ, length, ◌≤◌};
    ghost use Rattle.wave_dump.specs.Writing.{values_before};

    ghost Value = { List (Option ℤ) };

    ghost view = { λ w. values_before w.first w.last.items };

    ghost invariant = { λ w. length w.last.items ≤ 64 };
}

impl Waver {
    /// A writer for so many outputs, before tick 1.
    pub fn new(alloc: Global, outputs: usize) -> Result<Waver, OutOfMemory>
        requires { outputs ≤ 64 }
        ensures { IfOk result (λ waver. waver ≡ none_yet outputs) }
    {
        Ok(Waver {
            first: true,
            last: vec![in alloc; 0i32; outputs]?,
        })
    }

    /// Writes the lines of a tick, in which the outputs have these values, to the front of a buffer, and says how many
    /// bytes they have. It takes no memory.
    pub fn tick(&mut self, tick: u64, values: &[i32], buffer: &mut [u8]) -> usize
        requires values { length values.now ≡ length self.old }
        requires room { tick_lines_room (length self.old) ≤ length buffer.old }
        ensures lines { take result buffer.new ≡ tick_text tick self.old values.now }
        ensures values { self.new ≡ map Some values.now }
        ensures within { result ≤ tick_lines_room (length self.old) }
        ensures same_length { length buffer.new ≡ length buffer.old }
    {
        let end = put_tick(buffer, tick, self.first, self.last.as_slice(), values);
        self.last.as_mut_slice().copy_from_slice(values);
        self.first = false;
        end
    }
}
