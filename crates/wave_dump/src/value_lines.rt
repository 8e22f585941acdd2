//! The lines of the values of a tick.
ghost use Rattle.std.specs.Prelude.{◌≡◌, ◌+◌, ◌<◌, ◌≤◌, ◌++◌, ◌∷◌, [], ℕ, ℤ, List, length, get_or, IfOk, ◌⊎◌};
ghost use Rattle.std.specs.Int.{w32, cast_signed};
ghost use Rattle.wave_dump.specs.Machine.{Letter, Body, literal};
ghost use Rattle.wave_dump.specs.Reading.{Continues, dump_from, dump_between, spot_with, body_behind, signed_words, olds_at};

use crate::fault::WaveFault;
use crate::numbers::number;
use crate::pieces::{expect, stands};
use crate::values::{Left, can_have, which};

/// Reads the output of a value, to the end of the line: which of those that are left, and the place behind.
fn read_letter(
    bytes: &[u8],
    at: usize,
    left: &Left<'_>,
    word: u32,
) -> Result<(usize, usize), WaveFault>
    requires place { at ≤ length bytes.now }
    requires few { left.now.output ≤ 64 }
    ensures within { IfOk result (λ x. (x.0 < length left.now.words.now) × (at ≤ x.1) × (x.1 ≤ length bytes.now)) }
    ensures goes { (names : List (List ℕ)) (ticks : List (List ℤ)) (now : List ℤ) → length now ≡ left.now.output
        → Continues result (dump_from bytes.now at (literal (32 ∷ [])
        (Letter (spot_with names ticks now (olds_at left.now.first left.now.words.now)) (cast_signed w32 word))))
        (λ x. dump_from bytes.now x.1 (body_behind names ticks now left.now.first left.now.words.now x.0 word)) }
{
    let letter = expect(bytes, at, b" ")?;
    let k = which(bytes, letter, left, word)?;
    let next = expect(bytes, letter + 1, b"\n")?;
    Ok((k, next))
}

/// A value that was read.
#[derive(Clone, Copy)]
pub struct Found {
    /// Which of the outputs that are left has it.
    pub output: usize,
    /// The number that its bits spell.
    pub word: u32,
    /// The place behind its line.
    pub next: usize,
}

/// Reads a value of one of the outputs that are left.
fn read_value(bytes: &[u8], at: usize, left: &Left<'_>) -> Result<Found, WaveFault>
    requires begins { (at < length bytes.now) × (get_or bytes.now at 0 ≡ 98) }
    requires some { 0 < length left.now.words.now }
    requires few { left.now.output ≤ 64 }
    ensures within { IfOk result
        (λ x. (x.output < length left.now.words.now) × (at < x.next) × (x.next ≤ length bytes.now)) }
    ensures goes { (names : List (List ℕ)) (ticks : List (List ℤ)) (now : List ℤ) → length now ≡ left.now.output
        → Continues result
        (dump_from bytes.now at (Body (spot_with names ticks now (olds_at left.now.first left.now.words.now))))
        (λ x. dump_from bytes.now x.next (body_behind names ticks now left.now.first left.now.words.now x.output
        x.word)) }
{
    let word = number(bytes, at + 1)?;
    if can_have(left.first, left.words, word) {
        let (output, next) = read_letter(bytes, at + 33, left, word)?;
        return Ok(Found { output, word, next });
    }
    Err(WaveFault::Bad {
        at: (at + 32) as u64,
    })
}

/// Ends the values of a tick, where no further one begins.
fn end_values(bytes: &[u8], at: usize, first: bool, left: &[u32]) -> Result<usize, WaveFault>
    requires place { at ≤ length bytes.now }
    requires gone { 0 < length left.now → (length bytes.now ≤ at) ⊎ (get_or bytes.now at 0 ≡ 98 → ⊥) }
    ensures within { IfOk result (λ next. next ≡ at) }
    ensures goes { (names : List (List ℕ)) (ticks : List (List ℤ)) (now : List ℤ)
        → Continues result (dump_from bytes.now at (Body (spot_with names ticks now (olds_at first left.now))))
        (λ next. dump_between bytes.now next names (ticks ++ (now ++ signed_words left.now) ∷ [])) }
{
    if left.len() == 0 {
        return Ok(at);
    }
    if first {
        return Err(WaveFault::Bad { at: at as u64 });
    }
    Ok(at)
}

/// Reads the values of a tick: what isn't told is as in the tick before.
///
/// # Errors
///
/// No dump goes on so.
pub fn read_values(
    bytes: &[u8],
    start: usize,
    first: bool,
    values: &mut [u32],
) -> Result<usize, WaveFault>
    requires place { start ≤ length bytes.now }
    requires few { length values.old ≤ 64 }
    ensures count { length values.new ≡ length values.old }
    ensures within { IfOk result (λ next. (start ≤ next) × (next ≤ length bytes.now)) }
    ensures goes { (names : List (List ℕ)) (ticks : List (List ℤ))
        → Continues result (dump_from bytes.now start (Body (spot_with names ticks [] (olds_at first values.old))))
        (λ next. dump_between bytes.now next names (ticks ++ signed_words values.new ∷ [])) }
{
    let mut j = 0usize;
    let mut at = start;
    while j < values.len() && stands(bytes, at, b'b') {
        let left = Left {
            first,
            words: &values[j..],
            output: j,
        };
        let found = read_value(bytes, at, &left)?;
        values[j + found.output] = found.word;
        j += found.output + 1;
        at = found.next;
    }
    end_values(bytes, at, first, &values[j..])
}
