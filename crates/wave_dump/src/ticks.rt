//! All ticks of a dump.
ghost use Rattle.std.specs.Prelude.{◌≡◌, ◌≤◌, [], ℕ, List, length, IfOk};
ghost use Rattle.wave_dump.specs.Machine.{Start, Ending};
ghost use Rattle.wave_dump.specs.Reading.{Continues, dump_from, signed_words};
ghost use Rattle.wave_dump.specs.Dumps.{plain_ticks};

use crate::fault::WaveFault;
use crate::numbers::number_line;
use crate::pieces::{expect, stands};
use crate::value_lines::read_values;
use std::alloc::{AllocError, Global};

/// The values whose bits spell these numbers.
fn signed(alloc: Global, words: &[u32]) -> Result<Vec<i32>, AllocError>
    ensures { IfOk result (λ values. values.items ≡ signed_words words.now) }
{
    words.iter().map(|word| word.cast_signed()).collect(alloc)
}

/// Reads all ticks, and what stands before the ending. There is room for the values of a tick.
///
/// # Errors
///
/// No dump goes on so, or memory was refused.
pub fn read_ticks(
    alloc: Global,
    bytes: &[u8],
    start: usize,
    values: &mut [u32],
) -> Result<(Vec<Vec<i32>>, usize), WaveFault>
    requires place { start ≤ length bytes.now }
    requires few { length values.old ≤ 64 }
    ensures within { IfOk result (λ x. x.1 ≤ length bytes.now) }
    ensures goes { (names : List (List ℕ)) → length names ≡ length values.old
        → Continues result (dump_from bytes.now start (Start names))
        (λ x. dump_from bytes.now x.1 (Ending names (plain_ticks x.0.items) [])) }
{
    let mut ticks: Vec<Vec<i32>> = Vec::new(alloc);
    let mut at = start;
    let mut first = true;
    while stands(bytes, at, b'#') {
        let line = number_line(bytes, at + 1, ticks.len() as u64 + 1)?;
        at = read_values(bytes, line, first, values)?;
        ticks.push(signed(alloc, values)?)?;
        first = false;
    }
    let next = expect(bytes, at, b"$comment ")?;
    Ok((ticks, next))
}
