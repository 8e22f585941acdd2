//! The ending of a dump.
ghost use Rattle.std.specs.Prelude.{◌≡◌, ◌≤◌, [], ℕ, ℤ, List, length, Ok};
ghost use Rattle.wave_dump.specs.Wave.{PlainDump, is_ending_byte};
ghost use Rattle.wave_dump.specs.Machine.{Ending};
ghost use Rattle.wave_dump.specs.Reading.{Continues, dump_from, dump_with};

use crate::fault::WaveFault;
use crate::pieces::expect;
use std::alloc::Global;

/// Whether a byte may stand in an ending: from 32 to 126, without `$`.
fn is_ending(byte: u8) -> bool
    ensures { result ≡ is_ending_byte byte }
{
    byte >= 32 && byte <= 126 && byte != b'$'
}

/// Reads the ending, and that the bytes end behind it.
///
/// # Errors
///
/// No dump goes on so, or memory was refused.
pub fn read_ending(alloc: Global, bytes: &[u8], start: usize) -> Result<Vec<u8>, WaveFault>
    requires { start ≤ length bytes.now }
    ensures { (names : List (List ℕ)) (ticks : List (List ℤ))
        → Continues result (dump_from bytes.now start (Ending names ticks []))
        (λ e. Ok (dump_with names ticks e.items)) }
{
    let mut end = start;
    while end < bytes.len() && is_ending(bytes[end]) {
        end += 1;
    }
    if end - start < 2 || bytes[end - 1] != b' ' {
        return Err(WaveFault::Bad { at: end as u64 });
    }
    let next = expect(bytes, end, b"$end\n")?;
    if next < bytes.len() {
        return Err(WaveFault::Bad { at: next as u64 });
    }
    let text = bytes[start..end - 1].to_vec(alloc)?;
    Ok(text)
}
