//! A whole dump, read exactly.
ghost use Rattle.std.specs.Prelude.{◌≡◌, ℕ, length, Some, Ok, Err, IfOk};
ghost use Rattle.wave_dump.specs.Wave.{PlainDump, IsDump, wave_text};
ghost use Rattle.wave_dump.specs.Machine.{first_stage, dump_in};
ghost use Rattle.wave_dump.specs.Dumps.{plain_dump};
ghost use Rattle.wave_dump.specs.Reading.{Continues};
ghost use Rattle.wave_dump.specs.Fronts.{IsLongest};

use crate::dump::Dump;
use crate::ending::read_ending;
use crate::fault::WaveFault;
use crate::names::read_names;
use crate::pieces::expect;
use crate::ticks::read_ticks;
use std::alloc::Global;

/// Reads the parts of a dump, one after the other.
fn read_parts(alloc: Global, bytes: &[u8]) -> Result<Dump, WaveFault>
    ensures { Continues result (dump_in 0 (Some first_stage) bytes.now) (λ d. Ok (plain_dump d)) }
{
    let scope = b"$timescale 1 ns $end\n$scope module forec $end\n";
    let head = expect(bytes, 0, scope)?;
    let (names, start) = read_names(alloc, bytes, head)?;
    let mut values = vec![in alloc; 0u32; names.len() as usize]?;
    let (ticks, end) = read_ticks(alloc, bytes, start, values.as_mut_slice())?;
    let ending = read_ending(alloc, bytes, end)?;
    Ok(Dump {
        names,
        ticks,
        ending,
    })
}

/// Reads a dump. It is Ok exactly where the bytes are the text of a dump, and then it is that one.
///
/// # Errors
///
/// The bytes are no dump's, and the longest prefix of them that some dump begins with has `at` bytes; or memory was
/// refused.
pub fn read_wave(alloc: Global, bytes: &[u8]) -> Result<Dump, WaveFault>
    ensures found { IfOk result (λ d. IsDump (plain_dump d) × (bytes.now ≡ wave_text (plain_dump d))) }
    ensures only { (d : PlainDump) → IsDump d → bytes.now ≡ wave_text d
        → Continues result (Ok d) (λ e. Ok (plain_dump e)) }
    ensures bad { (at : ℕ) → result ≡ Err (WaveFault.Bad at)
        → IsLongest bytes.now at × ((d : PlainDump) → IsDump d → bytes.now ≡ wave_text d → ⊥) }
{
    read_parts(alloc, bytes)
}
