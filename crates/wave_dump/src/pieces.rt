//! Readers of bytes that have to stand at a place. Each reader of a part of a dump is given the place where the part
//! begins, and gives the place behind what it read.
ghost use Rattle.std.specs.Prelude.{◌≡◌, ◌+◌, ◌<◌, ◌≤◌, length, get_or, IfOk, IsTrue, IsFalse, ◌⊎◌};
ghost use Rattle.wave_dump.specs.Machine.{DumpStage, literal};
ghost use Rattle.wave_dump.specs.Reading.{Continues, dump_from};

use crate::fault::WaveFault;

/// Reads these bytes.
///
/// # Errors
///
/// Other bytes stand there.
pub fn expect(bytes: &[u8], at: usize, piece: &[u8]) -> Result<usize, WaveFault>
    requires { at ≤ length bytes.now }
    ensures place { IfOk result (λ next. next ≡ at + length piece.now) }
    ensures within { IfOk result (λ next. next ≤ length bytes.now) }
    ensures goes { (s : DumpStage)
        → Continues result (dump_from bytes.now at (literal piece.now s)) (λ next. dump_from bytes.now next s) }
{
    for i in 0..piece.len() {
        if at + i >= bytes.len() || bytes[at + i] != piece[i] {
            return Err(WaveFault::Bad {
                at: (at + i) as u64,
            });
        }
    }
    Ok(at + piece.len())
}

/// Whether this byte stands there.
pub fn stands(bytes: &[u8], at: usize, byte: u8) -> bool
    ensures yes { IsTrue result → (at < length bytes.now) × (get_or bytes.now at 0 ≡ byte) }
    ensures no { IsFalse result → (length bytes.now ≤ at) ⊎ (get_or bytes.now at 0 ≡ byte → ⊥) }
{
    at < bytes.len() && bytes[at] == byte
}
