//! The numbers of a dump: the bits of a value, and the number of a tick.
ghost use Rattle.std.specs.Prelude.{◌≡◌, ◌+◌, ◌<◌, ◌≤◌, ◌++◌, [], length, get_or, IfOk, IfSome, IfNone, ◌⊎◌, true, false, codes, decimal};
ghost use Rattle.std.specs.Int.{w32, cast_signed};
ghost use Rattle.wave_dump.specs.Machine.{TickSpot, DumpStage, Bits, literal, is_bit};
ghost use Rattle.wave_dump.specs.Reading.{Continues, dump_from, dump_behind_bits};

use crate::fault::WaveFault;
use crate::pieces::expect;
use itoa::Buffer;

/// The bit that stands there.
fn bit(bytes: &[u8], at: usize) -> Option<u32>
    ensures some { IfSome result (λ d. (at < length bytes.now) × (is_bit (get_or bytes.now at 0) ≡ true)
        × (get_or bytes.now at 0 ≡ 48 + d) × (d < 2)) }
    ensures none { IfNone result ((length bytes.now ≤ at) ⊎ (is_bit (get_or bytes.now at 0) ≡ false)) }
{
    if at >= bytes.len() {
        return None;
    }
    match bytes[at] {
        b'0' => Some(0),
        b'1' => Some(1),
        _ => None,
    }
}

/// Reads the 32 bits of a value, from the highest, behind its `b`.
///
/// # Errors
///
/// A byte that is no bit stands there.
pub fn number(bytes: &[u8], at: usize) -> Result<u32, WaveFault>
    requires { at ≤ length bytes.now }
    ensures within { IfOk result (λ n. at + 32 ≤ length bytes.now) }
    ensures goes { (w : TickSpot) → Continues result (dump_from bytes.now at (Bits w []))
        (λ n. dump_behind_bits bytes.now (at + 32) w (cast_signed w32 n)) }
{
    let mut number = 0u32;
    for i in 0..32usize {
        let Some(digit) = bit(bytes, at + i) else {
            return Err(WaveFault::Bad {
                at: (at + i) as u64,
            });
        };
        number = 2 * number + digit;
    }
    Ok(number)
}

/// Reads the number of a tick behind its `#`, to the end of the line.
///
/// # Errors
///
/// Other bytes stand there.
pub fn number_line(bytes: &[u8], at: usize, tick: u64) -> Result<usize, WaveFault>
    requires { at ≤ length bytes.now }
    ensures within { IfOk result (λ next. next ≤ length bytes.now) }
    ensures further { IfOk result (λ next. at ≤ next) }
    ensures goes { (s : DumpStage) → Continues result (dump_from bytes.now at (literal (decimal tick ++ codes "\n") s))
        (λ next. dump_from bytes.now next s) }
{
    let mut digits = Buffer::new();
    let next = expect(bytes, at, digits.format(tick).as_bytes())?;
    expect(bytes, next, b"\n")
}
