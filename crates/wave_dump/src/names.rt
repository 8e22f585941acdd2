//! The outputs of a dump.
ghost use Rattle.std.specs.Prelude.{◌≡◌, ◌+◌, ◌<◌, ◌≤◌, ◌++◌, ◌∷◌, [], ℕ, List, length, get_or, string_bytes, IfOk, ◌⊎◌, false};
ghost use Rattle.wave_dump.specs.Machine.{Vars, Dollar, Name, Start, is_shown_byte, unshown_byte};
ghost use Rattle.wave_dump.specs.Reading.{Continues, dump_from};

use crate::fault::WaveFault;
use crate::pieces::{expect, stands};
use forec_base::{Labels, MAX_OUTPUTS};
use std::alloc::Global;

/// Whether a byte may stand in a name as it is shown: from 33 to 126, without `$`, `[` and `]`.
fn is_shown(byte: u8) -> bool
    ensures { result ≡ is_shown_byte byte }
{
    byte >= 33 && byte <= 126 && byte != b'$' && byte != b'[' && byte != b']'
}

/// The byte of a name that is shown so.
fn unshown(byte: u8) -> u8
    ensures { result ≡ unshown_byte byte }
{
    match byte {
        b'(' => b'[',
        b')' => b']',
        _ => byte,
    }
}

/// Reads the bytes of a name.
fn read_name(alloc: Global, bytes: &[u8], start: usize) -> Result<(String, usize), WaveFault>
    requires { start ≤ length bytes.now }
    ensures within { IfOk result (λ x. x.1 ≤ length bytes.now) }
    ensures further { IfOk result (λ x. start ≤ x.1) }
    ensures stops { IfOk result (λ x. (length bytes.now ≤ x.1) ⊎ (is_shown_byte (get_or bytes.now x.1 0) ≡ false)) }
    ensures goes { (names : List (List ℕ)) → Continues result (dump_from bytes.now start (Name names []))
        (λ x. dump_from bytes.now x.1 (Name names (string_bytes x.0))) }
{
    let mut name = String::new(alloc);
    let mut at = start;
    while at < bytes.len() && is_shown(bytes[at]) {
        name.push(char::from(unshown(bytes[at])))?;
        at += 1;
    }
    Ok((name, at))
}

/// Reads the line of output k, behind its `$`.
fn read_var(alloc: Global, bytes: &[u8], at: usize, k: u8) -> Result<(String, usize), WaveFault>
    requires begins { (at < length bytes.now) × (get_or bytes.now at 0 ≡ 118) }
    requires few { k < 64 }
    ensures within { IfOk result (λ x. x.1 ≤ length bytes.now) }
    ensures further { IfOk result (λ x. at < x.1) }
    ensures goes { (names : List (List ℕ)) → length names ≡ k → Continues result (dump_from bytes.now at (Dollar names))
        (λ x. dump_from bytes.now x.1 (Vars (names ++ string_bytes x.0 ∷ []))) }
{
    let wire = expect(bytes, at, b"var wire 32 ")?;
    let letter = expect(bytes, wire, &[33 + k, b' '])?;
    let (name, end) = read_name(alloc, bytes, letter)?;
    let next = expect(bytes, end, b" $end\n")?;
    Ok((name, next))
}

/// Reads the lines of the outputs, to the end of the head.
///
/// # Errors
///
/// No dump goes on so, or memory was refused.
pub fn read_names(alloc: Global, bytes: &[u8], start: usize) -> Result<(Labels, usize), WaveFault>
    requires { start ≤ length bytes.now }
    ensures within { IfOk result (λ x. x.1 ≤ length bytes.now) }
    ensures few { IfOk result (λ x. length x.0 ≤ 64) }
    ensures goes { Continues result (dump_from bytes.now start (Vars [])) (λ x. dump_from bytes.now x.1 (Start x.0)) }
{
    let mut at = expect(bytes, start, b"$")?;
    let mut names = Labels::new(alloc)?;
    while stands(bytes, at, b'v') {
        let count = names.len() as usize;
        if count >= MAX_OUTPUTS {
            return Err(WaveFault::Bad { at: at as u64 });
        }
        let (name, end) = read_var(alloc, bytes, at, count as u8)?;
        names.push(name.as_str())?;
        at = expect(bytes, end, b"$")?;
    }
    let next = expect(bytes, at, b"upscope $end\n$enddefinitions $end\n")?;
    Ok((names, next))
}
