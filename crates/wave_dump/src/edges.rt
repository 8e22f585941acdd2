//! What stands before and behind the ticks of a dump.
ghost use Rattle.std.specs.Prelude.{◌≡◌, ◌<◌, ◌≤◌, ◌+◌, ◌++◌, length, take, map, chars, string_bytes, encode_utf8_all, IfOk};
ghost use Rattle.wave_dump.specs.Wave.{shown_byte, head_text, tail_text, declaration};

use crate::put::put;
use forec_base::{Labels, OutOfMemory};
use std::alloc::{AllocError, Global};

/// `(` and `)` in place of `[` and `]`.
fn shown_char(c: char) -> char
    ensures { result ≡ shown_byte c }
{
    match c {
        '[' => '(',
        ']' => ')',
        _ => c,
    }
}

/// A name as it is shown.
fn shown(alloc: Global, name: &str) -> Result<String, AllocError>
    ensures { IfOk result (λ text. string_bytes text ≡ encode_utf8_all (map shown_byte (chars name.now))) }
{
    name.chars().map(|c| shown_char(c)).collect(alloc)
}

/// Adds the line of output k.
fn declare(alloc: Global, text: &mut String, k: u8, name: &str) -> Result<(), OutOfMemory>
    requires { k < 64 }
    ensures { IfOk result (λ _. string_bytes text.new ≡ string_bytes text.old ++ declaration k name.now) }
{
    text.push_str("$var wire 32 ")?;
    text.push(char::from(33 + k))?;
    text.push_str(" ")?;
    text.push_str(shown(alloc, name)?.as_str())?;
    text.push_str(" $end\n")?;
    Ok(())
}

/// The lines before tick 1, for outputs of these names.
pub fn head(alloc: Global, names: &Labels) -> Result<String, OutOfMemory>
    requires { length names.now ≤ 64 }
    ensures { IfOk result (λ text. string_bytes text ≡ head_text names.now) }
{
    let mut text = String::from_str(alloc, "$timescale 1 ns $end\n$scope module forec $end\n")?;
    for k in 0..names.len() {
        declare(alloc, &mut text, k as u8, names.get(k))?;
    }
    text.push_str("$upscope $end\n$enddefinitions $end\n")?;
    Ok(text)
}

/// Writes the last line to the front of a buffer, and says how many bytes it has: `$comment `, the ending, ` $end` and
/// byte 10. It takes no memory.
pub fn tail(ending: &[u8], buffer: &mut [u8]) -> usize
    requires { length ending.now + 15 ≤ length buffer.old }
    ensures line { take result buffer.new ≡ tail_text ending.now }
    ensures end { result ≡ length ending.now + 15 }
    ensures same_length { length buffer.new ≡ length buffer.old }
{
    let at = put(buffer, 0, b"$comment ");
    let at = put(buffer, at, ending);
    put(buffer, at, b" $end\n")
}
