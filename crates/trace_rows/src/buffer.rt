//! The bytes of a buffer.
ghost use Rattle.std.specs.Prelude.{◌≡◌, ◌+◌, ◌<◌, ◌≤◌, length, take, slice_range, IfOk, MatchResult};
ghost use Rattle.std.specs.List.{position_or_len};
ghost use Rattle.std.specs.Io.KnownBytes.{Consumes, Keeps, IsAtEnd};
ghost use Rattle.forec_base.specs.Outside.{HasCause};
ghost use Rattle.trace_rows.specs.Lines.{is_newline};

use forec_base::{Failed, Source};
use memchr::memchr;

/// Where the first byte 10 stands, or how many bytes there are.
pub fn line_end(bytes: &[u8]) -> usize
    ensures end { result ≡ position_or_len is_newline bytes.now }
    ensures within { result ≤ length bytes.now }
{
    match memchr(10, bytes) {
        Some(end) => end,
        None => bytes.len(),
    }
}

/// Copies `count` bytes from the place `at` to the front.
pub fn move_to_front(bytes: &mut [u8], at: usize, count: usize)
    requires apart { count ≤ at }
    requires within { at + count ≤ length bytes.old }
    ensures { take count bytes.new ≡ slice_range bytes.old at (at + count) }
{
    let (front, back) = bytes.split_at_mut(at);
    front[..count].copy_from_slice(&back[..count]);
}

/// Reads the next bytes of a source to the place `end`, and says how many.
fn fill_part<S: Source>(source: &mut S, bytes: &mut [u8], end: usize) -> Result<usize, Failed>
    requires { end < length bytes.old }
    ensures front { take end bytes.new ≡ take end bytes.old }
    ensures within { IfOk result (λ n. end + n ≤ length bytes.new) }
    ensures bytes { MatchResult result
        (λ n. Consumes (S.left source.old) (S.left source.new) (slice_range bytes.new end (end + n))
        × (n ≡ 0 → IsAtEnd (S.left source.new)))
        (λ _. Keeps (S.left source.old) (S.left source.new)) }
    ensures cause { HasCause (S.faults source.old) (S.faults source.new) (S.down source.new) result }
{
    let (_, free) = bytes.split_at_mut(end);
    source.read(free)
}

/// Reads the next bytes of a source to the place `end`, and says how many. 0 is the source's end.
pub fn fill<S: Source>(source: &mut S, bytes: &mut Vec<u8>, end: usize) -> Result<usize, Failed>
    requires { end < length bytes.old.items }
    ensures front { take end bytes.new.items ≡ take end bytes.old.items }
    ensures same { length bytes.new.items ≡ length bytes.old.items }
    ensures within { IfOk result (λ n. end + n ≤ length bytes.old.items) }
    ensures bytes { MatchResult result
        (λ n. Consumes (S.left source.old) (S.left source.new) (slice_range bytes.new.items end (end + n))
        × (n ≡ 0 → IsAtEnd (S.left source.new)))
        (λ _. Keeps (S.left source.old) (S.left source.new)) }
    ensures cause { HasCause (S.faults source.old) (S.faults source.new) (S.down source.new) result }
{
    fill_part(source, bytes, end)
}
