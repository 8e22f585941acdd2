//! The line of a tick.
ghost use Rattle.std.specs.Prelude.{◌≡◌, ◌<◌, ◌≤◌, ◌+◌, ◌-◌, ◌^◌, ◌++◌, length, take, min, pos, codes, slice_index_or};
ghost use Rattle.std.specs.Fmt.{signed_decimal};
ghost use Rattle.trace_rows.specs.Report.{tick_line, tick_room};

use forec_base::Labels;
use itoa::Buffer;

/// Puts bytes at a place, and says where they end.
fn put(buffer: &mut [u8], at: usize, bytes: &[u8]) -> usize
    requires { at + length bytes.now ≤ length buffer.old }
    ensures end { result ≡ at + length bytes.now }
    ensures front { take result buffer.new ≡ take at buffer.old ++ bytes.now }
{
    let end = at + bytes.len();
    buffer[at..end].copy_from_slice(bytes);
    end
}

/// Puts the name and the value of output `i` at a place.
fn put_pair(
    digits: &mut Buffer,
    buffer: &mut [u8],
    at: usize,
    name: &str,
    values: &[i32],
    i: usize,
) -> usize
    requires value { i < length values.now }
    requires room { at + (length name.now + 13) ≤ length buffer.old }
    ensures within { result ≤ at + (length name.now + 13) }
    ensures front { take result buffer.new
        ≡ take at buffer.old ++ (codes " " ++ name.now ++ codes "="
        ++ signed_decimal (slice_index_or values.now i (pos 0))) }
{
    let at = put(buffer, at, b" ");
    let at = put(buffer, at, name.as_bytes());
    let at = put(buffer, at, b"=");
    put(buffer, at, digits.format(values[i]).as_bytes())
}

/// How many bytes the line of a tick takes at most, for outputs of these names and any tick and values. Where that is
/// more than a `usize` holds it is the greatest one, and no buffer is that long.
pub fn line_room(names: &Labels) -> usize
    ensures { result ≡ min (tick_room names.now) (2 ^ 64 - 1) }
{
    let mut room = 26usize;
    for i in 0..names.len() {
        room = room.saturating_add(names.get(i).len()).saturating_add(13);
    }
    room
}

/// Writes the line of a tick to the front of a buffer, and says how many bytes it has: `tick N o=V p=W` and byte 10,
/// with the outputs in their order, one space before each, and all numbers in decimal without leading zeros. The outputs
/// of these names have these values; the buffer has at least `line_room` bytes. It takes no memory.
pub fn line(tick: u64, names: &Labels, values: &[i32], buffer: &mut [u8]) -> usize
    requires values { length values.now ≡ length names.now }
    requires room { min (tick_room names.now) (2 ^ 64 - 1) ≤ length buffer.old }
    ensures line { take result buffer.new ≡ tick_line tick names.now values.now }
    ensures within { result ≤ tick_room names.now }
    ensures fits { result ≤ length buffer.new }
{
    let mut digits = Buffer::new();
    let mut at = put(buffer, 0, b"tick ");
    at = put(buffer, at, digits.format(tick).as_bytes());
    for i in 0..names.len() {
        at = put_pair(&mut digits, buffer, at, names.get(i), values, i as usize);
    }
    put(buffer, at, b"\n")
}
