//! The lines of a job and its reply.
ghost use Rattle.std.specs.Prelude.{◌≡◌, ◌<◌, ◌≤◌, ◌+◌, ◌*◌, ◌-◌, ◌^◌, ◌++◌, [], ◌∷◌, length, take, min, codes, decimal, pos, slice_index_or, slice_get, Some};
ghost use Rattle.std.specs.Fmt.{signed_decimal};
ghost use Rattle.forec_kernel.specs.declared.shape.ThreadShape.{ThreadShape};
ghost use Rattle.forec_kernel.specs.Shapes.{plain_shape, plain_thread};
ghost use Rattle.forec_kernel.specs.Solo.{values_in};
ghost use Rattle.exchange_meaning.specs.LogLines.{spaced_numbers, marked_numbers, logged_trap};
ghost use Rattle.exchange_log.specs.Lines.{lines_room, thread_room, unset, marked_number, told_job, told_reply, trapped_line};

use combine_tree::PacketKind;
use forec_base::{Place, Trap};
use forec_kernel::{Shape, VarCopy};
use itoa::Buffer;

/// Puts bytes at a place, and says where they end.
#[inline(always)]
fn put(buffer: &mut [u8], at: usize, bytes: &[u8]) -> usize
    requires { at + length bytes.now ≤ length buffer.old }
    ensures end { result ≡ at + length bytes.now }
    ensures same_length { length buffer.new ≡ length buffer.old }
    ensures front { take result buffer.new ≡ take at buffer.old ++ bytes.now }
{
    let end = at + bytes.len();
    buffer[at..end].copy_from_slice(bytes);
    end
}

/// Puts a byte at a place, and says where it ends.
fn put_byte(buffer: &mut [u8], at: usize, byte: u8) -> usize
    requires { at < length buffer.old }
    ensures end { result ≡ at + 1 }
    ensures same_length { length buffer.new ≡ length buffer.old }
    ensures front { take result buffer.new ≡ take at buffer.old ++ byte ∷ [] }
{
    buffer[at] = byte;
    at + 1
}

/// Puts a number of one digit or two at a place. Most numbers of a log are such.
#[inline(always)]
fn put_brief(buffer: &mut [u8], at: usize, number: u8) -> usize
    requires brief { number < 100 }
    requires room { at + 2 ≤ length buffer.old }
    ensures within { result ≤ at + 2 }
    ensures same_length { length buffer.new ≡ length buffer.old }
    ensures front { take result buffer.new ≡ take at buffer.old ++ decimal number }
{
    if number < 10 {
        return put_byte(buffer, at, b'0' + number);
    }
    let end = put_byte(buffer, at, b'0' + number / 10);
    put_byte(buffer, end, b'0' + number % 10)
}

/// Puts a number at a place.
fn put_number(buffer: &mut [u8], at: usize, number: u64) -> usize
    requires { at + 20 ≤ length buffer.old }
    ensures within { result ≤ at + 20 }
    ensures same_length { length buffer.new ≡ length buffer.old }
    ensures front { take result buffer.new ≡ take at buffer.old ++ decimal number }
{
    if number < 100 {
        return put_brief(buffer, at, number as u8);
    }
    let mut digits = Buffer::new();
    put(buffer, at, digits.format(number).as_bytes())
}

/// Puts a word and a number at a place.
#[inline(always)]
fn put_word(buffer: &mut [u8], at: usize, word: &[u8], number: u64) -> usize
    requires { at + (length word.now + 20) ≤ length buffer.old }
    ensures within { result ≤ at + (length word.now + 20) }
    ensures same_length { length buffer.new ≡ length buffer.old }
    ensures front { take result buffer.new ≡ take at buffer.old ++ (word.now ++ decimal number) }
{
    let end = put(buffer, at, word);
    put_number(buffer, end, number)
}

/// Puts a line or a column at a place.
fn put_small(buffer: &mut [u8], at: usize, number: u32) -> usize
    requires { at + 10 ≤ length buffer.old }
    ensures within { result ≤ at + 10 }
    ensures same_length { length buffer.new ≡ length buffer.old }
    ensures front { take result buffer.new ≡ take at buffer.old ++ decimal number }
{
    let mut digits = Buffer::new();
    put(buffer, at, digits.format(number).as_bytes())
}

/// Puts a place of the program's text, with a space before it and one behind it.
fn put_place(buffer: &mut [u8], at: usize, place: Place) -> usize
    requires { at + 23 ≤ length buffer.old }
    ensures within { result ≤ at + 23 }
    ensures same_length { length buffer.new ≡ length buffer.old }
    ensures front { take result buffer.new
        ≡ take at buffer.old ++ (codes " " ++ decimal place.line ++ codes ":" ++ decimal place.column ++ codes " ") }
{
    let end = put_byte(buffer, at, b' ');
    let end = put_small(buffer, end, place.line);
    let end = put_byte(buffer, end, b':');
    let end = put_small(buffer, end, place.column);
    put_byte(buffer, end, b' ')
}

/// Puts a space and a number at a place.
fn put_spaced(buffer: &mut [u8], at: usize, number: i32) -> usize
    requires { at + 12 ≤ length buffer.old }
    ensures within { result ≤ at + 12 }
    ensures same_length { length buffer.new ≡ length buffer.old }
    ensures front { take result buffer.new ≡ take at buffer.old ++ (codes " " ++ signed_decimal number) }
{
    let at = put_byte(buffer, at, b' ');
    if number >= 0 && number < 100 {
        return put_brief(buffer, at, number as u8);
    }
    let mut digits = Buffer::new();
    put(buffer, at, digits.format(number).as_bytes())
}

/// Puts a space and number i of these at a place.
fn put_value(buffer: &mut [u8], at: usize, numbers: &[i32], i: usize) -> usize
    requires there { i < length numbers.now }
    requires room { at + 12 ≤ length buffer.old }
    ensures within { result ≤ at + 12 }
    ensures same_length { length buffer.new ≡ length buffer.old }
    ensures front { take result buffer.new
        ≡ take at buffer.old ++ (codes " " ++ signed_decimal (slice_index_or numbers.now i (pos 0))) }
{
    put_spaced(buffer, at, numbers[i])
}

/// Puts a space and the value of copy i of these at a place.
fn put_copied(buffer: &mut [u8], at: usize, copies: &[VarCopy], i: usize) -> usize
    requires there { i < length copies.now }
    requires room { at + 12 ≤ length buffer.old }
    ensures within { result ≤ at + 12 }
    ensures same_length { length buffer.new ≡ length buffer.old }
    ensures front { take result buffer.new
        ≡ take at buffer.old ++ (codes " " ++ signed_decimal (slice_index_or copies.now i unset).value) }
{
    put_spaced(buffer, at, copies[i].value)
}

/// Puts copy i of these at a place, with a space before its value, and a star behind it where it is marked.
fn put_marked(buffer: &mut [u8], at: usize, copies: &[VarCopy], i: usize) -> usize
    requires there { i < length copies.now }
    requires room { at + 13 ≤ length buffer.old }
    ensures within { result ≤ at + 13 }
    ensures same_length { length buffer.new ≡ length buffer.old }
    ensures front { take result buffer.new
        ≡ take at buffer.old ++ marked_number (slice_index_or copies.now i unset) }
{
    let end = put_copied(buffer, at, copies, i);
    if copies[i].modified {
        return put_byte(buffer, end, b'*');
    }
    end
}

/// Puts a space and a number, for each.
fn put_numbers(buffer: &mut [u8], at: usize, numbers: &[i32]) -> usize
    requires { at + 12 * length numbers.now ≤ length buffer.old }
    ensures within { result ≤ at + 12 * length numbers.now }
    ensures same_length { length buffer.new ≡ length buffer.old }
    ensures front { take result buffer.new ≡ take at buffer.old ++ spaced_numbers numbers.now }
{
    let mut end = at;
    for i in 0..numbers.len() {
        end = put_value(buffer, end, numbers, i);
    }
    end
}

/// Puts a space and the value, for each of these copies.
fn put_values(buffer: &mut [u8], at: usize, copies: &[VarCopy]) -> usize
    requires { at + 12 * length copies.now ≤ length buffer.old }
    ensures within { result ≤ at + 12 * length copies.now }
    ensures same_length { length buffer.new ≡ length buffer.old }
    ensures front { take result buffer.new ≡ take at buffer.old ++ spaced_numbers (values_in copies.now) }
{
    let mut end = at;
    for i in 0..copies.len() {
        end = put_copied(buffer, end, copies, i);
    }
    end
}

/// Puts these copies, each with a space before it.
fn put_copies(buffer: &mut [u8], at: usize, copies: &[VarCopy]) -> usize
    requires { at + 13 * length copies.now ≤ length buffer.old }
    ensures within { result ≤ at + 13 * length copies.now }
    ensures same_length { length buffer.new ≡ length buffer.old }
    ensures front { take result buffer.new ≡ take at buffer.old ++ marked_numbers copies.now }
{
    let mut end = at;
    for i in 0..copies.len() {
        end = put_marked(buffer, end, copies, i);
    }
    end
}

/// Puts the line of a job with this allowance.
pub fn put_job(
    buffer: &mut [u8],
    at: usize,
    kind: PacketKind,
    allowance: u64,
    args: &[i32],
    copies: &[VarCopy],
) -> usize
    requires { at + (30 + 12 * length args.now + 12 * length copies.now) ≤ length buffer.old }
    ensures within { result ≤ at + (30 + 12 * length args.now + 12 * length copies.now) }
    ensures same_length { length buffer.new ≡ length buffer.old }
    ensures front { take result buffer.new ≡ take at buffer.old ++ told_job kind allowance args.now copies.now }
{
    if !matches!(kind, PacketKind::Start) {
        let end = put_word(buffer, at, b"wake ", allowance);
        let end = put_values(buffer, end, copies);
        return put_byte(buffer, end, b'\n');
    }
    let end = put_word(buffer, at, b"start ", allowance);
    let end = put_numbers(buffer, end, args);
    let end = put_values(buffer, end, copies);
    put_byte(buffer, end, b'\n')
}

/// The word of a trap.
fn trap_word(trap: Trap) -> &'static [u8]
    ensures word { result.now ≡ logged_trap trap }
    ensures short { length result.now ≤ 6 }
{
    match trap {
        Trap::Divide => b"divide",
        Trap::Index => b"index",
        Trap::Turns => b"turns",
    }
}

/// Puts the line of a reply with these units.
pub fn put_reply(
    buffer: &mut [u8],
    at: usize,
    kind: PacketKind,
    units: u64,
    copies: &[VarCopy],
) -> usize
    requires { at + (90 + 13 * length copies.now) ≤ length buffer.old }
    ensures within { result ≤ at + (90 + 13 * length copies.now) }
    ensures same_length { length buffer.new ≡ length buffer.old }
    ensures front { take result buffer.new ≡ take at buffer.old ++ told_reply kind units copies.now }
{
    match kind {
        PacketKind::Paused => put_rest(buffer, at, b"paused ", units, copies),
        PacketKind::Ended => put_rest(buffer, at, b"ended ", units, copies),
        PacketKind::Trapped { place, trap } => put_trap(buffer, at, place, trap, units),
        PacketKind::Blank | PacketKind::Start | PacketKind::Wake | PacketKind::Over => {
            put(buffer, at, b"over\n")
        }
    }
}

/// Puts the line of a reply after which a branch rests, with this word.
#[inline(always)]
fn put_rest(buffer: &mut [u8], at: usize, word: &[u8], units: u64, copies: &[VarCopy]) -> usize
    requires short { length word.now ≤ 7 }
    requires room { at + (28 + 13 * length copies.now) ≤ length buffer.old }
    ensures within { result ≤ at + (28 + 13 * length copies.now) }
    ensures same_length { length buffer.new ≡ length buffer.old }
    ensures front { take result buffer.new
        ≡ take at buffer.old ++ (word.now ++ decimal units ++ marked_numbers copies.now ++ codes "\n") }
{
    let end = put_word(buffer, at, word, units);
    let end = put_copies(buffer, end, copies);
    put_byte(buffer, end, b'\n')
}

/// Puts the line of a trap.
fn put_trap(buffer: &mut [u8], at: usize, place: Place, trap: Trap, units: u64) -> usize
    requires { at + 60 ≤ length buffer.old }
    ensures within { result ≤ at + 60 }
    ensures same_length { length buffer.new ≡ length buffer.old }
    ensures front { take result buffer.new ≡ take at buffer.old ++ trapped_line units place trap }
{
    let end = put_word(buffer, at, b"trapped ", units);
    let end = put_place(buffer, end, place);
    let end = put(buffer, end, trap_word(trap));
    put_byte(buffer, end, b'\n')
}

/// How many bytes the two lines of a job of thread t and its reply take at most.
fn room_of(shape: &Shape, t: usize) -> usize
    requires { t < length shape.now.threads.items }
    ensures { (s : ThreadShape) → slice_get shape.now.threads.items t ≡ Some s
        → result ≡ min (thread_room (plain_thread s)) (2 ^ 64 - 1) }
{
    let params = 12 * shape.threads[t].params as usize;
    let uses = shape.threads[t].uses.len().saturating_mul(25);
    params.saturating_add(uses).saturating_add(128)
}

/// How many bytes the two lines of a job and its reply take at most, for any thread of this shape. Where that is more than a
/// `usize` holds it is the greatest one, and no buffer is that long.
pub fn log_room(shape: &Shape) -> usize
    ensures { result ≡ min (lines_room (plain_shape shape.now)) (2 ^ 64 - 1) }
{
    let mut room = 128usize;
    for t in 0..shape.threads.len() {
        room = room.max(room_of(shape, t));
    }
    room
}
