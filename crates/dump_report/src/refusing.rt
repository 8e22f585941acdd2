//! The lines of a text that is refused.
ghost use Rattle.std.specs.Prelude.{◌≡◌, ◌<◌, ◌≤◌, ◌+◌, ◌^◌, length, take};
ghost use Rattle.dump_report.specs.Calls.{TellsReport};
ghost use Rattle.dump_report.specs.Told.{byte_line, refused_from, refused_long};

use crate::room::put;
use crate::sending::say;
use crate::status::DumpStatus;
use forec_base::Sink;
use itoa::Buffer;

/// Puts the line of a text that is refused at this byte, counted from 1, to the front, and says where it ends.
fn put_refusal(line: &mut [u8], byte: u64) -> usize
    requires { 34 ≤ length line.old }
    ensures within { result ≤ length line.new }
    ensures front { take result line.new ≡ byte_line byte }
{
    let mut digits = Buffer::new();
    let at = put(line, 0, b"refused byte ");
    let at = put(line, at, digits.format(byte).as_bytes());
    put(line, at, b"\n")
}

/// Says that a text is no dump's, where its longest front that some dump begins with has so many bytes.
pub fn refuse<K: Sink>(front: u64, out: &mut K) -> DumpStatus
    requires { front + 1 < 2 ^ 64 }
    ensures { TellsReport K.held K.faults K.down (refused_from front) out.old out.new result }
{
    let mut line = [0u8; 34];
    let end = put_refusal(&mut line, front + 1);
    say(out, &line[..end], DumpStatus::Refused)
}

/// Says that a text has more bytes than any text may have.
pub fn refuse_long<K: Sink>(out: &mut K) -> DumpStatus
    ensures { TellsReport K.held K.faults K.down refused_long out.old out.new result }
{
    say(out, b"refused long\n", DumpStatus::Refused)
}
