//! Bytes that are sent in large pieces.
ghost use Rattle.std.specs.Prelude.{◌≡◌, ◌+◌, ◌≤◌, ◌++◌, [], length, vec_len, vec_capacity, OnOk, OnErr};
ghost use Rattle.trace_rows.specs.Calls.{Faults};
ghost use Rattle.whole_writes.specs.Calls.{AppendsFront};
ghost use Rattle.log_writing.specs.Sending.{SendsBehind, HasSpace};

use forec_base::{Failed, Sink};
use whole_writes::write_all;

/// Adds bytes for which there is room.
pub fn append(to: &mut Vec<u8>, bytes: &[u8])
    requires { HasSpace to.old (length bytes.now) }
    ensures items { to.new.items ≡ to.old.items ++ bytes.now }
    ensures capacity { vec_capacity to.old ≤ vec_capacity to.new }
{
    let Ok(()) = to.extend_from_slice(bytes) else {
        unreachable!()
    };
}

/// Sends what waits where so many bytes more don't fit. At an `Err` a front of it is sent.
pub fn make_room<K: Sink>(waiting: &mut Vec<u8>, room: usize, out: &mut K) -> Result<(), Failed>
    requires { room ≤ vec_capacity waiting.old }
    ensures ok { OnOk result (SendsBehind (K.held out.old) (K.held out.new) waiting.old.items waiting.new.items []) }
    ensures room { OnOk result (HasSpace waiting.new room) }
    ensures capacity { vec_capacity waiting.old ≤ vec_capacity waiting.new }
    ensures err { OnErr result (AppendsFront (K.held out.old) (K.held out.new) waiting.old.items) }
    ensures cause { Faults (K.faults out.old) (K.faults out.new) (K.down out.new) result }
{
    if waiting.capacity() - waiting.len() >= room {
        return Ok(());
    }
    match write_all(out, waiting) {
        Ok(()) => {
            waiting.clear();
            Ok(())
        }
        Err(failed) => Err(failed),
    }
}
