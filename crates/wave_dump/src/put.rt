//! Bytes put into a buffer.
ghost use Rattle.std.specs.Prelude.{◌≡◌, ◌≤◌, ◌+◌, ◌++◌, length, take};

/// Puts bytes at a place, and says where they end.
pub fn put(buffer: &mut [u8], at: usize, bytes: &[u8]) -> usize
    requires { at + length bytes.now ≤ length buffer.old }
    ensures end { result ≡ at + length bytes.now }
    ensures same_length { length buffer.new ≡ length buffer.old }
    ensures front { take result buffer.new ≡ take at buffer.old ++ bytes.now }
{
    let end = at + bytes.len();
    buffer[at..end].copy_from_slice(bytes);
    end
}
