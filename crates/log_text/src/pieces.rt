//! Readers of bytes that have to stand at a place. Each reader of a part of a line is given the place where the part
//! begins, and gives the place behind it, where it stands there.
ghost use Rattle.std.specs.Prelude.{◌≡◌, ◌+◌, ◌<◌, ◌≤◌, ◌++◌, ℕ, List, length, drop, get_or, IfSome, IsSomeAnd, IsTrue, ◌↔◌};
ghost use Rattle.log_text.specs.Pieces.{StandsTo};

/// Reads these bytes.
#[inline(always)]
pub fn expect(bytes: &[u8], at: usize, piece: &[u8]) -> Option<usize>
    requires { at ≤ length bytes.now }
    ensures stands { IfSome result (λ end. StandsTo bytes.now at piece.now end) }
    ensures only { (rest : List ℕ) → drop at bytes.now ≡ piece.now ++ rest
        → IsSomeAnd result (λ end. drop end bytes.now ≡ rest) }
{
    if bytes.len() - at < piece.len() {
        return None;
    }
    for i in 0..piece.len() {
        if bytes[at + i] != piece[i] {
            return None;
        }
    }
    Some(at + piece.len())
}

/// Whether this byte stands there.
#[inline(always)]
pub fn stands(bytes: &[u8], at: usize, byte: u8) -> bool
    ensures { IsTrue result ↔ ((at < length bytes.now) × (get_or bytes.now at 0 ≡ byte)) }
{
    at < bytes.len() && bytes[at] == byte
}
