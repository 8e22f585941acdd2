//! Which output a value may be of. Values are kept as the number that their 32 bits spell.
ghost use Rattle.std.specs.Prelude.{◌≡◌, ◌+◌, ◌<◌, ◌≤◌, ◌++◌, ◌∷◌, [], ℕ, ℤ, List, length, take, drop, Some, None, IfOk, IsTrue, IsFalse};
ghost use Rattle.std.specs.Int.{w32, cast_signed};
ghost use Rattle.wave_dump.specs.Machine.{Letter, can_take, value_taken_by, literal};
ghost use Rattle.wave_dump.specs.Reading.{Continues, dump_from, spot_with, body_behind, signed_words, olds_at};

use crate::fault::WaveFault;

/// The outputs that are left in a tick.
#[derive(Clone, Copy)]
pub struct Left<'a> {
    /// Whether it is the first tick.
    pub first: bool,
    /// What they had in the tick before.
    pub words: &'a [u32],
    /// Which of all outputs the first of them is.
    pub output: usize,
}

/// Whether some of the outputs that are left may have this value now. In the first tick none had a value before, else
/// they had these.
pub fn can_have(first: bool, left: &[u32], word: u32) -> bool
    requires { 0 < length left.now }
    ensures { result ≡ can_take (olds_at first left.now) (cast_signed w32 word) }
{
    if first {
        return true;
    }
    for old in left {
        if *old != word {
            return true;
        }
    }
    false
}

/// Whether output k of those that are left may have this value now, while those before it keep theirs.
fn may_be(first: bool, left: &[u32], k: usize, word: u32) -> bool
    requires { k < length left.now }
    ensures yes { IsTrue result → value_taken_by k (olds_at first left.now) (cast_signed w32 word)
        ≡ Some (signed_words (take k left.now) ++ cast_signed w32 word ∷ [], olds_at first (drop (k + 1) left.now)) }
    ensures no { IsFalse result → value_taken_by k (olds_at first left.now) (cast_signed w32 word) ≡ None }
{
    if first {
        return k == 0;
    }
    left[k] != word
}

/// Reads the output of a value: which of those that are left.
///
/// # Errors
///
/// No output that may have this value stands there.
pub fn which(bytes: &[u8], at: usize, left: &Left<'_>, word: u32) -> Result<usize, WaveFault>
    requires place { at ≤ length bytes.now }
    requires few { left.now.output ≤ 64 }
    ensures within { IfOk result (λ k. (k < length left.now.words.now) × (at < length bytes.now)) }
    ensures goes { (names : List (List ℕ)) (ticks : List (List ℤ)) (now : List ℤ) → length now ≡ left.now.output
        → Continues result (dump_from bytes.now at
        (Letter (spot_with names ticks now (olds_at left.now.first left.now.words.now)) (cast_signed w32 word)))
        (λ k. dump_from bytes.now (at + 1)
        (literal (10 ∷ []) (body_behind names ticks now left.now.first left.now.words.now k word))) }
{
    if at >= bytes.len() {
        return Err(WaveFault::Bad { at: at as u64 });
    }
    let letter = usize::from(bytes[at]);
    if letter < 33 + left.output {
        return Err(WaveFault::Bad { at: at as u64 });
    }
    let k = letter - 33 - left.output;
    if k >= left.words.len() {
        return Err(WaveFault::Bad { at: at as u64 });
    }
    if may_be(left.first, left.words, k, word) {
        return Ok(k);
    }
    Err(WaveFault::Bad { at: at as u64 })
}
