//! The values of a line: a space and a number for each, and in a reply a star behind each that is marked.
ghost use Rattle.std.specs.Prelude.{◌≡◌, ◌≤◌, ◌++◌, ℕ, ℤ, List, length, drop, codes, IfSome, IsSomeAnd, FitsSigned};
ghost use Rattle.std.specs.Fmt.{signed_decimal};
ghost use Rattle.std.specs.Int.{w32};
ghost use Rattle.forec_kernel.specs.declared.shape.VarCopy.{VarCopy};
ghost use Rattle.forec_kernel.specs.Solo.{unmarked_copies};
ghost use Rattle.exchange_meaning.specs.LogLines.{spaced_numbers, marked_numbers};
ghost use Rattle.exchange_meaning.specs.OfShape.{AreInts, HaveInts};
ghost use Rattle.log_text.specs.Pieces.{StandsTo, EndsDigits, EndsCopy};
ghost use Rattle.log_text.specs.Values.{ReadsArgs, ReadsCopies, ReadsCopy, ReadsValue, ReadsValues, star_of};

use crate::numbers::signed_at;
use crate::pieces::{expect, stands};
use forec_kernel::VarCopy;

/// Reads a space and a number.
#[inline(always)]
fn read_value(bytes: &[u8], at: usize) -> Option<(i32, usize)>
    requires { at ≤ length bytes.now }
    ensures stands { IfSome result (λ x. ReadsValue bytes.now at x.0 x.1) }
    ensures only { (n : ℤ) (rest : List ℕ) → FitsSigned w32 n → EndsDigits rest
        → drop at bytes.now ≡ codes " " ++ (signed_decimal n ++ rest)
        → IsSomeAnd result (λ x. (x.0 ≡ n) × (drop x.1 bytes.now ≡ rest)) }
{
    let from = expect(bytes, at, b" ")?;
    signed_at(bytes, from)
}

/// Reads so many arguments.
pub fn read_args(bytes: &[u8], at: usize, args: &mut [i32]) -> Option<usize>
    requires { at ≤ length bytes.now }
    ensures stands { IfSome result (λ end. ReadsArgs bytes.now at args.new end) }
    ensures only { (ns : List ℤ) (rest : List ℕ) → length ns ≡ length args.old → AreInts ns → EndsDigits rest
        → drop at bytes.now ≡ spaced_numbers ns ++ rest
        → IsSomeAnd result (λ end. (drop end bytes.now ≡ rest) × (args.new ≡ ns)) }
{
    let mut end = at;
    for i in 0..args.len() {
        let (value, next) = read_value(bytes, end)?;
        args[i] = value;
        end = next;
    }
    Some(end)
}

/// Reads the values of so many copies, and unmarks them.
pub fn read_values(bytes: &[u8], at: usize, copies: &mut [VarCopy]) -> Option<usize>
    requires { at ≤ length bytes.now }
    ensures stands { IfSome result (λ end. ReadsValues bytes.now at copies.new end) }
    ensures only { (ns : List ℤ) (rest : List ℕ) → length ns ≡ length copies.old → AreInts ns → EndsDigits rest
        → drop at bytes.now ≡ spaced_numbers ns ++ rest
        → IsSomeAnd result (λ end. (drop end bytes.now ≡ rest) × (copies.new ≡ unmarked_copies ns)) }
{
    let mut end = at;
    for i in 0..copies.len() {
        let (value, next) = read_value(bytes, end)?;
        copies[i] = VarCopy {
            value,
            modified: false,
        };
        end = next;
    }
    Some(end)
}

/// Reads a copy: a space, its value, and a star where it is marked.
#[inline(always)]
fn read_copy(bytes: &[u8], at: usize) -> Option<(VarCopy, usize)>
    requires { at ≤ length bytes.now }
    ensures stands { IfSome result (λ x. ReadsCopy bytes.now at x.0 x.1) }
    ensures only { (c : VarCopy) (rest : List ℕ) → FitsSigned w32 c.value → EndsCopy rest
        → drop at bytes.now ≡ codes " " ++ (signed_decimal c.value ++ (star_of c ++ rest))
        → IsSomeAnd result (λ x. (x.0 ≡ c) × (drop x.1 bytes.now ≡ rest)) }
{
    let (value, end) = read_value(bytes, at)?;
    if stands(bytes, end, b'*') {
        let copy = VarCopy {
            value,
            modified: true,
        };
        return Some((copy, end + 1));
    }
    let copy = VarCopy {
        value,
        modified: false,
    };
    Some((copy, end))
}

/// Reads so many copies.
pub fn read_copies(bytes: &[u8], at: usize, copies: &mut [VarCopy]) -> Option<usize>
    requires { at ≤ length bytes.now }
    ensures stands { IfSome result (λ end. ReadsCopies bytes.now at copies.new end) }
    ensures only { (cs : List VarCopy) (rest : List ℕ) → length cs ≡ length copies.old → HaveInts cs → EndsCopy rest
        → drop at bytes.now ≡ marked_numbers cs ++ rest
        → IsSomeAnd result (λ end. (drop end bytes.now ≡ rest) × (copies.new ≡ cs)) }
{
    let mut end = at;
    for i in 0..copies.len() {
        let (copy, next) = read_copy(bytes, end)?;
        copies[i] = copy;
        end = next;
    }
    Some(end)
}
