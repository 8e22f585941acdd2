//! Numbers, decimal and without leading zeros.
ghost use Rattle.std.specs.Prelude.{◌≡◌, ◌+◌, ◌*◌, ◌<◌, ◌≤◌, ◌^◌, ◌++◌, ℕ, ℤ, List, Some, length, drop, decimal, pos, neg_ℤ};
ghost use Rattle.std.specs.Prelude.{get_or, IfNone, IfSome, IsSomeAnd, SomeIff, FitsSigned};
ghost use Rattle.std.specs.Fmt.{signed_decimal};
ghost use Rattle.std.specs.Int.{w32};
ghost use Rattle.log_text.specs.Pieces.{StandsTo, EndsDigits, IsDecimal};
ghost use Rattle.log_text.specs.Numbers.{DigitsTo, HasDigits, IsNumberAt};

use crate::pieces::stands;

/// The digits at a place: the number that they spell, None where it has more than 64 bits, and where they end.
#[derive(Clone, Copy)]
pub struct Digits {
    pub value: Option<u64>,
    pub end: usize,
}

/// The number with one more digit, where it has at most 64 bits.
fn with_digit(value: Option<u64>, digit: u8) -> Option<u64>
    ensures { (n : ℕ) → SomeIff value (n < 2 ^ 64) n → SomeIff result (n * 10 + digit < 2 ^ 64) (n * 10 + digit) }
{
    value?.checked_mul(10)?.checked_add(u64::from(digit))
}

/// A number below this has at most 64 bits with one more digit.
const SHORT: u64 = 1 << 60;

/// The digits at a place as far as their number is short: the number, and where they end. Nearly all numbers are short.
fn short_digits(bytes: &[u8], at: usize) -> (u64, usize)
    requires { at ≤ length bytes.now }
    ensures { DigitsTo bytes.now at result.1 (Some result.0) }
{
    let mut number = 0;
    let mut end = at;
    while end < bytes.len() && bytes[end].is_ascii_digit() && number < SHORT {
        number = number * 10 + u64::from(bytes[end] - b'0');
        end += 1;
    }
    (number, end)
}

/// Reads digits without a leading zero.
pub fn digits_at(bytes: &[u8], at: usize) -> Option<Digits>
    requires { at ≤ length bytes.now }
    ensures stands { IfSome result (λ d. HasDigits bytes.now at d) }
    ensures only { (digits rest : List ℕ) (n : ℕ) → IsDecimal digits n → EndsDigits rest
        → drop at bytes.now ≡ digits ++ rest
        → IsSomeAnd result (λ d. (drop d.end bytes.now ≡ rest) × SomeIff d.value (n < 2 ^ 64) n) }
{
    let (short, from) = short_digits(bytes, at);
    let mut value = Some(short);
    let mut end = from;
    while end < bytes.len() && bytes[end].is_ascii_digit() {
        value = with_digit(value, bytes[end] - b'0');
        end += 1;
    }
    if end == at {
        return None;
    }
    if end > at + 1 && bytes[at] == b'0' {
        return None;
    }
    Some(Digits { value, end })
}

/// The digit at a place, where there is one.
#[inline(always)]
fn digit_at(bytes: &[u8], at: usize) -> Option<u64>
    ensures some { IfSome result (λ d. (d < 10) × (at < length bytes.now) × (get_or bytes.now at 0 ≡ 48 + d)) }
    ensures none { IfNone result (EndsDigits (drop at bytes.now)) }
{
    if at < bytes.len() && bytes[at].is_ascii_digit() {
        return Some(u64::from(bytes[at] - b'0'));
    }
    None
}

/// A number of one digit or two, where one stands there. Most values of a log are such.
#[inline(always)]
fn brief_at(bytes: &[u8], at: usize) -> Option<(u64, usize)>
    ensures { IfSome result (λ x. (x.0 < 100) × IsNumberAt bytes.now at (decimal x.0) x.1) }
{
    let first = digit_at(bytes, at)?;
    let Some(second) = digit_at(bytes, at + 1) else {
        return Some((first, at + 1));
    };
    if first == 0 || digit_at(bytes, at + 2).is_some() {
        return None;
    }
    Some((10 * first + second, at + 2))
}

/// Reads a number of at most 64 bits.
#[inline(always)]
fn word_at(bytes: &[u8], at: usize) -> Option<(u64, usize)>
    requires { at ≤ length bytes.now }
    ensures stands { IfSome result (λ x. IsNumberAt bytes.now at (decimal x.0) x.1) }
    ensures only { (n : ℕ) (rest : List ℕ) → n < 2 ^ 64 → EndsDigits rest → drop at bytes.now ≡ decimal n ++ rest
        → IsSomeAnd result (λ x. (x.0 ≡ n) × (drop x.1 bytes.now ≡ rest)) }
{
    if let Some((value, end)) = brief_at(bytes, at) {
        return Some((value, end));
    }
    let digits = digits_at(bytes, at)?;
    Some((digits.value?, digits.end))
}

/// Reads a number of at most `limit`.
#[inline(always)]
pub fn number_at(bytes: &[u8], at: usize, limit: u64) -> Option<(u64, usize)>
    requires { at ≤ length bytes.now }
    ensures stands { IfSome result (λ x. (x.0 ≤ limit) × IsNumberAt bytes.now at (decimal x.0) x.1) }
    ensures only { (n : ℕ) (rest : List ℕ) → n ≤ limit → EndsDigits rest → drop at bytes.now ≡ decimal n ++ rest
        → IsSomeAnd result (λ x. (x.0 ≡ n) × (drop x.1 bytes.now ≡ rest)) }
{
    let (value, end) = word_at(bytes, at)?;
    if value > limit {
        return None;
    }
    Some((value, end))
}

fn negated(magnitude: u64) -> i32
    requires { magnitude ≤ 2147483648 }
    ensures { result ≡ neg_ℤ (pos magnitude) }
{
    (-(magnitude as i64)) as i32
}

/// Reads a number of 32 bits, with `-` before it where it is negative.
#[inline(always)]
pub fn signed_at(bytes: &[u8], at: usize) -> Option<(i32, usize)>
    requires { at ≤ length bytes.now }
    ensures stands { IfSome result (λ x. IsNumberAt bytes.now at (signed_decimal x.0) x.1) }
    ensures only { (n : ℤ) (rest : List ℕ) → FitsSigned w32 n → EndsDigits rest
        → drop at bytes.now ≡ signed_decimal n ++ rest
        → IsSomeAnd result (λ x. (x.0 ≡ n) × (drop x.1 bytes.now ≡ rest)) }
{
    if !stands(bytes, at, b'-') {
        let (magnitude, end) = number_at(bytes, at, 2_147_483_647)?;
        return Some((magnitude as i32, end));
    }
    let (magnitude, end) = number_at(bytes, at + 1, 2_147_483_648)?;
    if magnitude == 0 {
        return None;
    }
    Some((negated(magnitude), end))
}
