//! Numbers.
ghost use Rattle.std.specs.Prelude.{◌≡◌, ◌≤◌, IfSome};
ghost use Rattle.forec_tree.specs.Lexis as lexis;
ghost use Rattle.forec_lexer.specs.Reading as reading;

/// The value of a digit, and 16 for a byte that is none.
fn digit_of(byte: u8) -> u64
    ensures value { result ≡ lexis.digit_of byte }
    ensures small { result ≤ 16 }
{
    match byte {
        b'0'..=b'9' => (byte - b'0') as u64,
        b'a'..=b'f' => (byte - b'a') as u64 + 10,
        b'A'..=b'F' => (byte - b'A') as u64 + 10,
        _ => 16,
    }
}

/// The value of digits, if each is one of this base and the value has 32 bits.
fn value_in(base: u64, digits: &[u8]) -> Option<u32>
    requires { base ≤ 16 }
    ensures { result ≡ reading.value_from base 0 digits.now }
{
    let mut value: u64 = 0;
    for byte in digits {
        let digit = digit_of(*byte);
        if digit >= base {
            return None;
        }
        value = value * base + digit;
        if value > u32::MAX as u64 {
            return None;
        }
    }
    Some(value as u32)
}

/// The value of what stands after `0x`.
fn hexadecimal(digits: &[u8]) -> Option<u32>
    ensures { result ≡ reading.hexadecimal digits.now }
{
    if digits.is_empty() {
        return None;
    }
    value_in(16, digits)
}

/// The value of a number whose first digit is 0, by what stands after it.
fn after_zero(digits: &[u8]) -> Option<u32>
    ensures { result ≡ reading.after_zero digits.now }
{
    if let Some((first, digits)) = digits.split_first()
        && (*first == b'x' || *first == b'X')
    {
        return hexadecimal(digits);
    }
    value_in(8, digits)
}

/// The value of a run that begins with a digit, if it is a number of at most 32 bits.
pub fn number_of(run: &[u8]) -> Option<u32>
    ensures { result ≡ reading.lexed_number run.now }
{
    let (first, digits) = run.split_first()?;
    if *first == b'0' {
        return after_zero(digits);
    }
    value_in(10, run)
}
