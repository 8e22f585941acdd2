//! The sorts of bytes.
ghost use Rattle.std.specs.Prelude.{◌≡◌, ◌≤◌, length};
ghost use Rattle.std.specs.List.{take_while};
ghost use Rattle.forec_tree.specs.Lexis as lexis;

/// White space: a blank, or one of the bytes 9 to 13 (tab, line feed, vertical tab, form feed, carriage return).
pub fn is_space(byte: u8) -> bool
    ensures { result ≡ lexis.is_space byte }
{
    byte == b' ' || byte >= 9 && byte <= 13
}

/// A letter or `_`.
pub fn is_letter(byte: u8) -> bool
    ensures { result ≡ lexis.is_letter byte }
{
    byte == b'_' || byte >= b'a' && byte <= b'z' || byte >= b'A' && byte <= b'Z'
}

/// A decimal digit.
pub fn is_digit(byte: u8) -> bool
    ensures { result ≡ lexis.is_digit byte }
{
    byte >= b'0' && byte <= b'9'
}

/// A letter, `_` or a digit.
pub fn goes_on(byte: u8) -> bool
    ensures { result ≡ lexis.continues_name byte }
{
    is_letter(byte) || is_digit(byte)
}

/// How many letters, `_` and digits stand at the front.
pub fn run_len(text: &[u8]) -> usize
    ensures value { result ≡ length (take_while lexis.continues_name text.now) }
    ensures within { result ≤ length text.now }
{
    text.iter().take_while(|byte| goes_on(**byte)).count()
}
