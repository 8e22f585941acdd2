//! Comments.
ghost use Rattle.std.specs.Prelude.{◌≡◌, ◌≤◌, length, IfSome};
ghost use Rattle.std.specs.List.{take_while};
ghost use Rattle.forec_lexer.specs.Reading as reading;

/// How many bytes the text has up to the first `*/`, and with it.
pub fn close_of(text: &[u8]) -> Option<usize>
    ensures value { result ≡ reading.close_from 0 text.now }
    ensures within { IfSome result (λ n. n ≤ length text.now) }
{
    for at in 0..text.len() {
        if text[at..].starts_with(b"*/".as_slice()) {
            return Some(at + 2);
        }
    }
    None
}

/// How many bytes the line has up to its end.
pub fn line_len(text: &[u8]) -> usize
    ensures value { result ≡ length (take_while reading.is_in_line text.now) }
    ensures within { result ≤ length text.now }
{
    text.iter().take_while(|byte| **byte != b'\n').count()
}
