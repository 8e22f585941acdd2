//! The words of a line, one by one.
ghost use Rattle.std.specs.Prelude.{◌≡◌, ◌≤◌, ◌<◌, ◌∷◌, [], length, IfSome, IfNone};
ghost use Rattle.std.specs.List.{position, position_or_len};
ghost use Rattle.trace_rows.specs.Words.{is_blank, line_words, BeginsNoBlank};

/// Whether a byte stands between words.
pub fn blank(b: u8) -> bool
    ensures { result ≡ is_blank b }
{
    b == 32 || b == 9 || b == 13
}

/// A line from its first byte that is no blank.
pub fn skip_blanks(line: &[u8]) -> &[u8]
    ensures words { line_words result.now ≡ line_words line.now }
    ensures shorter { length result.now ≤ length line.now }
    ensures begins { BeginsNoBlank result.now }
{
    let mut rest = line;
    'blanks: while let Some((b, after)) = rest.split_first() {
        if !blank(*b) {
            return rest;
        }
        rest = after;
    }
    rest
}

/// Where the first blank stands.
fn first_blank(line: &[u8]) -> Option<usize>
    ensures { result ≡ position is_blank line.now }
{
    line.iter().position(|b| blank(*b))
}

/// How many bytes stand before the first blank.
fn word_end(line: &[u8]) -> usize
    ensures end { result ≡ position_or_len is_blank line.now }
    ensures within { result ≤ length line.now }
{
    match first_blank(line) {
        Some(end) => end,
        None => line.len(),
    }
}

/// The first word of a line that begins with no blank, and what stands after it.
fn first_word(line: &[u8]) -> Option<(&[u8], &[u8])>
    requires { BeginsNoBlank line.now }
    ensures some { IfSome result (λ r. (line_words line.now ≡ r.0.now ∷ line_words r.1.now)
        × (length r.1.now < length line.now)) }
    ensures none { IfNone result (line_words line.now ≡ []) }
{
    if line.is_empty() {
        return None;
    }
    let end = word_end(line);
    let word = &line[..end];
    let after = &line[end..];
    Some((word, after))
}

/// The first word of a line, and what stands after it.
pub fn next_word(line: &[u8]) -> Option<(&[u8], &[u8])>
    ensures some { IfSome result (λ r. (line_words line.now ≡ r.0.now ∷ line_words r.1.now)
        × (length r.1.now < length line.now)) }
    ensures none { IfNone result (line_words line.now ≡ []) }
{
    first_word(skip_blanks(line))
}
