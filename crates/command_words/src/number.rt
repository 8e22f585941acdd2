//! Numbers in words.

ghost use Rattle.std.specs.Prelude.{◌≡◌, ◌≤◌, ◌<◌, ◌^◌, IfSome, option_map};
ghost use Rattle.std.specs.List.{list_all};
ghost use Rattle.std.specs.Char.{is_ascii_digit};
ghost use Rattle.command_words.specs.Numbers.{is_decimal, written_number, number_in, number_or};

fn are_digits(text: &str) -> bool
    ensures { result ≡ list_all is_ascii_digit text.now }
{
    text.bytes().all(|byte| byte.is_ascii_digit())
}

fn is_number(word: &str) -> bool
    ensures { result ≡ is_decimal word.now }
{
    0 < word.len() && word.len() < 20 && are_digits(word)
}

/// The number that 1 to 19 decimal digits write.
fn number(word: &str) -> Option<u64>
    ensures { result ≡ written_number word.now }
{
    if is_number(word) {
        word.parse().ok()
    } else {
        None
    }
}

/// The number of a word, where it is one from `least` to `most`.
pub fn in_range(word: &str, least: u64, most: u64) -> Option<u64>
    ensures { result ≡ number_in least most word.now }
{
    let value = number(word)?;
    if least <= value && value <= most {
        Some(value)
    } else {
        None
    }
}

/// The number of a word, where it is one from `least` to `most`, or `usual` where there is no word.
pub fn or_usual(word: Option<&str>, usual: u64, least: u64, most: u64) -> Option<u64>
    ensures { result ≡ number_or usual least most (option_map (λ s. s.now) word.entry) }
{
    match word {
        None => Some(usual),
        Some(word) => in_range(word, least, most),
    }
}
