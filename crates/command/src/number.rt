// A number of a zone or a date.
ghost use Rattle.std.specs.Prelude.{◌≡◌};
ghost use Rattle.std.specs.Char.{is_ascii_digit};
ghost use Rattle.std.specs.List.{list_all};
ghost use Rattle.command.specs.Words.{natural, decimal, number_of};

// Whether all bytes are digits.
fn are_digits(text: &[u8]) -> bool
    ensures { result ≡ list_all is_ascii_digit text.now }
{
    text.iter().all(|byte| byte.is_ascii_digit())
}

// Whether a text is one or more digits, with no zero before others.
fn is_natural(text: &[u8]) -> bool
    ensures { result ≡ natural text.now }
{
    decimal::is_plain(text) && are_digits(text)
}

// Whether a text is a decimal number, however large.
fn is_decimal(text: &[u8]) -> bool
    ensures { result ≡ decimal text.now }
{
    match text.strip_prefix(b"-") {
        Some(rest) => rest != b"0".as_slice() && is_natural(rest),
        None => is_natural(text),
    }
}

// The number that a word is, or `most` for every other decimal number.
pub fn number_of(most: u64, word: &[u8]) -> Option<u64>
    ensures { result ≡ number_of most word.now }
{
    match decimal::read_u64(word) {
        Some(n) => Some(n.min(most)),
        None => is_decimal(word).then_some(most),
    }
}
