//! Numbers as scripts write them.
ghost use Rattle.std.specs.Prelude.{◌≡◌, ◌+◌, true, min};
ghost use Rattle.std.specs.List.{list_all};
ghost use Rattle.script_language.specs.Limits.{number_limit};
ghost use Rattle.script_language.specs.LineWords.{is_digit, value_of, written_number};

/// The greatest number of a script.
pub(crate) const MAX_NUMBER: u64 = 4_294_967_295;

/// Whether the byte is from `0` to `9`.
fn is_decimal(byte: u8) -> bool
    ensures { result ≡ is_digit byte }
{
    byte.is_ascii_digit()
}

/// Whether all bytes are from `0` to `9`.
fn are_decimal(word: &[u8]) -> bool
    ensures { result ≡ list_all is_digit word.now }
{
    word.iter().all(|byte| is_decimal(*byte))
}

/// The value of decimal digits; 4,294,967,296 if the value is greater.
fn bounded_value(digits: &[u8]) -> u64
    requires { list_all is_digit digits.now ≡ true }
    ensures { result ≡ min (value_of digits.now) (number_limit + 1) }
{
    let mut value = 0;
    for digit in digits {
        value = (value * 10 + u64::from(*digit - b'0')).min(MAX_NUMBER + 1);
    }
    value
}

/// The number that the word writes: one or more decimal digits with a value of at most 4,294,967,295.
pub(crate) fn number(word: &[u8]) -> Option<u32>
    ensures { result ≡ written_number word.now }
{
    if word.is_empty() || !are_decimal(word) {
        return None;
    }
    let value = bounded_value(word);
    if value > MAX_NUMBER {
        return None;
    }
    Some(value as u32)
}
