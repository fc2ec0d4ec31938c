//! Removes blanks from the ends of a text.
ghost use Rattle.std.specs.Prelude.{◌≡◌, ◌-◌, ◌≤◌, take, drop, length};
ghost use Rattle.std.specs.List.{prefix_len, suffix_len};
ghost use Rattle.rapid_text.specs.Reading.{is_blank, trimmed};

/// Whether the byte is a blank of the trace text: a space, a tab or a carriage return.
pub fn is_a_blank(byte: u8) -> bool
    ensures { result ≡ is_blank byte }
{
    byte == b' ' || byte == b'\t' || byte == b'\r'
}

/// The number of blanks at the front of the bytes.
fn blanks_before(bytes: &[u8]) -> usize
    ensures blanks { result ≡ prefix_len is_blank bytes.now }
    ensures within { result ≤ length bytes.now }
{
    bytes.iter().take_while(|byte| is_a_blank(**byte)).count()
}

/// The number of blanks at the end of the bytes.
fn blanks_after(bytes: &[u8]) -> usize
    ensures blanks { result ≡ suffix_len is_blank bytes.now }
    ensures within { result ≤ length bytes.now }
{
    bytes
        .iter()
        .rev()
        .take_while(|byte| is_a_blank(**byte))
        .count()
}

/// The bytes without the blanks at the front.
pub fn trim_start(bytes: &[u8]) -> &[u8]
    ensures { result.now ≡ drop (prefix_len is_blank bytes.now) bytes.now }
{
    &bytes[blanks_before(bytes)..]
}

/// The bytes without the blanks at the end.
pub(crate) fn trim_end(bytes: &[u8]) -> &[u8]
    ensures { result.now ≡ take (length bytes.now - suffix_len is_blank bytes.now) bytes.now }
{
    &bytes[..bytes.len() - blanks_after(bytes)]
}

/// The bytes without the blanks at both ends.
pub fn trim(bytes: &[u8]) -> &[u8]
    ensures { result.now ≡ trimmed bytes.now }
{
    trim_end(trim_start(bytes))
}
