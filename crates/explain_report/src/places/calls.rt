//! Calls in a location: a function, and the file and the line from which it calls.
ghost use Rattle.std.specs.Prelude.{◌≡◌, ◌==◌};
ghost use Rattle.std.specs.List.{after_last, before_last, list_all};
ghost use Rattle.explain_report.specs.places.Places.{call_function, call_place, is_digit, is_line};

use memchr::memrchr;

/// A call of a location.
#[derive(Clone, Copy)]
pub struct Call<'a> {
    /// The function, or the whole call if it names no line.
    pub function: &'a [u8],
    /// `FILE:LINE`, the line of the call; empty if the call names no line.
    pub place: &'a [u8],
}

/// The parts of a call `FUNCTION FILE:LINE`. The function of an access has no line, and a call may consist of a line
/// alone.
pub fn call_of(call: &[u8]) -> Call<'_>
    ensures function { result.function.now ≡ call_function call.now }
    ensures place { result.place.now ≡ call_place call.now }
{
    let (function, place) = cut_at_last(b' ', call);
    if is_line(place) {
        Call { function, place }
    } else {
        Call {
            function: call,
            place: b"",
        }
    }
}

/// Whether the text is `FILE:LINE`.
pub fn is_line(text: &[u8]) -> bool
    ensures { result ≡ is_line text.now }
{
    let (file, line) = cut_at_last(b':', text);
    !file.is_empty() && !line.is_empty() && are_digits(line)
}

/// Whether all bytes are decimal digits.
fn are_digits(text: &[u8]) -> bool
    ensures { result ≡ list_all is_digit text.now }
{
    text.iter().all(|byte| b'0' <= *byte && *byte <= b'9')
}

/// The text before the last such byte, and the text after it. If there is no such byte: nothing, and all.
pub fn cut_at_last(byte: u8, text: &[u8]) -> (&[u8], &[u8])
    ensures before { result.0.now ≡ before_last (λ b. b == byte) text.now }
    ensures after { result.1.now ≡ after_last (λ b. b == byte) text.now }
{
    match memrchr(byte, text) {
        Some(at) => (&text[..at], &text[at + 1..]),
        None => (b"", text),
    }
}
