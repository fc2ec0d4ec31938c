//! Replaces the numbers of a window's events by their numbers in the whole trace, in the lines of `triage --json`.
ghost use Rattle.std.specs.Prelude.{◌≡◌, ◌^◌, ◌+◌, ◌*◌, ◌<◌, ◌≤◌, length, take, drop, true, false, IfOk, IfSome, OnOk, None};
ghost use Rattle.std.specs.Char.{digit_value};
ghost use Rattle.std.specs.Str.Parse.{AllDigits, digits_value};
ghost use Rattle.rapid_text.specs.Appended.{Appended, IfFound};
ghost use Rattle.window.specs.Moving.{AppendsMoved, HasNoDigit, HasNoMark, MovesFirst, moved_digits};

use crate::cutting::Window;
use itoa::Buffer;
use memchr::memmem;
use rapid_text::OutOfMemory;

/// The text before the number of an event.
const EVENT: &[u8] = b"{\"event\":";

// The number of digits at the front.
fn digits_len(text: &[u8]) -> usize
    ensures within { result ≤ length text.now }
    ensures digits { AllDigits 10 (take result text.now) }
    ensures all { HasNoDigit (drop result text.now) }
{
    let mut len = 0;
    'digits: while len < text.len() && is_digit(text[len]) {
        len += 1;
    }
    len
}

// Whether the byte is a digit.
fn is_digit(byte: u8) -> bool
    ensures yes { result ≡ true → digit_value byte < 10 }
    ensures no { result ≡ false → 10 ≤ digit_value byte }
{
    byte >= b'0' && byte <= b'9'
}

// The number that the digits write, if it fits in a u64.
fn number_in(digits: &[u8]) -> Option<u64>
    requires { AllDigits 10 digits.now }
    ensures some { IfSome result (λ number. number ≡ digits_value 10 digits.now) }
    ensures none { result ≡ None → 2 ^ 64 ≤ digits_value 10 digits.now }
{
    let mut number = 0u64;
    for at in 0..digits.len() {
        let Some(more) = with_digit(number, digits[at]) else {
            return None;
        };
        number = more;
    }
    Some(number)
}

// The number with this digit after it, if it fits in a u64.
fn with_digit(number: u64, digit: u8) -> Option<u64>
    requires low { 48 ≤ digit }
    requires high { digit ≤ 57 }
    ensures some { IfSome result (λ more. more ≡ number * 10 + digit_value digit) }
    ensures none { result ≡ None → 2 ^ 64 ≤ number * 10 + digit_value digit }
{
    let tens = number.checked_mul(10)?;
    tens.checked_add(u64::from(digit - b'0'))
}

impl Window {
    // Appends the number that the event has in the trace.
    fn append_digits(&self, out: &mut Vec<u8>, digits: &[u8]) -> Result<(), OutOfMemory>
        requires { AllDigits 10 digits.now }
        ensures { Appended result out.old out.new (moved_digits self.now.prologue self.now.from digits.now) }
    {
        let Some(event) = number_in(digits) else {
            out.extend_from_slice(digits)?;
            return Ok(());
        };
        match self.number_of(event) {
            Some(number) => {
                let mut buffer = Buffer::new();
                out.extend_from_slice(buffer.format(number).as_bytes())?;
            }
            None => out.extend_from_slice(digits)?,
        }
        Ok(())
    }

    // Appends the text up to the first number of an event, and that number. Returns the text after it; None if there
    // is no such number.
    fn append_first<'a>(
        &self,
        out: &mut Vec<u8>,
        text: &'a [u8],
    ) -> Result<Option<&'a [u8]>, OutOfMemory>
        ensures none { IfOk result (λ rest. rest ≡ None → HasNoMark text.now × (out.new.items ≡ out.old.items)) }
        ensures some { IfFound result (λ rest. MovesFirst self.now text.now rest.now out.old.items out.new.items) }
        ensures shorter { IfFound result (λ rest. length rest.now < length text.now) }
    {
        let Some(at) = memmem::find(text, EVENT) else {
            return Ok(None);
        };
        let (front, behind) = text.split_at(at + EVENT.len());
        let (digits, rest) = behind.split_at(digits_len(behind));
        out.extend_from_slice(front)?;
        self.append_digits(out, digits)?;
        Ok(Some(rest))
    }

    /// Appends the line with the numbers that its events have in the trace. Nothing else in it changes.
    pub fn append_moved(&self, out: &mut Vec<u8>, line: &[u8]) -> Result<(), OutOfMemory>
        ensures { OnOk result (AppendsMoved self.now line.now out.old.items out.new.items) }
    {
        let mut left = line;
        'numbers: while let Some(rest) = self.append_first(out, left)? {
            left = rest;
        }
        out.extend_from_slice(left)?;
        Ok(())
    }
}
