//! The file, the line and the URI of a place.
ghost use Rattle.std.specs.Prelude.{◌≡◌, ◌<◌};
ghost use Rattle.rapid_text.specs.Appended.{Appended};
ghost use Rattle.triage_report.specs.sarif.Places.{encoded, encoded_byte, file_of, hex_digit, is_absolute, is_plain, line_number, line_of, uri_of};

use explain_report::places::{cut_at_last, is_line};
use rapid_text::OutOfMemory;

/// The largest line number that is written.
pub const MOST_LINE: u64 = 1_000_000_000;

/// The file of a place `FILE:LINE`; any other place unchanged.
pub fn file_of(place: &[u8]) -> &[u8]
    ensures { result.now ≡ file_of place.now }
{
    let (file, _) = cut_at_last(b':', place);
    if is_line(place) { file } else { place }
}

/// The line of a place `FILE:LINE`, or 0 for any other place. If the line is above `MOST_LINE`, the result may be
/// another number above it.
pub fn line_of(place: &[u8]) -> u64
    ensures { result ≡ line_of place.now }
{
    let (_, digits) = cut_at_last(b':', place);
    if is_line(place) {
        line_number(digits)
    } else {
        0
    }
}

/// The number with these digits, if it is at most `MOST_LINE`; else a number above that.
fn line_number(digits: &[u8]) -> u64
    ensures { result ≡ line_number digits.now }
{
    digits.iter().fold(0, |number, digit| {
        number.min(MOST_LINE) * 10 + u64::from(digit.saturating_sub(b'0'))
    })
}

/// Whether the path is absolute: it begins with a slash.
pub(crate) fn is_absolute(path: &[u8]) -> bool
    ensures { result ≡ is_absolute path.now }
{
    path.starts_with(b"/")
}

/// Appends the path as a URI.
pub(crate) fn append_uri(out: &mut Vec<u8>, path: &[u8]) -> Result<(), OutOfMemory>
    ensures { Appended result out.old out.new (uri_of path.now) }
{
    if is_absolute(path) {
        out.extend_from_slice(b"file://")?;
    }
    append_encoded(out, path)
}

/// Appends the path, encoded for a URI.
fn append_encoded(out: &mut Vec<u8>, path: &[u8]) -> Result<(), OutOfMemory>
    ensures { Appended result out.old out.new (encoded path.now) }
{
    for byte in path {
        append_byte(out, *byte)?;
    }
    Ok(())
}

/// Appends a byte, encoded for a URI.
fn append_byte(out: &mut Vec<u8>, byte: u8) -> Result<(), OutOfMemory>
    ensures { Appended result out.old out.new (encoded_byte byte) }
{
    if is_plain(byte) {
        out.push(byte)?;
    } else {
        out.extend_from_slice(&[b'%', hex_digit(byte / 16), hex_digit(byte % 16)])?;
    }
    Ok(())
}

/// Whether the byte may be in the path of a URI as it is: a letter, a digit, or one of `-./_~`.
fn is_plain(byte: u8) -> bool
    ensures { result ≡ is_plain byte }
{
    (b'-' <= byte && byte <= b'9')
        || (b'A' <= byte && byte <= b'Z')
        || byte == b'_'
        || (b'a' <= byte && byte <= b'z')
        || byte == b'~'
}

/// A digit of a hexadecimal number, in upper case.
fn hex_digit(value: u8) -> u8
    requires { value < 16 }
    ensures { result ≡ hex_digit value }
{
    if value < 10 {
        return b'0' + value;
    }
    b'A' + (value - 10)
}
