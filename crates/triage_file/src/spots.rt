//! Lines and columns of a text, both counted from 1; and the spots of its entries and their keys.
ghost use Rattle.std.specs.Prelude.{◌≡◌, ◌≤◌, ◌<◌, ℕ, None, IfSome, count_by, length, slice_index};
ghost use Rattle.triage_file.specs.Spots.{begins_at, headers_before, is_bare, is_feed, is_first_byte, is_header_at, is_key_at, is_name_at, word_start, HasNoKey, IsHeader, IsKeySpot, IsNameSpot, IsSpot};

use explain_report::places::cut_at_last;

/// A spot in a text.
#[derive(Clone, Copy, PartialEq, Eq, Debug)]
pub struct Spot {
    /// The line, counted from 1.
    pub line: u64,
    /// The character in the line, counted from 1.
    pub column: u64,
}

/// The spot of the byte with this index.
pub(crate) fn spot_at(text: &[u8], at: usize) -> Spot
    requires { at ≤ length text.now }
    ensures { IsSpot text.now at result }
{
    let before = &text[..at];
    let (_, start) = cut_at_last(b'\n', before);
    Spot {
        line: feeds_in(before) as u64 + 1,
        column: characters_in(start) as u64 + 1,
    }
}

/// The number of line feeds.
fn feeds_in(text: &[u8]) -> usize
    ensures { result ≡ count_by is_feed text.now }
{
    text.iter().filter(|byte| **byte == b'\n').count()
}

/// The number of characters. It counts the bytes that begin one.
fn characters_in(text: &[u8]) -> usize
    ensures { result ≡ count_by is_first_byte text.now }
{
    text.iter().filter(|byte| is_first_byte(**byte)).count()
}

/// Whether the byte begins a character in UTF-8.
fn is_first_byte(byte: u8) -> bool
    ensures { result ≡ is_first_byte byte }
{
    byte < 128 || byte >= 192
}

/// Whether the byte may be in a key without quotes.
fn is_bare(byte: u8) -> bool
    ensures { result ≡ is_bare byte }
{
    (b'0' <= byte && byte <= b'9')
        || (b'A' <= byte && byte <= b'Z')
        || (b'a' <= byte && byte <= b'z')
        || byte == b'-'
        || byte == b'_'
}

/// Whether a line begins at this index with this word.
fn begins_at(word: &[u8], text: &[u8], at: usize) -> bool
    requires { at < length text.now }
    ensures { result ≡ begins_at word.now text.now at }
{
    (at == 0 || text[at - 1] == b'\n') && text[at..].starts_with(word)
}

/// Whether the header of an entry begins at this index.
fn is_header_at(text: &[u8], at: usize) -> bool
    requires { at < length text.now }
    ensures { result ≡ is_header_at text.now at }
{
    begins_at(b"[[", text, at)
}

/// Whether a line begins at this index with this key.
fn is_key_at(key: &[u8], text: &[u8], at: usize) -> bool
    requires { at < length text.now }
    ensures { result ≡ is_key_at key.now text.now at }
{
    begins_at(key, text, at) && !is_bare_at(text, at + key.len())
}

/// Whether the byte at this index may be in a key.
fn is_bare_at(text: &[u8], at: usize) -> bool
    ensures { result ≡ is_bare (slice_index text.now at) }
{
    at < text.len() && is_bare(text[at])
}

/// The index at which the header of the entry with this number, counted from 0, begins.
pub(crate) fn header_of(text: &[u8], number: usize) -> Option<usize>
    ensures some { IfSome result (IsHeader text.now number) }
    ensures none { result ≡ None → headers_before text.now (length text.now) ≤ number }
{
    let mut left = number;
    for at in 0..text.len() {
        if is_header_at(text, at) {
            if left == 0 {
                return Some(at);
            }
            left -= 1;
        }
    }
    None
}

/// The index of the first line with this key, in the entry whose header begins at `start`.
pub(crate) fn key_in(key: &[u8], text: &[u8], start: usize) -> Option<usize>
    requires { start < length text.now }
    ensures some { IfSome result (IsKeySpot key.now text.now start) }
    ensures none { result ≡ None → HasNoKey key.now text.now start }
{
    for at in start + 1..text.len() {
        if is_header_at(text, at) {
            return None;
        }
        if is_key_at(key, text, at) {
            return Some(at);
        }
    }
    None
}

/// The spot of the first line that begins with this key, alone or in brackets. If no line does, the beginning of the
/// text.
pub(crate) fn name_spot(key: &[u8], text: &[u8]) -> Spot
    ensures { IsNameSpot key.now text.now result }
{
    for at in 0..text.len() {
        if is_name_at(key, text, at) {
            return spot_at(text, at);
        }
    }
    spot_at(text, 0)
}

/// Whether a line begins at this index with this key, alone or in brackets.
fn is_name_at(key: &[u8], text: &[u8], at: usize) -> bool
    requires { at < length text.now }
    ensures { result ≡ is_name_at key.now text.now at }
{
    let start = word_start(text, at);
    begins_at(b"", text, at)
        && text[start..].starts_with(key)
        && !is_bare_at(text, start + key.len())
}

/// The index of the first word of the line that begins at this index: after one or two brackets, if there are any.
fn word_start(text: &[u8], at: usize) -> usize
    requires { at < length text.now }
    ensures is { result ≡ word_start text.now at }
    ensures within { result ≤ length text.now }
{
    if text[at] != b'[' {
        return at;
    }
    if at + 1 < text.len() && text[at + 1] == b'[' {
        return at + 2;
    }
    at + 1
}
