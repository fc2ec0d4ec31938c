//! Finds lines in a text, and words in a line, for notes.
ghost use Rattle.std.specs.Prelude.{◌≤◌, length};

use memchr::memchr;
use rapid_text::trim;

/// Whether the line is `---`, possibly with blanks around it.
pub(crate) fn is_divider(line: &[u8]) -> bool {
    trim(line) == b"---".as_slice()
}

/// What comes after the first line end; None if the text has no line end.
pub(crate) fn behind_line(text: &[u8]) -> Option<&[u8]> {
    let end = memchr(b'\n', text)?;
    Some(&text[end + 1..])
}

/// The first line of a text, without its end. `text` may be only the beginning of it. None if the line may go on after
/// that.
pub(crate) fn first_line(text: &[u8], is_whole: bool) -> Option<&[u8]> {
    match memchr(b'\n', text) {
        Some(end) => Some(&text[..end]),
        None => { if is_whole { Some(text) } else { None } }
    }
}

/// The line with this number, counted from 1, of a text. `text` may be only the beginning of it.
pub(crate) fn line_of(text: &[u8], is_whole: bool, number: u64) -> Option<&[u8]> {
    if number == 0 {
        return None;
    }
    let mut rest = text;
    for _ in 1..number {
        rest = behind_line(rest)?;
    }
    first_line(rest, is_whole)
}

/// What comes after the first line `---`.
pub(crate) fn behind_divider(text: &[u8]) -> Option<&[u8]> {
    let mut rest = text;
    'lines: for _ in 0..text.len() {
        let line = first_line(rest, false)?;
        rest = behind_line(rest)?;
        if is_divider(line) {
            return Some(rest);
        }
    }
    None
}

/// The length of the first word.
pub(crate) fn word_len(text: &[u8]) -> usize
    ensures { result ≤ length text.now }
{
    text.iter()
        .position(|byte| *byte == b' ' || *byte == b'\t' || *byte == b'\r')
        .unwrap_or(text.len())
}

/// The first word of the text, which begins with it.
pub(crate) fn first_word(text: &[u8]) -> &[u8] {
    &text[..word_len(text)]
}

/// The second word of a line of a script: the command word; empty if the line has no second word.
pub(crate) fn command_of(line: &[u8]) -> &[u8] {
    let line = trim(line);
    first_word(trim(&line[word_len(line)..]))
}

/// What comes before the first two blanks next to each other.
pub(crate) fn before_gap(text: &[u8]) -> &[u8] {
    for end in 1..text.len() {
        if text[end - 1] == b' ' && text[end] == b' ' {
            return &text[..end - 1];
        }
    }
    text
}
