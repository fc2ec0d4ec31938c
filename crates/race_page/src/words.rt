//! Texts with several lines.

use crate::own::{Part, Tag};
use crate::piece::{Item, Piece};
use memchr::memchr;
use rapid_text::OutOfMemory;

/// Writes the lines of a text, each isolated, in an element that keeps line ends.
pub(crate) fn lines(piece: &mut Piece, text: &[u8]) -> Result<(), OutOfMemory> {
    piece.write(&[Item::Begin(Tag::Lines)])?;
    let mut rest = text;
    for _line in 0..text.len() {
        if rest.is_empty() {
            break;
        }
        let (line, behind) = cut_line(rest);
        rest = behind;
        piece.write(&[
            Item::Element(Tag::Isolated, line),
            Item::Part(Part::LineEnd),
        ])?;
    }
    piece.write(&[Item::End(Tag::Lines)])
}

/// The first line without its end, and what comes after it.
pub(crate) fn cut_line(text: &[u8]) -> (&[u8], &[u8]) {
    match memchr(b'\n', text) {
        Some(end) => (&text[..end], &text[end + 1..]),
        None => (text, &text[text.len()..]),
    }
}
