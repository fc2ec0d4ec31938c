//! Words and numbers of a line, and the end of a line that is too long.
ghost use Rattle.std.specs.Prelude.{◌≡◌, ◌≤◌, ◌<◌, length, take, decimal};
ghost use Rattle.explain_report.specs.picture.Boxes.{IsCut};
ghost use Rattle.explain_report.specs.picture.Pieces.{piece_text, pieces_text};
ghost use Rattle.rapid_text.specs.Appended.{Appended, AppendedOne};

use itoa::Buffer;
use rapid_text::OutOfMemory;

/// The most bytes of a line of text. With 10 pixels a line and 6 a character, it fits into a box.
const MOST_BYTES: usize = 46;

/// The number of bytes that are kept of a longer line, before the ellipsis.
const KEPT_BYTES: usize = 45;

/// The least number of bytes that are kept. A character of UTF-8 has at most four bytes.
const LEAST_BYTES: usize = 42;

/// A piece of a text.
#[derive(Clone, Copy)]
pub(crate) enum Piece<'a> {
    /// These words.
    Words(&'a [u8]),
    /// A number, in decimal digits.
    Number(u64),
}

/// Appends the pieces, one after the other.
pub(crate) fn append_pieces(out: &mut Vec<u8>, pieces: &[Piece<'_>]) -> Result<(), OutOfMemory>
    ensures { Appended result out.old out.new (pieces_text pieces.now) }
{
    for piece in pieces {
        append_piece(out, *piece)?;
    }
    Ok(())
}

fn append_piece(out: &mut Vec<u8>, piece: Piece<'_>) -> Result<(), OutOfMemory>
    ensures { Appended result out.old out.new (piece_text piece.entry) }
{
    match piece {
        Piece::Words(words) => append_words(out, words),
        Piece::Number(number) => append_number(out, number),
    }
}

/// Appends `words`.
pub(crate) fn append_words(out: &mut Vec<u8>, words: &[u8]) -> Result<(), OutOfMemory>
    ensures { Appended result out.old out.new words.now }
{
    out.extend_from_slice(words)?;
    Ok(())
}

/// Appends the number in decimal digits.
fn append_number(out: &mut Vec<u8>, number: u64) -> Result<(), OutOfMemory>
    ensures { Appended result out.old out.new (decimal number) }
{
    let mut digits = Buffer::new();
    out.extend_from_slice(digits.format(number).as_bytes())?;
    Ok(())
}

/// Appends a text. If it is longer than a line, it is cut and ends with an ellipsis.
pub(crate) fn append_cut(out: &mut Vec<u8>, text: &[u8]) -> Result<(), OutOfMemory>
    ensures { AppendedOne result out.old out.new (IsCut text.now) }
{
    let count = text.len();
    if count <= MOST_BYTES {
        append_words(out, text)?;
    } else {
        append_begun(out, text)?;
    }
    Ok(())
}

/// Appends the beginning of a long text, and an ellipsis.
fn append_begun(out: &mut Vec<u8>, text: &[u8]) -> Result<(), OutOfMemory>
    requires { 46 < length text.now }
    ensures { AppendedOne result out.old out.new (IsCut text.now) }
{
    let count = cut_at(text);
    append_words(out, begin_of(text, count))?;
    append_words(out, b"\xE2\x80\xA6")?;
    Ok(())
}

/// The first `count` bytes.
fn begin_of(text: &[u8], count: usize) -> &[u8]
    requires { count ≤ length text.now }
    ensures { result.now ≡ take count text.now }
{
    &text[..count]
}

/// The index at which a long text is cut: not within a character, if the text is UTF-8.
fn cut_at(text: &[u8]) -> usize
    requires { 46 < length text.now }
    ensures least { 42 ≤ result }
    ensures most { result ≤ 45 }
{
    let mut at = KEPT_BYTES;
    for _step in 0..3 {
        if at <= LEAST_BYTES || !is_within_character(text, at) {
            break;
        }
        at -= 1;
    }
    at
}

/// Whether the byte at this index continues a character.
fn is_within_character(text: &[u8], at: usize) -> bool {
    match text.get(at) {
        Some(byte) => *byte & 0xC0 == 0x80,
        None => false,
    }
}
