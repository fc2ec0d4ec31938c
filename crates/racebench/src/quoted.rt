//! How notes show bytes from outside: names of inputs, and refused lines.

use rapid_text::{OutOfMemory, trim};
use report::{Piece, append_pieces};

/// The most bytes of a line that a note shows.
const MAX_LINE_SHOWN: usize = 60;

/// Appends the bytes, with a question mark instead of each that is no printable ASCII character.
pub(crate) fn append_shown(out: &mut Vec<u8>, bytes: &[u8]) -> Result<(), OutOfMemory> {
    for byte in bytes {
        out.push(shown(*byte))?;
    }
    Ok(())
}

/// The byte, or a question mark if it is no printable ASCII character.
fn shown(byte: u8) -> u8 {
    let is_printed = byte >= b' ' && byte <= b'~';
    if is_printed { byte } else { b'?' }
}

/// Appends the name of an input, with a question mark instead of each control character. `-` becomes `standard input`.
pub(crate) fn append_name(out: &mut Vec<u8>, name: &str) -> Result<(), OutOfMemory> {
    if name == "-" {
        out.extend_from_slice(b"standard input")?;
        return Ok(());
    }
    for byte in name.as_bytes() {
        let is_control = *byte < b' ' || *byte == 127;
        out.push(if is_control { b'?' } else { *byte })?;
    }
    Ok(())
}

/// Appends the path of a file for a note. An empty path gets a name.
pub(crate) fn append_path(out: &mut Vec<u8>, path: &str) -> Result<(), OutOfMemory> {
    if path.is_empty() {
        return Ok(out.extend_from_slice(b"the empty path")?);
    }
    append_name(out, path)
}

/// Appends the decimal digits of a number.
pub(crate) fn append_number(out: &mut Vec<u8>, number: u64) -> Result<(), OutOfMemory> {
    append_pieces(out, &[Piece::Number(number)])
}

/// Appends the note that quotes a refused line, which has this number in the input.
pub(crate) fn append_quote(
    out: &mut Vec<u8>,
    name: &str,
    number: u64,
    line: &[u8],
) -> Result<(), OutOfMemory> {
    append_quoted(out, b"line ", name, number, line)
}

/// Appends the note that quotes the line of an event, which has this number in the input.
pub(crate) fn append_event(
    out: &mut Vec<u8>,
    name: &str,
    number: u64,
    line: &[u8],
) -> Result<(), OutOfMemory> {
    append_quoted(out, b"event ", name, number, line)
}

/// Appends the note that quotes a line. The word and the number say which line it is.
fn append_quoted(
    out: &mut Vec<u8>,
    word: &[u8],
    name: &str,
    number: u64,
    line: &[u8],
) -> Result<(), OutOfMemory> {
    let line = trim(line);
    let shown = line.len().min(MAX_LINE_SHOWN);
    out.extend_from_slice(b"note: ")?;
    out.extend_from_slice(word)?;
    append_number(out, number)?;
    out.extend_from_slice(b" of ")?;
    append_name(out, name)?;
    if shown < line.len() {
        out.extend_from_slice(b" begins with `")?;
    } else {
        out.extend_from_slice(b" is `")?;
    }
    append_shown(out, &line[..shown])?;
    out.extend_from_slice(b"`\n")?;
    Ok(())
}
