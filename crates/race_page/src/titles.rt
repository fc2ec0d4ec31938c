//! The title of a row: the variable, and for each access what it does, in which function, and where.
use crate::own::Tag;
use crate::piece::{Item, Piece};
use event_index::Indexed;
use memchr::{memmem, memrchr};
use race_triage::Verdict;
use rapid_text::{Op, OutOfMemory, RawTrace};

/// Writes the title for the verdict's two accesses.
pub(crate) fn write_title(
    piece: &mut Piece,
    indexed: &Indexed,
    verdict: Verdict,
) -> Result<(), OutOfMemory> {
    write_variable(piece, indexed, verdict.first)?;
    if verdict.variables > 1 {
        piece.write(&[
            Item::Text(b" and "),
            Item::Count(u64::from(verdict.variables - 1), b"more variable"),
        ])?;
    }
    piece.write(&[Item::Text(b": ")])?;
    write_access(piece, indexed, verdict.first)?;
    piece.write(&[Item::Text(b", ")])?;
    write_access(piece, indexed, verdict.second)
}

/// Writes the name of the variable that the event accesses. Writes nothing if the trace has no such access.
fn write_variable(piece: &mut Piece, indexed: &Indexed, event: u32) -> Result<(), OutOfMemory> {
    if event >= indexed.len() {
        return Ok(());
    }
    let raw = indexed.trace().raw();
    match raw.event(event).op {
        Op::Read(variable) | Op::Write(variable) => write_name(piece, raw, variable),
        _ => Ok(()),
    }
}

/// Writes the name of the variable, if the trace has it.
fn write_name(piece: &mut Piece, raw: &RawTrace, variable: u32) -> Result<(), OutOfMemory> {
    if variable >= raw.variables() {
        return Ok(());
    }
    piece.write(&[Item::Element(Tag::Isolated, raw.variable_name(variable))])
}

/// Writes what the access does, in which function, and where. A location is a place; after ` < ` comes the function, or
/// the place of a call.
fn write_access(piece: &mut Piece, indexed: &Indexed, event: u32) -> Result<(), OutOfMemory> {
    if event >= indexed.len() {
        return Ok(());
    }
    let raw = indexed.trace().raw();
    let (place, callers) = cut_frame(raw.location(event));
    let (caller, _) = cut_frame(callers);
    piece.write(&[Item::Text(access_word(raw.event(event).op, caller))])?;
    if is_place(caller) {
        write_where(piece, b" at ", place)?;
        write_where(piece, b" from ", caller)
    } else {
        write_where(piece, b" in ", function_of(caller))?;
        write_where(piece, b" at ", place)
    }
}

/// Writes these words and the name, if the name is not empty.
fn write_where<'a>(piece: &mut Piece, words: &'a [u8], name: &'a [u8]) -> Result<(), OutOfMemory> {
    if name.is_empty() {
        return Ok(());
    }
    piece.write(&[Item::Text(words), Item::Element(Tag::Isolated, name)])
}

/// The verb for an access: `read`, `write`, or `freed` for a write whose caller begins with `free in `.
fn access_word(op: Op, caller: &[u8]) -> &'static [u8] {
    match op {
        Op::Read(_) => b"read",
        Op::Write(_) => if caller.starts_with(FREE) {
            b"freed"
        } else {
            b"write"
        },
        _ => b"",
    }
}

/// How the caller begins if the access frees a block of memory.
const FREE: &[u8] = b"free in ";

/// The name of the function, without `free in `.
fn function_of(caller: &[u8]) -> &[u8] {
    match caller.strip_prefix(FREE) {
        Some(function) => function,
        None => caller,
    }
}

/// The first part of a location, up to ` < `, and what comes after it.
fn cut_frame(text: &[u8]) -> (&[u8], &[u8]) {
    match memmem::find(text, b" < ") {
        Some(end) => (&text[..end], &text[end + 3..]),
        None => (text, &text[text.len()..]),
    }
}

/// Whether a part of a location is a place: after its last colon come only digits, or one question mark.
fn is_place(part: &[u8]) -> bool {
    match memrchr(b':', part) {
        Some(colon) => is_line_number(&part[colon + 1..]),
        None => false,
    }
}

/// Whether the text is the number of a line, or a question mark.
fn is_line_number(text: &[u8]) -> bool {
    text == b"?".as_slice() || !text.is_empty() && text.iter().all(|byte| byte.is_ascii_digit())
}
