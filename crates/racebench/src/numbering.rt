//! Gives the events of a window the numbers that they have in the whole trace.

use crate::pieces::{before, from};
use crate::quoted::append_number;
use memchr::memchr;
use rapid_text::OutOfMemory;
use std::alloc::Global;
use window::Window;

/// The number that the digits at the front make, and what comes after them.
pub(crate) fn number_at(bytes: &[u8]) -> (u64, &[u8]) {
    let end = bytes
        .iter()
        .position(|byte| *byte < b'0' || *byte > b'9')
        .unwrap_or(bytes.len());
    let mut number = 0u64;
    for byte in before(bytes, end) {
        number = number
            .saturating_mul(10)
            .saturating_add(u64::from(byte.saturating_sub(b'0')));
    }
    (number, from(bytes, end))
}

/// What comes before the number of an event. Quotes within texts of JSON have a backslash before them, so no text has
/// these bytes.
const EVENT: &[u8] = b"{\"event\":";

/// The beginning of the line of counts, before the number of pairs of locations that are apart.
const APART: &[u8] = b"{\"apart\":";

/// The first line, with its end, and what comes after it.
fn cut_line(text: &[u8]) -> (&[u8], &[u8]) {
    let end = memchr(b'\n', text).unwrap_or(text.len()).saturating_add(1);
    (before(text, end), from(text, end))
}

/// Whether the line is about a pair of events of the prologue, which the trace does not have.
fn is_of_prologue(line: &[u8], window: &Window) -> bool {
    let mut rest = line;
    for _ in 0..line.len() {
        let Some(at) = memchr(b'{', rest) else {
            return false;
        };
        let object = from(rest, at);
        if object.starts_with(EVENT) {
            let (event, _) = number_at(from(object, EVENT.len()));
            return window.number_of(event).is_none();
        }
        rest = from(object, 1);
    }
    false
}

/// How many lines are about pairs of events of the prologue.
fn count_of_prologue(part: &[u8], window: &Window) -> u64 {
    let mut count = 0u64;
    let mut rest = part;
    for _ in 0..part.len() {
        if rest.is_empty() {
            return count;
        }
        let (line, behind) = cut_line(rest);
        if is_of_prologue(line, window) {
            count = count.saturating_add(1);
        }
        rest = behind;
    }
    count
}

/// What `triage --json` printed of a window, with the numbers that the events have in the trace. Pairs of events of the
/// prologue, which are all apart, are left out.
pub(crate) fn moved(alloc: Global, part: &[u8], window: &Window) -> Result<Vec<u8>, OutOfMemory> {
    let gone = count_of_prologue(part, window);
    let mut out = Vec::new(alloc);
    let mut rest = part;
    for _ in 0..part.len() {
        let (line, behind) = cut_line(rest);
        if line.starts_with(APART) {
            append_counts(&mut out, line, gone)?;
        } else if !is_of_prologue(line, window) {
            window.append_moved(&mut out, line)?;
        }
        rest = behind;
    }
    Ok(out)
}

/// Appends the line of counts, with `gone` fewer pairs of locations that are apart.
fn append_counts(out: &mut Vec<u8>, line: &[u8], gone: u64) -> Result<(), OutOfMemory> {
    let (apart, behind) = number_at(from(line, APART.len()));
    out.extend_from_slice(APART)?;
    append_number(out, apart.saturating_sub(gone))?;
    Ok(out.extend_from_slice(behind)?)
}
