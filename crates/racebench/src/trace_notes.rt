//! Notes on a trace that is refused or breaks a rule: its line, and what to do.

use crate::likeness::{Likeness, likeness_of, words_for_trace};
use crate::lines::{first_line, is_divider, line_of};
use crate::notes::append_kind;
use crate::pieces::{from, start_of_event};
use crate::quoted::{append_event, append_quote};
use rapid_text::{MAX_EVENTS, OutOfMemory, TextCause, TextRefusal};

/// Appends the note on what kind of file a refused trace looks like.
fn append_likeness(out: &mut Vec<u8>, name: &str, text: &[u8]) -> Result<(), OutOfMemory> {
    match likeness_of(text) {
        Likeness::Trace | Likeness::Other => Ok(()),
        likeness => append_kind(out, name, likeness, words_for_trace(likeness)),
    }
}

/// The note on a trace that is too long.
const LONG: &[u8] =
    b"note: `racebench triage --windows` reads a trace of any length, and `racebench cut` prints a part of it\n";

/// The note on a trace that has too many threads.
const WIDE: &[u8] =
    b"note: a trace has at most 256 threads; `triage --windows` reads more, in windows of at most 256\n";

/// Appends the note on a trace that is too long or has too many threads, if that is the refusal.
pub(crate) fn append_limit_note(
    out: &mut Vec<u8>,
    refusal: &TextRefusal,
) -> Result<(), OutOfMemory> {
    append_limit(out, refusal, LONG, WIDE)
}

/// Appends one of the two notes: `long` if there are too many events, `wide` if there are too many threads.
fn append_limit(
    out: &mut Vec<u8>,
    refusal: &TextRefusal,
    long: &[u8],
    wide: &[u8],
) -> Result<(), OutOfMemory> {
    match refusal.why {
        TextCause::TooManyEvents => Ok(out.extend_from_slice(long)?),
        TextCause::TooManyNames => Ok(out.extend_from_slice(wide)?),
        _ => Ok(()),
    }
}

/// The note on held locks, if all windows are made: the windows are too small for the number of held locks.
const HELD: &[u8] =
    b"note: more locks are held than a window of so few events may begin with: pass a larger number to `--windows`\n";

/// The note on held locks, if one window is printed that begins after them.
pub(crate) const LATE: &[u8] =
    b"note: more locks are held there than a later window may begin with: pass an earlier event to `--window`\n";

/// The note on an event that alone needs more threads than a window may have.
const CROWDED: &[u8] =
    b"note: a window has at most 256 threads, and those that hold a lock where it begins count\n";

/// The note on held locks, if all windows are made and have at most `most` events. Empty if no larger number can be
/// passed.
pub(crate) fn held_note(most: u32) -> &'static [u8] {
    if most as usize >= MAX_EVENTS {
        return b"";
    }
    HELD
}

/// Appends the note on the limit of windows that a refused line passes. `held` is the note on held locks.
pub(crate) fn append_window_limit_note(
    out: &mut Vec<u8>,
    refusal: &TextRefusal,
    held: &[u8],
) -> Result<(), OutOfMemory> {
    append_limit(out, refusal, held, CROWDED)
}

/// The note on a text that does not begin like a trace, nor like another known kind of file.
const FORM: &[u8] =
    b"note: a line of a trace is `THREAD|OPERATION(NAME)|LOCATION`, as in `T1|w(x)|7`: docs/FORMATS.md\n";

/// Appends the notes on a refused line of a trace: the line, and what kind of file the text looks like. If it is the
/// first line, and no kind is known, the last note says what a line of a trace is.
pub(crate) fn append_text_notes(
    out: &mut Vec<u8>,
    name: &str,
    text: &[u8],
    is_whole: bool,
    refusal: &TextRefusal,
) -> Result<(), OutOfMemory> {
    if let Some(line) = line_of(text, is_whole, refusal.line) {
        append_quote(out, name, refusal.line, line)?;
    }
    if refusal.line == 1 && likeness_of(text) == Likeness::Other {
        out.extend_from_slice(FORM)?;
        return Ok(());
    }
    append_likeness(out, name, text)
}

/// Appends the notes on an event that breaks a rule: its line, and what kind of file the text looks like.
pub(crate) fn append_rule_notes(
    out: &mut Vec<u8>,
    name: &str,
    text: &[u8],
    is_whole: bool,
    event: u32,
) -> Result<(), OutOfMemory> {
    let number = u64::from(event);
    if let Some(line) = first_line(from(text, start_of_event(text, number)), is_whole) {
        append_event(out, name, number, line)?;
    }
    append_likeness(out, name, text)
}

/// Appends the notes on a refused line of a trace in a separate file. `text` is the whole file.
pub(crate) fn append_trace_notes(
    out: &mut Vec<u8>,
    path: &str,
    text: &[u8],
    refusal: &TextRefusal,
) -> Result<(), OutOfMemory> {
    append_text_notes(out, path, text, true, refusal)?;
    let at_divider = match line_of(text, true, refusal.line) {
        Some(line) => is_divider(line),
        None => false,
    };
    if at_divider {
        out.extend_from_slice(
            b"note: `---` begins the script of a joint text; here the trace stands alone\n",
        )?;
    }
    Ok(())
}
