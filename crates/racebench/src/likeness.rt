//! What kind of file an input looks like, if it is not of the right kind. Its first bytes decide.

use crate::lines::{behind_line, command_of, first_line, first_word};
use crate::notes::usage_of;
use crate::pieces::before;
use memchr::memchr;
use rapid_text::{trim, trim_start};

/// The kinds of files that users pass instead of a trace, a script, a part of a report, or a log.
#[derive(Clone, Copy, PartialEq, Eq)]
pub(crate) enum Likeness {
    /// A file that gzip has packed.
    Gzip,
    /// A file that Zstandard has packed.
    Zstandard,
    /// A file that xz has packed.
    Xz,
    /// A program or a library (ELF).
    Elf,
    /// A text that begins with a UTF-8 byte order mark.
    Mark,
    /// A text that begins with a UTF-16 byte order mark.
    Wide,
    /// A report of ThreadSanitizer.
    Sanitizer,
    /// Races as JSON: a part of a report.
    Part,
    /// Races as text, as a page or as a SARIF log.
    Printed,
    /// The log of a session.
    Log,
    /// A trace.
    Trace,
    /// A script.
    Script,
    /// Another kind.
    Other,
}

/// How many of the first bytes are searched for the head of a report, or for the first line.
const MAX_SEARCHED: usize = 4_096;

/// The bytes at the head of a report of ThreadSanitizer.
const REPORT: &[u8] = b"WARNING: ThreadSanitizer";

/// Whether these bytes begin among the first 4,096 bytes of the text.
fn has_near_start(text: &[u8], bytes: &[u8]) -> bool {
    let searched = text.len().min(MAX_SEARCHED);
    for start in 0..searched {
        if text[start..].starts_with(bytes) {
            return true;
        }
    }
    false
}

/// Whether the line begins like an event: a name, a bar and an operation.
fn is_event(line: &[u8]) -> bool {
    let Some(bar) = memchr(b'|', line) else {
        return false;
    };
    let operation = trim_start(&line[bar + 1..]);
    operation.starts_with(b"r(")
        || operation.starts_with(b"w(")
        || operation.starts_with(b"acq(")
        || operation.starts_with(b"rel(")
        || operation.starts_with(b"fork(")
        || operation.starts_with(b"join(")
        || operation.starts_with(b"begin(")
}

/// The first line that is not empty, without blanks at its ends; empty if the first 4,096 bytes have none.
fn first_full_line(text: &[u8]) -> &[u8] {
    let mut rest = before(text, MAX_SEARCHED);
    'lines: for _ in 0..MAX_SEARCHED {
        let line = trim(first_line(rest, true).unwrap_or(b""));
        if !line.is_empty() {
            return line;
        }
        match behind_line(rest) {
            Some(behind) => rest = behind,
            None => return line,
        }
    }
    rest
}

/// Whether the line begins like one of a script: a number and a command word.
fn is_call(line: &[u8]) -> bool {
    let client = first_word(line);
    let command = command_of(line);
    if client.is_empty() || command.is_empty() {
        return false;
    }
    client.iter().all(|byte| byte.is_ascii_digit()) && usage_of(command).is_some()
}

/// The kind of a text whose first line is that of a trace or a script; else `Other`.
fn likeness_by_line(line: &[u8]) -> Likeness {
    if is_event(line) {
        Likeness::Trace
    } else if is_call(line) {
        Likeness::Script
    } else {
        Likeness::Other
    }
}

/// The kind of a text that begins like a log, a report, a trace or a script; else `Other`.
fn own_likeness(text: &[u8]) -> Likeness {
    if text.starts_with(b"racebench log ") {
        Likeness::Log
    } else if text.starts_with(b"{\"$schema\"") || text.starts_with(b"<!DOCTYPE html") {
        Likeness::Printed
    } else if text.starts_with(b"events ") || text.starts_with(b"parts ") {
        Likeness::Printed
    } else if text.starts_with(b"{\"") {
        Likeness::Part
    } else {
        likeness_by_line(first_full_line(text))
    }
}

/// The kind of file that the text looks like.
pub(crate) fn likeness_of(text: &[u8]) -> Likeness {
    if text.starts_with(b"\x1f\x8b") {
        Likeness::Gzip
    } else if text.starts_with(b"\x28\xb5\x2f\xfd") {
        Likeness::Zstandard
    } else if text.starts_with(b"\xfd7zXZ\x00") {
        Likeness::Xz
    } else if text.starts_with(b"\x7fELF") {
        Likeness::Elf
    } else if text.starts_with(b"\xef\xbb\xbf") {
        Likeness::Mark
    } else if text.starts_with(b"\xff\xfe") || text.starts_with(b"\xfe\xff") {
        Likeness::Wide
    } else if has_near_start(text, REPORT) {
        Likeness::Sanitizer
    } else {
        own_likeness(text)
    }
}

/// The note on a trace that begins with a byte order mark and was read, after the file's name.
pub(crate) const MARKED: &[u8] =
    b" begins with a UTF-8 byte order mark, which is read as part of the first thread's name: remove it";

/// The note on a file of this kind, after the file's name.
pub(crate) fn words_of(likeness: Likeness) -> &'static [u8] {
    match likeness {
        Likeness::Gzip => b" is packed by gzip",
        Likeness::Zstandard => b" is packed by Zstandard",
        Likeness::Xz => b" is packed by xz",
        Likeness::Elf => b" is a program or a library",
        Likeness::Mark => b" begins with a UTF-8 byte order mark",
        Likeness::Wide => b" is a text in UTF-16",
        Likeness::Sanitizer => b" is a report of ThreadSanitizer",
        Likeness::Part | Likeness::Printed => b" is a report of races",
        Likeness::Log => b" is the log of a session",
        Likeness::Trace => b" is a trace",
        Likeness::Script => b" is a script",
        Likeness::Other => b"",
    }
}

/// The rest of the note, if the file should have held a trace.
pub(crate) fn words_for_trace(likeness: Likeness) -> &'static [u8] {
    match likeness {
        Likeness::Gzip => b": unpack it on the way, as in `zcat FILE | racebench triage -`",
        Likeness::Zstandard => b": unpack it on the way, as in `zstdcat FILE | racebench triage -`",
        Likeness::Xz => b": unpack it on the way, as in `xzcat FILE | racebench triage -`",
        Likeness::Elf => b": `record/run` records a trace of a program",
        Likeness::Mark => b", which a trace must not have",
        Likeness::Wide => {
            b": convert it on the way, as in `iconv -f UTF-16 -t UTF-8 FILE | racebench triage -`"
        }
        Likeness::Log => b": `racebench log` prints it",
        Likeness::Script => b": `racebench replay TRACE SCRIPT` runs it on a trace",
        _ => b": triage needs a recorded trace",
    }
}

/// The rest of the note, if the file should have held a script.
pub(crate) fn words_for_script(likeness: Likeness) -> &'static [u8] {
    match likeness {
        Likeness::Mark => b", which a script must not have",
        Likeness::Wide => b", and a script is in UTF-8",
        Likeness::Log => b": `racebench log` prints it as a script",
        _ => b", not a script",
    }
}
