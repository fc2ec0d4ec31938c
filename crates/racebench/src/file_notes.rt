//! Notes on files that the arguments name: why a file was not read, and what a refused file looks like.

use crate::input::is_standard;
use crate::likeness::{Likeness, likeness_of, words_for_script};
use crate::lines::line_of;
use crate::log_notes::{append_head_note, head_fault};
use crate::notes::{
    append_client_note, append_kind, append_named, append_script_notes, unread_words,
};
use crate::quoted::append_quote;
use crate::trace_notes::{
    append_limit_note, append_rule_notes, append_trace_notes, append_window_limit_note,
};
use crate::write_notes::append_standard_note;
use calls::BenchFault;
use client_scripts::{FromRead, ReadCause, ReplayFault, ScriptCause, ScriptRefusal, read_all};
use rapid_text::{OutOfMemory, TextRefusal};
use std::fs::{File, metadata};
use std::io;

/// Whether there is a plain file at this path.
pub(crate) fn is_plain(rt: &HostRuntime, path: &str) -> bool {
    match metadata(rt, path) {
        Ok(found) => found.is_file(),
        Err(_) => false,
    }
}

/// The bytes of a file, which is read again. None if that fails, or if it is no plain file: another kind may block, or
/// give other bytes. None of standard input, also if there is a file of that name.
fn bytes_again(rt: &HostRuntime, path: &str) -> Option<Vec<u8>> {
    if is_standard(path) {
        return None;
    }
    if !is_plain(rt, path) {
        return None;
    }
    match File::open(rt, path) {
        Ok(file) => bytes_of(rt, file),
        Err(_) => None,
    }
}

/// The bytes of an open file, if it can be read whole.
fn bytes_of(rt: &HostRuntime, file: File) -> Option<Vec<u8>> {
    let mut source = FromRead::new(file);
    read_all(rt.alloc(), &mut source).ok()
}

/// Why a file was not found or not opened, in words.
fn unopened_words(error: &io::Error) -> &'static [u8] {
    match error.kind() {
        io::ErrorKind::NotFound => b" does not exist",
        io::ErrorKind::PermissionDenied => b" may not be read: permission denied",
        io::ErrorKind::NotADirectory => {
            b" cannot be opened: a part of its path is a file, not a folder"
        }
        _ => b" cannot be opened",
    }
}

/// Why a plain file was not read, in words.
fn unread_file_words(rt: &HostRuntime, path: &str) -> &'static [u8] {
    match File::open(rt, path) {
        Ok(_) => unread_words(ReadCause::Device),
        Err(error) => unopened_words(&error),
    }
}

/// Why the input at this path was not read, in words. A file that is not plain is not opened again.
fn unread_path_words(rt: &HostRuntime, path: &str) -> &'static [u8] {
    if is_standard(path) {
        return unread_words(ReadCause::Device);
    }
    match metadata(rt, path) {
        Ok(found) if found.is_dir() => b" is a folder, not a file",
        Ok(found) if found.is_file() => unread_file_words(rt, path),
        Ok(_) => unread_words(ReadCause::Device),
        Err(error) => unopened_words(&error),
    }
}

/// Appends the note on the input at this path, which was not read.
fn append_unread_note(
    rt: &HostRuntime,
    out: &mut Vec<u8>,
    path: &str,
    why: ReadCause,
) -> Result<(), OutOfMemory> {
    match why {
        ReadCause::TooLong => append_named(out, path, unread_words(why)),
        ReadCause::Device => append_named(out, path, unread_path_words(rt, path)),
    }
}

/// Appends the notes on a refused line of the trace in a file.
fn append_trace_file_notes(
    rt: &HostRuntime,
    out: &mut Vec<u8>,
    path: &str,
    refusal: &TextRefusal,
) -> Result<(), OutOfMemory> {
    match bytes_again(rt, path) {
        Some(text) => append_trace_notes(out, path, &text, refusal),
        None => Ok(()),
    }
}

/// Appends the notes on an event that breaks a rule, of the trace in a file.
fn append_rule_file_notes(
    rt: &HostRuntime,
    out: &mut Vec<u8>,
    path: &str,
    event: u32,
) -> Result<(), OutOfMemory> {
    match bytes_again(rt, path) {
        Some(text) => append_rule_notes(out, path, &text, true, event),
        None => Ok(()),
    }
}

/// Appends the notes on a refused line of the script in a file. `script` is its number, if there are several.
fn append_script_file_notes(
    rt: &HostRuntime,
    out: &mut Vec<u8>,
    path: &str,
    script: Option<u32>,
    refusal: &ScriptRefusal,
) -> Result<(), OutOfMemory> {
    match bytes_again(rt, path) {
        Some(text) => append_own_script_notes(out, path, &text, script, refusal),
        None => Ok(()),
    }
}

/// Appends the notes on a refused line of this script, which is a whole file.
fn append_own_script_notes(
    out: &mut Vec<u8>,
    path: &str,
    text: &[u8],
    script: Option<u32>,
    refusal: &ScriptRefusal,
) -> Result<(), OutOfMemory> {
    append_script_notes(out, path, text, true, refusal)?;
    let likeness = if refusal.line == 1 {
        likeness_of(text)
    } else {
        Likeness::Other
    };
    match likeness {
        Likeness::Script | Likeness::Other => {
            if refusal.why == ScriptCause::BadClient {
                append_client_note(out, script)?;
            }
            Ok(())
        }
        likeness => append_kind(out, path, likeness, words_for_script(likeness)),
    }
}

/// Appends the notes on a fault of a trace and scripts in files. The first path is that of the trace, input 1; those of
/// the scripts follow.
pub(crate) fn append_file_notes(
    rt: &HostRuntime,
    out: &mut Vec<u8>,
    paths: &[&str],
    fault: &BenchFault,
) -> Result<(), OutOfMemory> {
    match fault {
        BenchFault::Replay(ReplayFault::Text(refusal)) => {
            append_trace_file_notes(rt, out, path_of(paths, 1), refusal)?;
            append_limit_note(out, refusal)
        }
        BenchFault::Replay(ReplayFault::Rule(refusal)) => {
            append_rule_file_notes(rt, out, path_of(paths, 1), refusal.event)
        }
        BenchFault::Replay(ReplayFault::Script(refusal)) => {
            append_script_file_notes(rt, out, path_of(paths, 2), None, refusal)
        }
        BenchFault::Script { place, refusal } => {
            let path = path_of(paths, place.saturating_add(1));
            append_script_file_notes(rt, out, path, Some(*place), refusal)
        }
        BenchFault::Replay(ReplayFault::Read { input, why }) => {
            match paths.get((*input as usize).saturating_sub(1)) {
                Some(path) => append_unread_note(rt, out, path, *why),
                // No argument names the input.
                None => Ok(()),
            }
        }
        BenchFault::Replay(ReplayFault::Write) => append_standard_note(rt, out),
        _ => Ok(()),
    }
}

/// Appends the notes on a fault of the trace at this path, which is read in windows. `held` is the note on too many
/// held locks.
pub(crate) fn append_window_notes(
    rt: &HostRuntime,
    out: &mut Vec<u8>,
    path: &str,
    fault: &BenchFault,
    held: &[u8],
) -> Result<(), OutOfMemory> {
    match fault {
        BenchFault::Replay(ReplayFault::Text(refusal)) => {
            append_trace_file_notes(rt, out, path, refusal)?;
            append_window_limit_note(out, refusal, held)
        }
        fault => append_file_notes(rt, out, &[path], fault),
    }
}

/// What a file should have held, if a line of it is refused.
#[derive(Clone, Copy)]
pub(crate) struct Form {
    own: Likeness,
    /// What a note says of a file of another known kind, after the kind.
    other: &'static [u8],
    /// What a note says of a file of the right kind, or of no known kind.
    wrong: &'static [u8],
}

/// The log of a session.
pub(crate) const LOG: Form = Form {
    own: Likeness::Log,
    other: b", and not what `racebench session` writes",
    wrong: b" is not what `racebench session` writes",
};

/// A file of followed races.
pub(crate) const CONFIRMED: Form = Form {
    own: Likeness::Part,
    other: b", and not what `record/confirm --json` writes",
    wrong: b" is not what `record/confirm --json` writes",
};

/// A part of a report.
pub(crate) const PART: Form = Form {
    own: Likeness::Part,
    other: b", not a part: `racebench triage --json` makes a part of a trace",
    wrong: b" is not whole, or not what `racebench triage --json` writes",
};

/// Appends the notes on a refused line of a file that should have this form.
pub(crate) fn append_form_notes(
    rt: &HostRuntime,
    out: &mut Vec<u8>,
    path: &str,
    number: u64,
    form: Form,
) -> Result<(), OutOfMemory> {
    match bytes_again(rt, path) {
        Some(text) => append_form_notes_of(out, path, &text, number, form),
        None => append_named(out, path, form.wrong),
    }
}

/// Appends the notes on a refused line of this text, which should have this form.
fn append_form_notes_of(
    out: &mut Vec<u8>,
    path: &str,
    text: &[u8],
    number: u64,
    form: Form,
) -> Result<(), OutOfMemory> {
    match line_of(text, true, number) {
        Some(line) if !line.is_empty() => append_quote(out, path, number, line)?,
        _ => {}
    }
    if number == 1 && form.own == Likeness::Log {
        if let Some(fault) = head_fault(text) {
            return append_head_note(out, path, fault, b"");
        }
    }
    let likeness = likeness_of(text);
    if likeness == form.own || likeness == Likeness::Other {
        append_named(out, path, form.wrong)
    } else {
        append_kind(out, path, likeness, form.other)
    }
}

/// Appends the note on a log of another trace, or on a file that is no log.
pub(crate) fn append_other_log_note(
    rt: &HostRuntime,
    out: &mut Vec<u8>,
    path: &str,
) -> Result<(), OutOfMemory> {
    match bytes_again(rt, path) {
        Some(text) => append_other_note_of(out, path, &text),
        None => append_named(out, path, OTHER_TRACE),
    }
}

/// The note on a log that was made with another trace, after the file's name.
const OTHER_TRACE: &[u8] =
    b" was made with another trace: pass that trace, or another name for the log";

/// Appends the note on a file with this text, which is not the log of the trace.
fn append_other_note_of(out: &mut Vec<u8>, path: &str, text: &[u8]) -> Result<(), OutOfMemory> {
    if let Some(fault) = head_fault(text) {
        return append_head_note(out, path, fault, b": pass another name for the log");
    }
    if likeness_of(text) == Likeness::Log {
        return append_named(out, path, OTHER_TRACE);
    }
    append_named(
        out,
        path,
        b" is not the log of a session: pass another name for the log",
    )
}

/// The note on a refused triage file, after the file's name.
const TRIAGED: &[u8] = b" is the triage file; docs/TRIAGE.md has its form";

/// Appends the note on a refused triage file.
pub(crate) fn append_triaged_note(out: &mut Vec<u8>, path: &str) -> Result<(), OutOfMemory> {
    append_named(out, path, TRIAGED)
}

/// The path of the input with this number, counted from 1; empty if there is no such input.
fn path_of<'a>(paths: &[&'a str], input: u32) -> &'a str {
    match paths.get((input as usize).saturating_sub(1)) {
        Some(path) => path,
        None => "",
    }
}
