//! What the program does at `cut`: it prints a window of a trace, or writes all windows as files.
ghost use Rattle.std.specs.Prelude.{◌<◌};

use crate::doing::finish;
use crate::folders::{Folder, folder_at};
use crate::kept::Kept;
use crate::notes::{append_named, are_wanted};
use crate::pieces::{Pieces, pieces_at};
use crate::quoted::append_number;
use crate::telling::{say, tell_past_end, tell_replay, tell_windows};
use crate::telling_paths::{tell_full, tell_unlisted, tell_unwritten};
use crate::trace_notes::{LATE, held_note};
use crate::windows::Windows;
use crate::write_notes::cause_of;
use calls::triage::{Wholeness, append_begin, append_end};
use calls::{BenchFault, cut_window};
use client_scripts::{FromRead, FromWrite, ReplayFault, write_all};
use program_words::CutTask;
use rapid_text::{MAX_EVENTS, OutOfMemory, TextCause};
use std::alloc::Global;
use std::fs::File;
use std::io::Write;
use std::process::ExitCode;
use std::{fs, io};
use window::Window;

/// How many digits a window's number has at least in file names and names of parts. So the names sort by number.
const DIGITS: usize = 9;

/// Prints the requested window, or writes all windows. Reports any fault.
pub(crate) fn cut_of_file(rt: &HostRuntime, task: &CutTask<'_>) -> ExitCode
    requires { 0 < task.now.most }
{
    match cut_by(rt, task) {
        Ok(status) => status,
        Err(fault) => tell_windows(rt, fault, task.trace, held_note_of(task)),
    }
}

/// The note on too many held locks.
fn held_note_of(task: &CutTask<'_>) -> &'static [u8] {
    match task.into {
        Some(_) => held_note(task.most),
        None => LATE,
    }
}

/// Prints the requested window, or writes all windows. Returns faults of the trace.
fn cut_by(rt: &HostRuntime, task: &CutTask<'_>) -> Result<ExitCode, BenchFault>
    requires { 0 < task.now.most }
{
    match task.into {
        Some(folder) => write_windows(rt, pieces_at(rt, task.trace), task.most, folder),
        None => print_window(rt, pieces_at(rt, task.trace), task),
    }
}

/// Prints a window. If the trace has not too many events or threads, it is read whole. Else only the part up to the
/// window is read.
fn print_window(
    rt: &HostRuntime,
    mut pieces: Pieces,
    task: &CutTask<'_>,
) -> Result<ExitCode, BenchFault>
    requires { 0 < task.now.most }
{
    match events_if_whole(&mut pieces) {
        Ok(Some(events)) => {
            let printed = print_whole(rt, &pieces, events, task);
            if is_too_wide(&printed) {
                return print_long(rt, pieces, task);
            }
            printed
        }
        Ok(None) => print_long(rt, pieces, task),
        Err(fault) => Err(BenchFault::from(fault)),
    }
}

/// Whether nothing was printed because the trace has too many threads.
fn is_too_wide(printed: &Result<ExitCode, BenchFault>) -> bool {
    let Err(BenchFault::Replay(ReplayFault::Text(refusal))) = printed else {
        return false;
    };
    refusal.why == TextCause::TooManyNames
}

/// How many events the trace has, if it can be read whole: it has not more events than a trace may have, nor more bytes
/// than can be kept.
fn events_if_whole(pieces: &mut Pieces) -> Result<Option<u64>, ReplayFault> {
    let whole = pieces.span_kept(0, MAX_EVENTS)?;
    let is_whole = pieces.is_end(whole.end)?;
    Ok(is_whole.then_some(whole.events as u64))
}

/// Prints a window of a trace that was read whole, and has this many events.
fn print_whole(
    rt: &HostRuntime,
    pieces: &Pieces,
    events: u64,
    task: &CutTask<'_>,
) -> Result<ExitCode, BenchFault>
    requires { 0 < task.now.most }
{
    let mut writer = Kept::new(rt.alloc());
    let mut reader = FromRead::new(pieces.bytes());
    match cut_window(rt.alloc(), &mut reader, task.from, task.most, &mut writer) {
        Ok(()) => {
            pieces.tell_mark(rt, task.trace);
            tell_whole(rt, events, task);
            let text = with_marks(rt.alloc(), &pieces.wholeness(rt.alloc())?, writer.bytes)?;
            Ok(print_text(rt, text.as_slice()))
        }
        Err(BenchFault::NoSuchEvent) => Ok(tell_past_end(rt, task.from, events)),
        // The writer keeps its bytes in memory, so a failed write means that memory ran out.
        Err(BenchFault::Replay(ReplayFault::Write)) => {
            Err(BenchFault::Replay(ReplayFault::OutOfMemory))
        }
        Err(fault) => Err(fault),
    }
}

/// How many events a window has if no size is given.
const USUAL: u32 = 1_000_000;

/// The note if no size of windows is given, and the one window has all events of the trace.
const WHOLE: &[u8] = b" fits in one window: with `--windows N` a window has at most N events";

/// Writes that note, if notes are wanted.
fn tell_whole(rt: &HostRuntime, events: u64, task: &CutTask<'_>) {
    let is_whole = task.from == 0 && events <= u64::from(task.most);
    if !is_whole || task.most != USUAL || !are_wanted(rt) {
        return;
    }
    let mut line = Vec::new(rt.alloc());
    if append_named(&mut line, task.trace, WHOLE).is_ok() {
        say(rt, &line);
    }
}

/// A window of a recording, with the marks of the recording.
fn with_marks(
    alloc: Global,
    wholeness: &Wholeness,
    window: Vec<u8>,
) -> Result<Vec<u8>, OutOfMemory> {
    if !wholeness.is_marked() {
        return Ok(window);
    }
    let mut text = Vec::new(alloc);
    append_begin(&mut text, wholeness)?;
    text.extend_from_slice(window.as_slice())?;
    append_end(&mut text, wholeness)?;
    Ok(text)
}

/// Prints a window of a longer trace.
fn print_long(
    rt: &HostRuntime,
    pieces: Pieces,
    task: &CutTask<'_>,
) -> Result<ExitCode, BenchFault> {
    let mut windows = Windows::new(rt.alloc(), pieces, task.most);
    print_at(rt, &mut windows, task)
}

/// Prints the window that begins at the requested event.
fn print_at(
    rt: &HostRuntime,
    windows: &mut Windows,
    task: &CutTask<'_>,
) -> Result<ExitCode, BenchFault> {
    match windows.at(rt.alloc(), u64::from(task.from)) {
        Ok(Some(window)) => {
            windows.tell_mark(rt, task.trace);
            let wholeness = windows.whole_wholeness(rt.alloc())?;
            let text = with_marks(rt.alloc(), &wholeness, window.text)?;
            Ok(print_text(rt, text.as_slice()))
        }
        Ok(None) => Ok(tell_past_end(rt, task.from, windows.events())),
        Err(fault) => Err(fault),
    }
}

/// Prints a text on standard output.
pub(crate) fn print_text(rt: &HostRuntime, text: &[u8]) -> ExitCode {
    let mut writer = FromWrite::new(io::writer(rt));
    match write_all(&mut writer, text) {
        Ok(()) => finish(rt, &mut writer),
        Err(_) => tell_replay(rt, ReplayFault::Write),
    }
}

/// Writes all windows as files into a folder, if it is empty. Else reports why not.
fn write_windows(
    rt: &HostRuntime,
    pieces: Pieces,
    most: u32,
    folder: &str,
) -> Result<ExitCode, BenchFault> {
    match folder_at(rt, folder) {
        Folder::Empty => write_all_windows(rt, pieces, most, folder),
        Folder::Full => Ok(tell_full(rt, folder)),
        Folder::Unmade(cause) => Ok(tell_unwritten(rt, folder, cause)),
        Folder::Unread => Ok(tell_unlisted(rt, folder)),
        Folder::NoMemory => Err(BenchFault::Replay(ReplayFault::OutOfMemory)),
    }
}

/// Writes all windows as files into this folder, which is empty.
fn write_all_windows(
    rt: &HostRuntime,
    pieces: Pieces,
    most: u32,
    folder: &str,
) -> Result<ExitCode, BenchFault> {
    let mut windows = Windows::new(rt.alloc(), pieces, most);
    write_each(rt, &mut windows, folder)
}

/// How writing the next window went.
#[derive(Clone, Copy)]
enum Written {
    /// It was written.
    Window,
    /// There are no more windows.
    Nothing,
    /// It was not written. The fault was reported, and this is the status.
    Failed(ExitCode),
}

/// Writes each of the windows as a file into this folder, and prints the counts. If the recording has marks, each file
/// gets the first mark at once, and the last one when the end of the recording was read. So none is called whole before.
fn write_each(
    rt: &HostRuntime,
    windows: &mut Windows,
    folder: &str,
) -> Result<ExitCode, BenchFault> {
    let mut starts = Vec::new(rt.alloc());
    for _ in 0..u64::MAX {
        match write_next(rt, windows, folder, &mut starts)? {
            Written::Window => {}
            Written::Nothing => return end_each(rt, windows, folder, starts.as_slice()),
            Written::Failed(status) => return Ok(status),
        }
    }
    end_each(rt, windows, folder, starts.as_slice())
}

/// Writes the next window as a file into this folder. Adds the number of its first event to `starts`.
fn write_next(
    rt: &HostRuntime,
    windows: &mut Windows,
    folder: &str,
    starts: &mut Vec<u64>,
) -> Result<Written, BenchFault> {
    match windows.next(rt.alloc())? {
        Some(window) => {
            starts.push(window.from)?;
            let mut text = Vec::new(rt.alloc());
            append_begin(&mut text, &windows.wholeness(rt.alloc())?)?;
            text.extend_from_slice(window.text.as_slice())?;
            Ok(write_window(rt, window.from, text.as_slice(), folder)?)
        }
        None => Ok(Written::Nothing),
    }
}

/// Writes this window as a file into this folder; `number` is that of its first event.
fn write_window(
    rt: &HostRuntime,
    number: u64,
    text: &[u8],
    folder: &str,
) -> Result<Written, OutOfMemory> {
    match path_of(rt.alloc(), folder, number) {
        Ok(path) => Ok(write_at(rt, path.as_str(), text)),
        Err(refused) => Err(refused),
    }
}

/// Appends the last line of the recording to the file of each window, if it has one, and prints the counts.
fn end_each(
    rt: &HostRuntime,
    windows: &Windows,
    folder: &str,
    starts: &[u64],
) -> Result<ExitCode, BenchFault> {
    let mut line = Vec::new(rt.alloc());
    append_end(&mut line, &windows.wholeness(rt.alloc())?)?;
    for start in starts {
        let path = path_of(rt.alloc(), folder, *start)?;
        if let Err(error) = append_to(rt, path.as_str(), line.as_slice()) {
            return Ok(tell_unwritten(rt, path.as_str(), cause_of(&error)));
        }
    }
    Ok(print_counts(rt, windows, starts.len() as u64))
}

/// Appends this text to the file at this path.
fn append_to(rt: &HostRuntime, path: &str, text: &[u8]) -> io::Result<()> {
    if text.is_empty() {
        return Ok(());
    }
    match File::options().append(true).open(rt, path) {
        Ok(mut file) => file.write_all(text),
        Err(error) => Err(error),
    }
}

/// Writes this text as a file at this path. Reports a failure.
fn write_at(rt: &HostRuntime, path: &str, text: &[u8]) -> Written {
    match write_file(rt, path, text) {
        Ok(()) => Written::Window,
        Err(error) => Written::Failed(tell_unwritten(rt, path, cause_of(&error))),
    }
}

/// The path of a window's file; `number` is that of the window's first event.
fn path_of(alloc: Global, folder: &str, number: u64) -> Result<String, OutOfMemory> {
    let mut path = Vec::new(alloc);
    path.extend_from_slice(folder.as_bytes())?;
    path.extend_from_slice(b"/window-")?;
    append_padded(&mut path, number)?;
    path.extend_from_slice(b".std")?;
    Ok(String::from_utf8_lossy(alloc, &path)?)
}

/// Appends a number with zeros before it, nine digits at least.
pub(crate) fn append_padded(out: &mut Vec<u8>, number: u64) -> Result<(), OutOfMemory> {
    let mut digits = Vec::new(*out.allocator());
    append_number(&mut digits, number)?;
    for _ in digits.len()..DIGITS {
        out.push(b'0')?;
    }
    out.extend_from_slice(&digits)?;
    Ok(())
}

/// Writes a new file. If that fails, no part of it is left.
fn write_file(rt: &HostRuntime, path: &str, text: &[u8]) -> io::Result<()> {
    match File::create_new(rt, path) {
        Ok(file) => fill_file(rt, file, path, text),
        Err(error) => Err(error),
    }
}

/// Writes the text into this file, which is new. If that fails, removes the file.
fn fill_file(rt: &HostRuntime, mut file: File, path: &str, text: &[u8]) -> io::Result<()> {
    match file.write_all(text) {
        Ok(()) => Ok(()),
        Err(error) => {
            let _ = fs::remove_file(rt, path);
            Err(error)
        }
    }
}

/// Prints the counts of the windows: see `counts_of`.
fn print_counts(rt: &HostRuntime, windows: &Windows, count: u64) -> ExitCode {
    match counts_of(rt.alloc(), windows, count) {
        Ok(text) => print_text(rt, text.as_slice()),
        Err(_) => tell_replay(rt, ReplayFault::OutOfMemory),
    }
}

/// Four lines: how many windows there are, how many windows are shorter, and how many events and threads.
pub(crate) fn counts_of(
    alloc: Global,
    windows: &Windows,
    count: u64,
) -> Result<Vec<u8>, OutOfMemory> {
    let mut text = Vec::new(alloc);
    append_counts(&mut text, windows, count, windows.threads(alloc)?)?;
    Ok(text)
}

/// Appends these lines.
fn append_counts(
    out: &mut Vec<u8>,
    windows: &Windows,
    count: u64,
    threads: u64,
) -> Result<(), OutOfMemory> {
    append_count(out, b"windows ", count)?;
    append_count(out, b"shorter ", windows.short())?;
    append_count(out, b"events ", windows.events())?;
    append_count(out, b"threads ", threads)
}

/// Appends the line of a count.
fn append_count(out: &mut Vec<u8>, word: &[u8], count: u64) -> Result<(), OutOfMemory> {
    out.extend_from_slice(word)?;
    append_number(out, count)?;
    out.push(b'\n')?;
    Ok(())
}
