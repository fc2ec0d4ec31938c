//! What the program does at `session` and `log`: opens the inputs and the file of the log. If the log is missing,
//! `session` makes it.
ghost use Rattle.std.specs.Prelude.{◌≡◌, true, false};

use crate::doing::finish;
use crate::file_notes::is_plain;
use crate::input::input_at;
use crate::line_notes::{Heard, LineNotes};
use crate::marked::tell_mark;
use crate::output::Output;
use crate::telling_sessions::{tell_log, tell_session};
use client_scripts::{FromRead, FromWrite, ReadCause, ReplayFault, Sink, read_trace};
use event_index::Indexed;
use kept_host::Host;
use kept_log::Device;
use kept_session::{Session, SessionFault, head_of, make_log, print_log, run_session};
use std::fs::File;
use std::path::Path;
use std::process::ExitCode;
use std::{fs, io};

/// How many names are tried for the file that becomes the log.
const MAX_NAMES: u32 = 1_000;

/// 94: the log's file was not read.
fn unread() -> SessionFault {
    SessionFault::Replay(ReplayFault::Read {
        input: 2,
        why: ReadCause::Device,
    })
}

/// 95: the log's file was not written.
fn unwritten() -> SessionFault {
    SessionFault::Replay(ReplayFault::Write)
}

/// Syncs the folder of a path to the disk, with the names in it.
fn sync_folder(rt: &HostRuntime, path: &str) -> Result<(), SessionFault> {
    let folder = match Path::new(path).parent() {
        Some(folder) if !folder.as_str().is_empty() => folder.as_str(),
        _ => ".",
    };
    match File::open(rt, folder) {
        Ok(file) => file.sync_all().map_err(|_| unwritten()),
        Err(_) => Err(unwritten()),
    }
}

/// Gives the file of a new log its name. If a file with that name is there by now, that file is the log.
fn put_in_place(rt: &HostRuntime, made: &str, path: &str) -> Result<(), SessionFault> {
    let is_linked = match fs::hard_link(rt, made, path) {
        Ok(()) => true,
        Err(error) => error.kind() == io::ErrorKind::AlreadyExists,
    };
    if fs::remove_file(rt, made).is_err() || !is_linked {
        return Err(unwritten());
    }
    Ok(())
}

/// Fills the file of a new log, which has the name `made`, and then gives it the name `path`.
fn fill_file(
    rt: &HostRuntime,
    file: File,
    made: &str,
    path: &str,
    head: &[u8],
) -> Result<(), SessionFault> {
    let mut host = Host::new(file);
    match make_log(rt.alloc(), &mut host, head) {
        Ok(()) => put_in_place(rt, made, path),
        Err(fault) => {
            let _ = fs::remove_file(rt, made);
            Err(fault)
        }
    }
}

/// Makes the file of a log under the name `made`, and then gives it the name `path`. Returns false if a file named
/// `made` is there already.
fn make_file_by(
    rt: &HostRuntime,
    made: &str,
    path: &str,
    head: &[u8],
) -> Result<bool, SessionFault> {
    let opened = File::options()
        .read(true)
        .write(true)
        .create_new(true)
        .open(rt, made);
    match opened {
        Ok(file) => match fill_file(rt, file, made, path, head) {
            Ok(()) => Ok(true),
            Err(fault) => Err(fault),
        },
        Err(error) => {
            if error.kind() == io::ErrorKind::AlreadyExists {
                Ok(false)
            } else {
                Err(unwritten())
            }
        }
    }
}

/// Makes the file of a log by way of a name with this number. Returns false if that name is taken.
fn make_file_numbered(
    rt: &HostRuntime,
    number: u32,
    path: &str,
    head: &[u8],
) -> Result<bool, SessionFault> {
    match format!(in rt.alloc(); "{path}.new{number}") {
        Ok(made) => make_file_by(rt, made.as_str(), path, head),
        Err(_) => Err(SessionFault::from(ReplayFault::OutOfMemory)),
    }
}

/// Makes the file of a log. It is written under another name first, so that a crash leaves no part of a head under
/// the log's name.
fn make_file(rt: &HostRuntime, path: &str, head: &[u8]) -> Result<(), SessionFault> {
    for number in 0..MAX_NAMES {
        if make_file_numbered(rt, number, path, head)? {
            return Ok(());
        }
    }
    Err(unwritten())
}

/// Whether nothing is at a path.
fn is_missing(rt: &HostRuntime, path: &str) -> bool {
    match fs::symlink_metadata(rt, path) {
        Ok(_) => false,
        Err(error) => error.kind() == io::ErrorKind::NotFound,
    }
}

/// The fault if the log can't be opened for reading and writing: not written if it can be read, else not read.
fn unopened(rt: &HostRuntime, path: &str) -> SessionFault {
    match File::open(rt, path) {
        Ok(_) => unwritten(),
        Err(_) => unread(),
    }
}

/// Opens the file of a log, which is made if it is missing. It must be a plain file, since another kind may have no
/// end.
///
/// The log's name is on the disk before a line is answered. Another session may have made the file just now and been
/// killed.
fn log_at(rt: &HostRuntime, path: &str, head: &[u8]) -> Result<File, SessionFault> {
    if is_missing(rt, path) {
        make_file(rt, path, head)?;
    }
    if !is_plain(rt, path) {
        return Err(unread());
    }
    sync_folder(rt, path)?;
    match File::options().read(true).write(true).open(rt, path) {
        Ok(file) => Ok(file),
        Err(_) => Err(unopened(rt, path)),
    }
}

/// Reads the trace in a file.
fn trace_at(rt: &HostRuntime, path: &str) -> Result<Indexed, SessionFault> {
    let mut input = input_at(rt, path);
    match read_trace(rt.alloc(), &mut input) {
        Ok(indexed) => {
            tell_mark(rt, &input, path);
            Ok(indexed)
        }
        Err(fault) => Err(SessionFault::from(fault)),
    }
}

/// Answers the lines on standard input in a session.
fn answer_lines<D: Device + Drop, K: Sink>(
    rt: &HostRuntime,
    session: &mut Session<D>,
    notes: &LineNotes<'_>,
    writer: &mut K,
) -> Result<(), SessionFault>
    requires in_step { session.old.is_in_step ≡ true }
    requires writer { K.has_failed writer.old ≡ false }
{
    let mut reader = Heard::new(FromRead::new(rt.reader()), notes);
    run_session(rt.alloc(), session, notes.client, &mut reader, writer)
}

/// Answers standard input on a trace and the log in this file, which begins with this head.
fn answer_on_file<K: Sink>(
    rt: &HostRuntime,
    indexed: Indexed,
    head: &[u8],
    file: File,
    notes: &LineNotes<'_>,
    writer: &mut K,
) -> Result<(), SessionFault>
    requires { K.has_failed writer.old ≡ false }
{
    match Session::open(rt.alloc(), indexed, head, Host::new(file)) {
        Ok(mut session) => answer_lines(rt, &mut session, notes, writer),
        Err((fault, _)) => Err(fault),
    }
}

/// The head of the log for a trace, and the opened file of the log at this path.
fn opened_for(
    rt: &HostRuntime,
    indexed: &Indexed,
    path: &str,
) -> Result<(Vec<u8>, File), SessionFault> {
    match head_of(rt.alloc(), indexed) {
        Ok(head) => match log_at(rt, path, &head) {
            Ok(file) => Ok((head, file)),
            Err(fault) => Err(fault),
        },
        Err(fault) => Err(SessionFault::from(fault)),
    }
}

/// Answers standard input on a trace and the log at this path.
fn answer_on_trace<K: Sink>(
    rt: &HostRuntime,
    indexed: Indexed,
    log: &str,
    notes: &LineNotes<'_>,
    writer: &mut K,
) -> Result<(), SessionFault>
    requires { K.has_failed writer.old ≡ false }
{
    match opened_for(rt, &indexed, log) {
        Ok((head, file)) => answer_on_file(rt, indexed, &head, file, notes, writer),
        Err(fault) => Err(fault),
    }
}

/// Answers standard input on the trace in one file and the log in another.
fn answer_input<K: Sink>(
    rt: &HostRuntime,
    trace: &str,
    log: &str,
    notes: &LineNotes<'_>,
    writer: &mut K,
) -> Result<(), SessionFault>
    requires { K.has_failed writer.old ≡ false }
{
    match trace_at(rt, trace) {
        Ok(indexed) => answer_on_trace(rt, indexed, log, notes, writer),
        Err(fault) => Err(fault),
    }
}

/// An open folder. If a standard stream is closed, it takes that place, and reads and writes there fail.
fn held(rt: &HostRuntime) -> Result<File, SessionFault> {
    match File::open(rt, "/") {
        Ok(file) => Ok(file),
        Err(_) => Err(SessionFault::Replay(ReplayFault::Read {
            input: 3,
            why: ReadCause::Device,
        })),
    }
}

/// Answers standard input, with the places of closed standard streams taken. Else the log might be opened in such a
/// place, and answers written into it.
fn answer_apart<K: Sink>(
    rt: &HostRuntime,
    trace: &str,
    log: &str,
    notes: &LineNotes<'_>,
    writer: &mut K,
) -> Result<(), SessionFault>
    requires { K.has_failed writer.old ≡ false }
{
    let _input = held(rt)?;
    let _output = held(rt)?;
    let _errors = held(rt)?;
    answer_input(rt, trace, log, notes, writer)
}

/// Answers the lines on standard input as they come. If a write fails, a note names standard output or the log.
pub(crate) fn session_on_files(
    rt: &HostRuntime,
    trace: &str,
    log: &str,
    client: Option<u32>,
) -> ExitCode {
    let notes = LineNotes::new(rt, client);
    let mut writer = Output::new(FromWrite::new(io::writer(rt)), &notes);
    match answer_apart(rt, trace, log, &notes, &mut writer) {
        Ok(()) => ExitCode::SUCCESS,
        Err(fault) => tell_session(rt, fault, trace, log, writer.is_broken()),
    }
}

/// Prints the lines that count in the file of a log.
pub(crate) fn log_of_file(rt: &HostRuntime, path: &str) -> ExitCode {
    let mut writer = FromWrite::new(io::writer(rt));
    let mut input = input_at(rt, path);
    match print_log(rt.alloc(), &mut input, &mut writer) {
        Ok(()) => finish(rt, &mut writer),
        Err(fault) => tell_log(rt, fault, path),
    }
}
