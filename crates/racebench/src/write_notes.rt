//! Notes on outputs that were not written: which output, and the likely cause.

use crate::notes::{STANDARD_OUTPUT, append_named};
use crate::quoted::append_path;
use rapid_text::OutOfMemory;
use std::fs::{File, Metadata, metadata};
use std::io::{ErrorKind, Write};
use std::os::unix::fs::FileTypeExt;
use std::{fs, io};

/// The path that the system has for standard output.
const STANDARD_PATH: &str = "/dev/stdout";

/// The system's number of the error if standard output is not open for writing.
const BAD_FILE: i32 = 9;

/// The cause if a plain file could be opened for writing, and then a write failed.
const FULL: &[u8] = b"the disk may be full";

/// The cause that this error names, in words; empty if it names none that a user knows.
pub(crate) fn cause_of(error: &io::Error) -> &'static [u8] {
    match error.kind() {
        ErrorKind::PermissionDenied => b"permission denied",
        ErrorKind::ReadOnlyFilesystem => b"the file system is read-only",
        ErrorKind::StorageFull => b"the disk is full",
        ErrorKind::QuotaExceeded => b"the disk quota is used up",
        ErrorKind::FileTooLarge => b"the file would be too large",
        ErrorKind::BrokenPipe => b"the pipe was closed",
        ErrorKind::NotFound => b"its folder does not exist",
        ErrorKind::NotADirectory => b"a part of its path is a file, not a folder",
        ErrorKind::AlreadyExists => b"a file with this name exists",
        ErrorKind::InvalidFilename => b"the name is too long",
        _ => b"",
    }
}

/// The likely cause by the kind of file that was not written.
fn cause_by_kind(found: &Metadata) -> &'static [u8] {
    let kind = found.file_type();
    if kind.is_fifo() {
        b"the pipe was closed"
    } else if kind.is_socket() {
        b"the connection was closed"
    } else if kind.is_file() {
        FULL
    } else {
        b""
    }
}

/// The likely cause why standard output was not written. To find it, writes no bytes once more. If that is done, the
/// kind of file decides.
fn standard_cause(rt: &HostRuntime) -> &'static [u8] {
    match io::writer(rt).write(b"") {
        Ok(_) => match metadata(rt, STANDARD_PATH) {
            Ok(found) => cause_by_kind(&found),
            Err(_) => b"",
        },
        Err(error) => {
            if error.raw_os_error() == Some(BAD_FILE) {
                return b"it is closed";
            }
            cause_of(&error)
        }
    }
}

/// The likely cause why the log at this path was not made.
fn unmade_cause(rt: &HostRuntime, path: &str) -> Result<&'static [u8], OutOfMemory> {
    match format!(in rt.alloc(); "{path}.new") {
        Ok(made) => Ok(cause_by_making(rt, made.as_str())),
        Err(_) => Err(OutOfMemory),
    }
}

/// How many bytes are written to find out whether a disk is full: more than the first line of a log has.
const PROBE: usize = 4_096;

/// The cause why no file could be made in this file's folder: makes this file, writes into it, and removes it.
fn cause_by_making(rt: &HostRuntime, made: &str) -> &'static [u8] {
    match File::create_new(rt, made) {
        Ok(mut file) => {
            let written = file.write_all(&[0u8; PROBE]);
            let _ = fs::remove_file(rt, made);
            match written {
                Ok(()) => b"its folder may have no hard links",
                Err(error) => cause_of(&error),
            }
        }
        Err(error) => cause_of(&error),
    }
}

/// The cause why the plain file at this path was not written.
fn cause_by_opening(rt: &HostRuntime, path: &str) -> &'static [u8] {
    match File::options().write(true).open(rt, path) {
        Ok(_) => FULL,
        Err(error) => cause_of(&error),
    }
}

/// The likely cause why the log at this path was not written.
fn log_cause(rt: &HostRuntime, path: &str) -> Result<&'static [u8], OutOfMemory> {
    if path.is_empty() {
        return Ok(b"");
    }
    match metadata(rt, path) {
        Ok(found) if found.is_file() => Ok(cause_by_opening(rt, path)),
        Ok(_) => Ok(b""),
        Err(_) => unmade_cause(rt, path),
    }
}

/// Appends the note on an output that was not written, with the cause, if it is known.
pub(crate) fn append_write_note(
    out: &mut Vec<u8>,
    name: &str,
    cause: &[u8],
) -> Result<(), OutOfMemory> {
    if cause.is_empty() {
        return append_named(out, name, b" cannot be written");
    }
    out.extend_from_slice(b"note: ")?;
    append_path(out, name)?;
    out.extend_from_slice(b" cannot be written: ")?;
    out.extend_from_slice(cause)?;
    out.extend_from_slice(b"\n")?;
    Ok(())
}

/// Appends the note on standard output, which was not written.
pub(crate) fn append_standard_note(rt: &HostRuntime, out: &mut Vec<u8>) -> Result<(), OutOfMemory> {
    append_write_note(out, STANDARD_OUTPUT, standard_cause(rt))
}

/// Appends the note on the log at this path, which was not written.
pub(crate) fn append_log_write_note(
    rt: &HostRuntime,
    out: &mut Vec<u8>,
    path: &str,
) -> Result<(), OutOfMemory> {
    append_write_note(out, path, log_cause(rt, path)?)
}
