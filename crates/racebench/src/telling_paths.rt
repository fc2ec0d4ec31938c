//! Reports what is wrong with a folder, or with a file that the program writes, and returns the exit status.
ghost use Rattle.std.specs.Prelude.{◌<◌};
ghost use Rattle.std.specs.Process.{exit_status};

use crate::notes::append_named;
use crate::quoted::append_name;
use crate::telling::{Fault, append_noted, end};
use crate::write_notes::{append_log_write_note, append_write_note};
use calls::BenchFault;
use client_scripts::{ReadCause, ReplayFault};
use rapid_text::OutOfMemory;
use std::process::ExitCode;

/// 94: an input could not be read.
const UNREAD: ReplayFault = ReplayFault::Read {
    input: 1,
    why: ReadCause::Device,
};

/// Appends the line that reports that a folder is not there.
fn append_no_folder(out: &mut Vec<u8>, path: &str) -> Result<(), OutOfMemory> {
    out.extend_from_slice(b"racebench: no such folder: ")?;
    append_name(out, path)?;
    out.extend_from_slice(b"\n")?;
    Ok(())
}

/// 109: reports that the folder of code at this path is not there.
pub(crate) fn tell_folder(rt: &HostRuntime, path: &str) -> ExitCode
    ensures { 0 < exit_status result }
{
    let mut lines = Vec::new(rt.alloc());
    let made = append_no_folder(&mut lines, path);
    end(rt, &lines, made, ExitCode::FAILURE)
}

/// Appends the line that reports that a folder is not empty.
fn append_full(out: &mut Vec<u8>, path: &str) -> Result<(), OutOfMemory> {
    out.extend_from_slice(b"racebench: the folder has files: ")?;
    append_name(out, path)?;
    out.extend_from_slice(b"\n")?;
    Ok(())
}

/// 105: reports that the folder for windows at this path is not empty.
pub(crate) fn tell_full(rt: &HostRuntime, path: &str) -> ExitCode
    ensures { 0 < exit_status result }
{
    let mut lines = Vec::new(rt.alloc());
    let made = append_full(&mut lines, path);
    end(rt, &lines, made, ExitCode::FAILURE)
}

/// 95.
const UNWRITTEN: Fault = Fault::Bench(BenchFault::Replay(ReplayFault::Write));

/// Appends the line that reports a failed write, and the note that names what was not written, and why.
fn append_unwritten(
    rt: &HostRuntime,
    out: &mut Vec<u8>,
    name: &str,
    cause: &[u8],
) -> Result<(), OutOfMemory> {
    if append_noted(rt, out, &UNWRITTEN)? {
        append_write_note(out, name, cause)?;
    }
    Ok(())
}

/// 95: reports that the output with this name was not written. `cause` says why in words, or is empty.
pub(crate) fn tell_unwritten(rt: &HostRuntime, name: &str, cause: &[u8]) -> ExitCode
    ensures { 0 < exit_status result }
{
    let mut lines = Vec::new(rt.alloc());
    let made = append_unwritten(rt, &mut lines, name, cause);
    end(rt, &lines, made, ExitCode::FAILURE)
}

/// Appends the line that reports a failed write of a log, and the note that names the log, and the likely cause.
fn append_unlogged(rt: &HostRuntime, out: &mut Vec<u8>, path: &str) -> Result<(), OutOfMemory> {
    if append_noted(rt, out, &UNWRITTEN)? {
        append_log_write_note(rt, out, path)?;
    }
    Ok(())
}

/// 95: reports that the log at this path was not written.
pub(crate) fn tell_unlogged(rt: &HostRuntime, path: &str) -> ExitCode
    ensures { 0 < exit_status result }
{
    let mut lines = Vec::new(rt.alloc());
    let made = append_unlogged(rt, &mut lines, path);
    end(rt, &lines, made, ExitCode::FAILURE)
}

/// Appends the line that reports that a folder was not read, and the note that names it.
fn append_unlisted(rt: &HostRuntime, out: &mut Vec<u8>, path: &str) -> Result<(), OutOfMemory> {
    if append_noted(rt, out, &Fault::Bench(BenchFault::from(UNREAD)))? {
        append_named(out, path, b" is not a folder that can be read")?;
    }
    Ok(())
}

/// 94: reports that the folder for windows at this path was not read.
pub(crate) fn tell_unlisted(rt: &HostRuntime, path: &str) -> ExitCode
    ensures { 0 < exit_status result }
{
    let mut lines = Vec::new(rt.alloc());
    let made = append_unlisted(rt, &mut lines, path);
    end(rt, &lines, made, ExitCode::FAILURE)
}
