//! Reports a fault of a session or of its log.
ghost use Rattle.std.specs.Prelude.{◌<◌};
ghost use Rattle.std.specs.Process.{exit_status};

use crate::file_notes::{LOG, append_form_notes, append_other_log_note};
use crate::notes::are_wanted;
use crate::telling::{Fault, append_fault, end, tell_files, tell_joint};
use crate::telling_paths::tell_unlogged;
use calls::BenchFault;
use client_scripts::ReplayFault;
use kept_session::SessionFault;
use rapid_text::OutOfMemory;
use std::process::ExitCode;

/// Reports a fault of a session on the trace and the log at these paths. `has_failed` says whether a write to standard
/// output failed; if none did, a failed write is one of the log.
pub(crate) fn tell_session(
    rt: &HostRuntime,
    fault: SessionFault,
    trace: &str,
    log: &str,
    has_failed: bool,
) -> ExitCode
    ensures { 0 < exit_status result }
{
    match fault {
        SessionFault::Replay(ReplayFault::Write) if !has_failed => tell_unlogged(rt, log),
        SessionFault::Replay(ReplayFault::Read { input: 3, why }) => {
            tell_joint(rt, ReplayFault::Read { input: 1, why }, &[], true)
        }
        SessionFault::Replay(fault) => tell_files(rt, BenchFault::from(fault), &[trace, log]),
        fault => {
            let mut lines = Vec::new(rt.alloc());
            let made = append_in_session(rt, &mut lines, fault, log);
            end(rt, &lines, made, ExitCode::FAILURE)
        }
    }
}

/// Appends the line that reports a fault of the log at this path, and its notes.
fn append_in_session(
    rt: &HostRuntime,
    out: &mut Vec<u8>,
    fault: SessionFault,
    log: &str,
) -> Result<(), OutOfMemory> {
    append_fault(out, &Fault::Session(fault))?;
    if !are_wanted(rt) {
        return Ok(());
    }
    match fault {
        SessionFault::LogLine { line } => append_form_notes(rt, out, log, line, LOG),
        SessionFault::OtherTrace => append_other_log_note(rt, out, log),
        SessionFault::Replay(_) => Ok(()),
    }
}

/// Reports a fault of the log at this path, which is input 2.
pub(crate) fn tell_log(rt: &HostRuntime, fault: SessionFault, log: &str) -> ExitCode
    ensures { 0 < exit_status result }
{
    tell_session(rt, fault, log, log, true)
}
