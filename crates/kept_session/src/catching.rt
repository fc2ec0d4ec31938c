//! Makes the calls of the lines in the log's file.
ghost use Rattle.std.specs.Prelude.{◌≡◌, ◌+◌, ◌≤◌, length, OnOk, IfErr};
ghost use Rattle.inverse_log.specs.Answer.{log_after};
ghost use Rattle.kept_log.specs.Lines.{kept_lines};
ghost use Rattle.kept_session.specs.Sessions.{log_behind, log_with, IsLogged, AreLogged};
ghost use Rattle.kept_session.specs.Faults.{IsCallFault, IsLineFault, IsLinesFault};

use crate::fault::SessionFault;
use client_scripts::ReplayFault;
use inverse_log::{Bench, Call, Refusal};
use kept_log::first_line;
use script_language::{ScriptCause, read_line};
use std::alloc::Global;

/// Makes the call of a line of the file. The call must add an entry to the log.
fn make_logged(bench: &mut Bench, client: u32, call: &Call, line: u64) -> Result<(), SessionFault>
    requires low { 1 ≤ client }
    requires high { client ≤ 32 }
    ensures trace { bench.new.trace ≡ bench.old.trace }
    ensures log { OnOk result (bench.new.log ≡ log_after bench.old.trace bench.old.log client call.now) }
    ensures logged { OnOk result (length bench.new.log ≡ length bench.old.log + 1) }
    ensures refused { IfErr result (IsCallFault bench.old client call.now line) }
{
    let before = bench.log_len();
    match bench.call(client, call) {
        Ok(_) => {}
        Err(Refusal::OutOfMemory) => return Err(SessionFault::from(ReplayFault::OutOfMemory)),
        Err(_) => return Err(SessionFault::LogLine { line }),
    }
    if bench.log_len() == before {
        return Err(SessionFault::LogLine { line });
    }
    Ok(())
}

/// The number of the line after the lines of the log's entries. Line 1 is the head, and each entry has a line.
pub(crate) fn line_behind(bench: &Bench) -> u64
    ensures { result ≡ length bench.now.log + 2 }
{
    bench.log_len() + 2
}

/// Reads a line of the file and makes its call. The call must add an entry to the log.
fn make_kept(alloc: Global, bench: &mut Bench, line: &[u8]) -> Result<(), SessionFault>
    ensures trace { bench.new.trace ≡ bench.old.trace }
    ensures log { OnOk result (bench.new.log ≡ log_with bench.old.trace bench.old.log line.now) }
    ensures logged { OnOk result (IsLogged bench.old.trace bench.old.log line.now) }
    ensures refused { IfErr result (IsLineFault bench.old.trace bench.old.log line.now) }
{
    let number = line_behind(bench);
    match read_line(alloc, line) {
        Ok(Some((client, call))) => make_logged(bench, client, &call, number),
        Ok(None) => Err(SessionFault::LogLine { line: number }),
        Err(ScriptCause::OutOfMemory) => Err(SessionFault::from(ReplayFault::OutOfMemory)),
        Err(_) => Err(SessionFault::LogLine { line: number }),
    }
}

/// Makes the calls of the lines that count in a text.
pub(crate) fn make_all(alloc: Global, bench: &mut Bench, text: &[u8]) -> Result<(), SessionFault>
    ensures trace { bench.new.trace ≡ bench.old.trace }
    ensures log { OnOk result (bench.new.log ≡ log_behind bench.old.trace bench.old.log (kept_lines text.now)) }
    ensures logged { OnOk result (AreLogged bench.old.trace bench.old.log (kept_lines text.now)) }
    ensures refused { IfErr result (IsLinesFault bench.old.trace bench.old.log (kept_lines text.now)) }
{
    let mut rest = text;
    while let Some((line, others)) = first_line(rest) {
        make_kept(alloc, bench, line)?;
        rest = others;
    }
    Ok(())
}
