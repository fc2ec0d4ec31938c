//! Reports why the program stops before it has done its task, and returns the exit status.
ghost use Rattle.std.specs.Prelude.{◌≡◌, ◌≢◌, ◌<◌, MatchResult};
ghost use Rattle.std.specs.Process.{exit_status};
ghost use Rattle.calls.specs.declared.fault.BenchFault.TheVariants.{TooManyScripts};

use crate::file_notes::{append_file_notes, append_window_notes, is_plain};
use crate::notes::{append_joint_notes, are_wanted};
use crate::pair_notes::{append_no_event, append_pair_note};
use calls::pair::{PairFault, pair_fault_text};
use calls::triage::{
    ConfirmedFault, TriageFault, TriagedFault, confirmed_fault_text, triage_fault_text,
    triaged_fault_text,
};
use calls::{BenchFault, bench_fault_text};
use client_scripts::{FromWrite, ReplayFault, write_all};
use kept_session::{SessionFault, session_fault_text};
use program_words::{Named, PairTask};
use rapid_text::OutOfMemory;
use std::process::ExitCode;

/// The exit status if arguments are refused, or request more than the program does.
pub(crate) const REFUSED: u8 = 2;

/// Writes these bytes on standard error. A failure is ignored, since it can't be reported.
pub(crate) fn say(rt: &HostRuntime, bytes: &[u8]) {
    let mut errors = FromWrite::new(rt.stderr());
    let _ = write_all(&mut errors, bytes);
}

/// A fault of one of the calls.
#[derive(Clone, Copy)]
pub(crate) enum Fault {
    Bench(BenchFault),
    Pair(PairFault),
    Session(SessionFault),
    Triage(TriageFault),
    Confirmed(ConfirmedFault),
    Triaged(TriagedFault),
    /// 115: there are more than 1,048,576 patterns of deadlocks.
    TooManyPatterns,
}

/// Appends the text of a fault.
fn append_text(out: &mut Vec<u8>, fault: &Fault) -> Result<(), OutOfMemory> {
    match fault {
        Fault::Bench(fault) => bench_fault_text(fault, out),
        Fault::Pair(fault) => pair_fault_text(fault, out),
        Fault::Session(fault) => session_fault_text(fault, out),
        Fault::Triage(fault) => triage_fault_text(fault, out),
        Fault::Confirmed(fault) => confirmed_fault_text(fault, out),
        Fault::Triaged(fault) => triaged_fault_text(fault, out),
        Fault::TooManyPatterns => Ok(out.extend_from_slice(b"too many patterns")?),
    }
}

/// Appends the line that reports a fault.
pub(crate) fn append_fault(out: &mut Vec<u8>, fault: &Fault) -> Result<(), OutOfMemory> {
    out.extend_from_slice(b"racebench: ")?;
    append_text(out, fault)?;
    out.extend_from_slice(b"\n")?;
    Ok(())
}

/// Appends the line that reports a fault. Returns whether notes on it are wanted.
pub(crate) fn append_noted(
    rt: &HostRuntime,
    out: &mut Vec<u8>,
    fault: &Fault,
) -> Result<bool, OutOfMemory> {
    append_fault(out, fault)?;
    Ok(are_wanted(rt))
}

/// Writes these lines and returns this status. If memory ran out while they were made, reports that instead.
pub(crate) fn end(
    rt: &HostRuntime,
    lines: &[u8],
    made: Result<(), OutOfMemory>,
    status: ExitCode,
) -> ExitCode
    ensures { MatchResult made (λ _. exit_status result ≡ exit_status status) (λ _. exit_status result ≡ 1) }
{
    match made {
        Ok(()) => {
            say(rt, lines);
            status
        }
        Err(_) => {
            say(rt, b"racebench: out of memory\n");
            ExitCode::FAILURE
        }
    }
}

/// Reports a fault without notes.
pub(crate) fn tell(rt: &HostRuntime, fault: Fault) -> ExitCode
    ensures { exit_status result ≡ 1 }
{
    let mut lines = Vec::new(rt.alloc());
    let made = append_fault(&mut lines, &fault);
    end(rt, &lines, made, ExitCode::FAILURE)
}

/// Reports a fault that names no input: standard output was not written, or memory ran out.
pub(crate) fn tell_replay(rt: &HostRuntime, fault: ReplayFault) -> ExitCode
    ensures { 0 < exit_status result }
{
    tell_joint(rt, fault, &[], false)
}

/// Appends the line that reports a fault of a joint text, and its notes. `kept` has the first bytes of the text.
fn append_in_joint(
    rt: &HostRuntime,
    out: &mut Vec<u8>,
    fault: ReplayFault,
    kept: &[u8],
    is_whole: bool,
) -> Result<(), OutOfMemory> {
    if append_noted(rt, out, &Fault::Bench(BenchFault::from(fault)))? {
        append_joint_notes(rt, out, kept, is_whole, &fault)?;
    }
    Ok(())
}

/// Reports a fault of the joint text. `kept` has the first bytes of the text.
pub(crate) fn tell_joint(
    rt: &HostRuntime,
    fault: ReplayFault,
    kept: &[u8],
    is_whole: bool,
) -> ExitCode
    ensures { 0 < exit_status result }
{
    let mut lines = Vec::new(rt.alloc());
    let made = append_in_joint(rt, &mut lines, fault, kept, is_whole);
    end(rt, &lines, made, ExitCode::FAILURE)
}

/// Appends the line that reports a fault of the trace and the scripts at these paths, and its notes.
fn append_in_files(
    rt: &HostRuntime,
    out: &mut Vec<u8>,
    fault: &BenchFault,
    paths: &[&str],
) -> Result<(), OutOfMemory> {
    if append_noted(rt, out, &Fault::Bench(*fault))? {
        append_file_notes(rt, out, paths, fault)?;
    }
    Ok(())
}

/// The exit status for a fault.
fn status_of(fault: &BenchFault) -> ExitCode
    ensures refused { fault.now ≡ TooManyScripts → exit_status result ≡ 2 }
    ensures failed { fault.now ≢ TooManyScripts → exit_status result ≡ 1 }
{
    match fault {
        BenchFault::TooManyScripts => ExitCode::from(REFUSED),
        _ => ExitCode::FAILURE,
    }
}

/// Reports a fault of the trace and the scripts at these paths.
pub(crate) fn tell_files(rt: &HostRuntime, fault: BenchFault, paths: &[&str]) -> ExitCode
    ensures { 0 < exit_status result }
{
    let mut lines = Vec::new(rt.alloc());
    let made = append_in_files(rt, &mut lines, &fault, paths);
    end(rt, &lines, made, status_of(&fault))
}

/// Appends the line that reports a fault of the trace at this path, and its notes. It is read in windows.
fn append_in_windows(
    rt: &HostRuntime,
    out: &mut Vec<u8>,
    fault: &BenchFault,
    path: &str,
    held: &[u8],
) -> Result<(), OutOfMemory> {
    if append_noted(rt, out, &Fault::Bench(*fault))? {
        append_window_notes(rt, out, path, fault, held)?;
    }
    Ok(())
}

/// Reports a fault of the trace at this path, which is read in windows. `held` is the note on too many held locks.
pub(crate) fn tell_windows(rt: &HostRuntime, fault: BenchFault, path: &str, held: &[u8]) -> ExitCode
    ensures { 0 < exit_status result }
{
    let mut lines = Vec::new(rt.alloc());
    let made = append_in_windows(rt, &mut lines, &fault, path, held);
    end(rt, &lines, made, status_of(&fault))
}

/// Appends the line that reports a fault of a call on a pair of events, and its note.
fn append_in_pair(
    rt: &HostRuntime,
    out: &mut Vec<u8>,
    fault: &PairFault,
    pair: &PairTask<'_>,
) -> Result<(), OutOfMemory> {
    append_fault(out, &Fault::Pair(*fault))?;
    if !are_wanted(rt) {
        return Ok(());
    }
    match fault {
        PairFault::NoSuchPair => append_pair_note(rt, out, pair, false)?,
        PairFault::NotShown(_) | PairFault::NoDeadlock { is_apart: _ } => {
            out.extend_from_slice(b"note: `racebench explain` of the same two says why\n")?
        }
        PairFault::Replay(_) | PairFault::TooManyHeld => {}
    }
    Ok(())
}

/// The note on a trace that was not read if the last argument is a file.
const ORDER: &[u8] = b"note: the trace comes first, and then the two events or locations\n";

/// Whether the trace was not read, and the second event is named by what is a file.
fn is_in_other_order(rt: &HostRuntime, fault: ReplayFault, pair: &PairTask<'_>) -> bool {
    match pair.other {
        Named::Place(word) => is_unread(fault) && is_plain(rt, word),
        Named::Event(_) => false,
    }
}

/// Whether the trace was not read.
fn is_unread(fault: ReplayFault) -> bool {
    match fault {
        ReplayFault::Read { input: _, why: _ } => true,
        _ => false,
    }
}

/// Appends the line that reports a fault of the trace of a pair, and its notes.
fn append_in_trace(
    rt: &HostRuntime,
    out: &mut Vec<u8>,
    fault: ReplayFault,
    pair: &PairTask<'_>,
) -> Result<(), OutOfMemory> {
    append_in_files(rt, out, &BenchFault::from(fault), &[pair.trace])?;
    append_order_note(rt, out, fault, pair)
}

/// Appends the note on the order of the arguments, if the trace was not read and the last argument is a file.
fn append_order_note(
    rt: &HostRuntime,
    out: &mut Vec<u8>,
    fault: ReplayFault,
    pair: &PairTask<'_>,
) -> Result<(), OutOfMemory> {
    if !are_wanted(rt) || !is_in_other_order(rt, fault, pair) {
        return Ok(());
    }
    Ok(out.extend_from_slice(ORDER)?)
}

/// Reports a fault of the trace of this pair of events.
fn tell_in_trace(rt: &HostRuntime, fault: ReplayFault, pair: &PairTask<'_>) -> ExitCode
    ensures { 0 < exit_status result }
{
    let mut lines = Vec::new(rt.alloc());
    let made = append_in_trace(rt, &mut lines, fault, pair);
    end(rt, &lines, made, ExitCode::FAILURE)
}

/// Reports a fault of a call on this pair of events.
pub(crate) fn tell_pair(rt: &HostRuntime, fault: PairFault, pair: &PairTask<'_>) -> ExitCode
    ensures { 0 < exit_status result }
{
    match fault {
        PairFault::Replay(fault) => tell_in_trace(rt, fault, pair),
        fault => {
            let mut lines = Vec::new(rt.alloc());
            let made = append_in_pair(rt, &mut lines, &fault, pair);
            end(rt, &lines, made, ExitCode::FAILURE)
        }
    }
}

/// Reports a fault of the table of the accesses of a race.
pub(crate) fn tell_uses(rt: &HostRuntime, fault: PairFault, pair: &PairTask<'_>) -> ExitCode
    ensures { 0 < exit_status result }
{
    match fault {
        PairFault::NoSuchPair => {
            let mut lines = Vec::new(rt.alloc());
            let made = append_unused(rt, &mut lines, pair);
            end(rt, &lines, made, ExitCode::FAILURE)
        }
        fault => tell_pair(rt, fault, pair),
    }
}

/// Appends the line that reports that the names mean no variable of a race, and its note.
fn append_unused(
    rt: &HostRuntime,
    out: &mut Vec<u8>,
    pair: &PairTask<'_>,
) -> Result<(), OutOfMemory> {
    if append_noted(rt, out, &Fault::Pair(PairFault::NoSuchPair))? {
        append_pair_note(rt, out, pair, true)?;
    }
    Ok(())
}

/// Appends the line that reports that a window begins at no event, and the note that says which events the trace has.
fn append_past_end(
    rt: &HostRuntime,
    out: &mut Vec<u8>,
    event: u32,
    events: u64,
) -> Result<(), OutOfMemory> {
    if append_noted(rt, out, &Fault::Bench(BenchFault::NoSuchEvent))? {
        append_no_event(out, event, events)?;
    }
    Ok(())
}

/// 106: reports that the requested window begins at this number, which is no event. `events` is how many events the
/// trace has.
pub(crate) fn tell_past_end(rt: &HostRuntime, event: u32, events: u64) -> ExitCode
    ensures { 0 < exit_status result }
{
    let mut lines = Vec::new(rt.alloc());
    let made = append_past_end(rt, &mut lines, event, events);
    end(rt, &lines, made, ExitCode::FAILURE)
}
