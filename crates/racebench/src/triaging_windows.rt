//! What the program does at `triage --windows`: cuts a trace of any length into windows, judges each, and merges the
//! findings.
ghost use Rattle.std.specs.Prelude.{◌<◌};
ghost use Rattle.std.specs.Process.{exit_status};

use crate::coding::is_folder;
use crate::failing::{NO_TRACE_EVENTS, Unjudged, status_of};
use crate::judging_windows::{Report, Stop, judge_all};
use crate::leaving::{Decided, read_decided, tell_decided, wanted_in};
use crate::missing::marked_parts;
use crate::pieces::pieces_at;
use crate::printing_windows::print_report;
use crate::telling::{say, tell_replay, tell_windows};
use crate::telling_paths::tell_folder;
use crate::telling_triage::tell_triage;
use crate::trace_notes::held_note;
use crate::windows::Windows;
use calls::triage::{Judged, TriageFault};
use calls::{BenchFault, MergeFault, Parts};
use client_scripts::ReplayFault;
use program_words::TriageTask;
use std::alloc::Global;
use std::process::ExitCode;
use std::thread::Threads;

/// Whether the trace is at fault. If it is, the findings up to there are printed.
fn is_of_trace(stop: Stop) -> bool {
    match stop {
        Stop::Trace(BenchFault::Replay(ReplayFault::Text(_))) => true,
        Stop::Trace(BenchFault::Replay(ReplayFault::Rule(_))) => true,
        Stop::Trace(BenchFault::NoName) => true,
        Stop::Window(TriageFault::TooMany) => true,
        _ => false,
    }
}

/// Reports why no more windows were judged.
fn tell_stop(rt: &HostRuntime, stop: Stop, report: &Report<'_>) -> ExitCode
    ensures { 0 < exit_status result }
{
    match stop {
        Stop::Trace(fault) => { tell_windows(rt, fault, report.task.trace, held_note(report.most)) }
        Stop::Window(fault) => tell_triage(rt, fault, &[report.task.trace]),
        Stop::Part => {
            say(
                rt,
                b"racebench: what was found of a window cannot be merged\n",
            );
            ExitCode::FAILURE
        }
    }
}

/// Does `triage` on the windows of the trace in a file; `most` is how many events each has at most. Refuses a folder of
/// code that is not there.
pub(crate) fn triage_windows<R: Threads + Sync>(
    rt: &HostRuntime,
    starts: &R,
    task: &TriageTask<'_>,
    most: u32,
) -> ExitCode {
    match task.source {
        Some(folder) if !is_folder(rt, folder) => tell_folder(rt, folder),
        _ => match read_decided(rt, wanted_in(task)) {
            Ok(decided) => list_windows(rt, starts, task, most, &decided),
            Err(status) => status,
        },
    }
}

/// The exit status after `races` races were printed. Reports first which entries are about no race, and whether known
/// races have no block.
fn status_after(rt: &HostRuntime, report: &Report<'_>, races: u64) -> ExitCode {
    let task = report.task;
    match tell_decided(rt, &report.parts, report.decided, wanted_in(task)) {
        Ok(()) => {
            let judged = Judged {
                races,
                has_events: report.count > 0,
                is_whole: report.missing.is_empty(),
            };
            let why = Unjudged {
                no_events: NO_TRACE_EVENTS,
                missing: report.missing.as_slice(),
            };
            status_of(rt, task.fail, judged, why)
        }
        Err(_) => tell_replay(rt, ReplayFault::OutOfMemory),
    }
}

/// Judges the windows of the trace in a file, `most` events each at most, and prints the report.
fn list_windows<R: Threads + Sync>(
    rt: &HostRuntime,
    starts: &R,
    task: &TriageTask<'_>,
    most: u32,
    decided: &Decided,
) -> ExitCode {
    let mut windows = Windows::new(rt.alloc(), pieces_at(rt, task.trace), most);
    let mut report = Report {
        task,
        decided,
        most,
        parts: Parts::new(rt.alloc()),
        count: 0,
        missing: Vec::new(rt.alloc()),
    };
    list_report(rt, starts, &mut windows, &mut report)
}

/// Judges the windows, and prints the report. Nothing was judged yet.
fn list_report<R: Threads + Sync>(
    rt: &HostRuntime,
    starts: &R,
    windows: &mut Windows,
    report: &mut Report<'_>,
) -> ExitCode {
    let judged = judge_all(rt, starts, windows, report);
    if let Err(stop) = mark_parts(rt.alloc(), windows, report) {
        return tell_stop(rt, stop, report);
    }
    match judged {
        Ok(()) => print_judged(rt, windows, report),
        Err(stop) => end_stopped(rt, windows, report, stop),
    }
}

/// If the recording is not whole, notes what is missing, in the report and in each of its parts.
fn mark_parts(alloc: Global, windows: &Windows, report: &mut Report<'_>) -> Result<(), Stop> {
    let wholeness = windows.wholeness(alloc)?;
    let Some(words) = wholeness.words() else {
        return Ok(());
    };
    report.missing.extend_from_slice(words)?;
    report.parts = marked_parts(alloc, &report.parts, words)?;
    Ok(())
}

/// Reports why judging stopped. If the trace is at fault, prints the report up to there first.
fn end_stopped(rt: &HostRuntime, windows: &Windows, report: &Report<'_>, stop: Stop) -> ExitCode {
    if is_of_trace(stop) {
        return print_stopped(rt, windows, report, stop);
    }
    tell_stop(rt, stop, report)
}

/// Prints the report after all windows were judged.
fn print_judged(rt: &HostRuntime, windows: &Windows, report: &Report<'_>) -> ExitCode {
    match print_report(rt, windows, report) {
        Ok(races) => {
            windows.tell_mark(rt, report.task.trace);
            status_after(rt, report, races)
        }
        Err(fault) => tell_unprinted(rt, fault, report),
    }
}

/// Prints the report up to the line at which the trace was refused, and then reports why.
fn print_stopped(rt: &HostRuntime, windows: &Windows, report: &Report<'_>, stop: Stop) -> ExitCode {
    match print_report(rt, windows, report) {
        Ok(_) => tell_stop(rt, stop, report),
        Err(fault) => tell_unprinted(rt, fault, report),
    }
}

/// Reports why the report was not printed.
fn tell_unprinted(rt: &HostRuntime, fault: MergeFault, report: &Report<'_>) -> ExitCode
    ensures { 0 < exit_status result }
{
    match fault {
        MergeFault::Replay(fault) => tell_replay(rt, fault),
        _ => tell_stop(rt, Stop::Part, report),
    }
}
