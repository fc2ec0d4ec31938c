//! How `triage --windows` prints the merged report of its windows.
ghost use Rattle.std.specs.Prelude.{◌≡◌, false};

use crate::cutting::counts_of;
use crate::judging_windows::Report;
use crate::kept::Kept;
use crate::leaving::{Printed, is_any, wanted_in, write_decided};
use crate::logging::write_log_in;
use crate::missing::write_missing;
use crate::windows::Windows;
use calls::triage::{TriageFault, write_merged_page};
use calls::{MergeFault, write_merged, write_merged_json};
use client_scripts::{FromWrite, ReplayFault, Sink, write_all};
use program_words::RacesForm;
use std::alloc::Global;
use std::io;

/// Writes the merged report of the windows. Returns how many races it has.
fn write_report<K: Sink>(
    rt: &HostRuntime,
    windows: &Windows,
    report: &Report<'_>,
    writer: &mut K,
) -> Result<u64, MergeFault>
    requires { K.has_failed writer.old ≡ false }
{
    let task = report.task;
    if is_any(wanted_in(task)) {
        return write_chosen(rt, windows, report, writer);
    }
    match task.form {
        RacesForm::Json => write_merged_json(rt.alloc(), &report.parts, writer),
        RacesForm::Page => {
            told_of(write_merged_page(rt.alloc(), &report.parts, task.apart, writer))
        }
        RacesForm::Sarif => {
            told_of(write_log_in(rt, &report.parts, task.apart, task.source, writer))
        }
        _ => write_lines(rt.alloc(), windows, report, writer),
    }
}

/// Writes the merged report without what the options leave out. As text, it comes after the counts of the windows.
fn write_chosen<K: Sink>(
    rt: &HostRuntime,
    windows: &Windows,
    report: &Report<'_>,
    writer: &mut K,
) -> Result<u64, MergeFault>
    requires { K.has_failed writer.old ≡ false }
{
    match report.task.form {
        RacesForm::Json | RacesForm::Page | RacesForm::Sarif => write_rest(rt, report, writer),
        _ => {
            let head = counts_of(rt.alloc(), windows, report.count)?;
            match write_all(writer, head.as_slice()) {
                Ok(()) => write_rest(rt, report, writer),
                Err(_) => Err(MergeFault::Replay(ReplayFault::Write)),
            }
        }
    }
}

/// Writes the merged report without what the options leave out, and without counts.
fn write_rest<K: Sink>(
    rt: &HostRuntime,
    report: &Report<'_>,
    writer: &mut K,
) -> Result<u64, MergeFault>
    requires { K.has_failed writer.old ≡ false }
{
    let task = report.task;
    let printed = Printed {
        apart: task.apart,
        form: task.form,
        source: task.source,
    };
    told_of(write_decided(
        rt,
        &report.parts,
        report.decided,
        wanted_in(task),
        printed,
        writer,
    ))
}

/// The outcome, in the type of the calls on merged reports.
fn told_of(written: Result<u64, TriageFault>) -> Result<u64, MergeFault> {
    match written {
        Ok(races) => Ok(races),
        Err(TriageFault::Replay(fault)) => Err(MergeFault::Replay(fault)),
        Err(_) => Err(MergeFault::Replay(ReplayFault::OutOfMemory)),
    }
}

/// Writes the counts of the windows, and the merged report as text. Returns how many races it has.
fn write_lines<K: Sink>(
    alloc: Global,
    windows: &Windows,
    report: &Report<'_>,
    writer: &mut K,
) -> Result<u64, MergeFault>
    requires { K.has_failed writer.old ≡ false }
{
    let head = counts_of(alloc, windows, report.count)?;
    match write_all(writer, head.as_slice()) {
        Ok(()) => write_merged(alloc, &report.parts, report.task.apart, writer),
        Err(_) => Err(MergeFault::Replay(ReplayFault::Write)),
    }
}

/// Writes the merged report of the windows. If something is missing in the recording, the report says what.
fn write_marked<K: Sink>(
    rt: &HostRuntime,
    windows: &Windows,
    report: &Report<'_>,
    writer: &mut K,
) -> Result<u64, MergeFault>
    requires { K.has_failed writer.old ≡ false }
{
    if report.missing.is_empty() {
        return write_report(rt, windows, report, writer);
    }
    let mut kept = Kept::new(rt.alloc());
    match write_report(rt, windows, report, &mut kept) {
        Ok(races) => {
            let words = report.missing.as_slice();
            let made = kept.bytes.as_slice();
            match write_missing(rt.alloc(), report.task.form, words, made, writer) {
                Ok(()) => Ok(races),
                Err(fault) => Err(MergeFault::Replay(fault)),
            }
        }
        // The writer keeps its bytes in memory, so a failed write means that memory ran out.
        Err(MergeFault::Replay(ReplayFault::Write)) => {
            Err(MergeFault::Replay(ReplayFault::OutOfMemory))
        }
        Err(fault) => Err(fault),
    }
}

/// Prints the merged report of the windows. Returns how many races it has.
pub(crate) fn print_report(
    rt: &HostRuntime,
    windows: &Windows,
    report: &Report<'_>,
) -> Result<u64, MergeFault> {
    let mut writer = FromWrite::new(io::writer(rt));
    match write_marked(rt, windows, report, &mut writer) {
        Ok(races) => match writer.flush() {
            Ok(()) => Ok(races),
            Err(_) => Err(MergeFault::Replay(ReplayFault::Write)),
        },
        Err(fault) => Err(fault),
    }
}
