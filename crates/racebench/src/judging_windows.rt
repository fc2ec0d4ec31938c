//! How `triage --windows` judges the windows of a trace, and takes what it finds as the parts of a report.

mod window_parts;

use crate::cutting::append_padded;
use crate::input::is_standard;
use crate::leaving::Decided;
use crate::quoted::append_number;
use crate::telling::say;
use crate::windows::Windows;
use calls::triage::TriageFault;
use calls::{BenchFault, MergeFault, Parts, read_part};
use client_scripts::{FromRead, ReplayFault};
use program_words::TriageTask;
use race_page::append_shell_word;
use rapid_text::OutOfMemory;
use std::alloc::{AllocError, Global};
use std::io::IsTerminal;
use std::thread;
use std::thread::Threads;
use window::Window;
use window_parts::parts_of;

/// Why no more windows are judged.
#[derive(Clone, Copy)]
pub(crate) enum Stop {
    /// A fault of the trace, or of making the next window.
    Trace(BenchFault),
    /// A window was not judged.
    Window(TriageFault),
    /// What was printed of a window is no part of a report.
    Part,
}

impl From<OutOfMemory> for Stop {
    fn from(_refused: OutOfMemory) -> Stop {
        Stop::Trace(BenchFault::Replay(ReplayFault::OutOfMemory))
    }
}

impl From<AllocError> for Stop {
    fn from(_refused: AllocError) -> Stop {
        Stop::Trace(BenchFault::Replay(ReplayFault::OutOfMemory))
    }
}

impl From<MergeFault> for Stop {
    fn from(fault: MergeFault) -> Stop {
        match fault {
            MergeFault::Replay(fault) => Stop::Trace(BenchFault::Replay(fault)),
            _ => Stop::Part,
        }
    }
}

/// The options, what is left out, the size of a window, and the parts of the windows that were judged.
#[derive(Drop)]
pub(crate) struct Report<'a> {
    pub(crate) task: &'a TriageTask<'a>,
    pub(crate) decided: &'a Decided,
    pub(crate) most: u32,
    pub(crate) parts: Parts,
    pub(crate) count: u64,
    /// What is missing in the recording, in words; empty if nothing is known to be missing.
    pub(crate) missing: Vec<u8>,
}

/// The next windows, `width` at most, which are judged at the same time. If a fault comes after the first window, the
/// next call returns it.
fn batch(alloc: Global, windows: &mut Windows, width: u32) -> Result<Vec<Window>, BenchFault> {
    let mut batch = Vec::new(alloc);
    fill(alloc, windows, width, &mut batch)?;
    Ok(batch)
}

/// Adds the next windows to a batch.
fn fill(
    alloc: Global,
    windows: &mut Windows,
    width: u32,
    batch: &mut Vec<Window>,
) -> Result<(), BenchFault> {
    for _ in 0..width {
        match windows.next(alloc) {
            Ok(Some(window)) => batch.push(window)?,
            Ok(None) => return Ok(()),
            Err(fault) => {
                if batch.is_empty() {
                    return Err(fault);
                }
                return Ok(());
            }
        }
    }
    Ok(())
}

impl Report<'_> {
    // The name of the part that a window is. With `racebench cut` before it, it is a command that prints the window.
    fn name_of(&self, alloc: Global, number: u64) -> Result<Vec<u8>, OutOfMemory> {
        let mut name = Vec::new(alloc);
        append_trace(&mut name, self.task.trace)?;
        name.extend_from_slice(b" --windows ")?;
        append_number(&mut name, u64::from(self.most))?;
        name.extend_from_slice(b" --window ")?;
        append_padded(&mut name, number)?;
        Ok(name)
    }

    // Takes in what was printed of a window, as a part.
    fn take(&mut self, alloc: Global, number: u64, part: &[u8]) -> Result<(), Stop> {
        let name = self.name_of(alloc, number)?;
        self.count = self.count.saturating_add(1);
        let file = u32::try_from(self.count).unwrap_or(u32::MAX);
        let mut reader = FromRead::new(part);
        match read_part(alloc, &mut self.parts, name.as_slice(), &mut reader, file) {
            Ok(()) => Ok(()),
            Err(fault) => Err(Stop::from(fault)),
        }
    }

    // Judges these windows, and takes in their parts.
    fn take_all<R: Threads + Sync>(
        &mut self,
        alloc: Global,
        starts: &R,
        windows: &[Window],
    ) -> Result<(), Stop> {
        match parts_of(alloc, starts, self.task, windows) {
            Ok(parts) => self.take_parts(alloc, windows, parts.as_slice()),
            Err(refused) => Err(Stop::from(refused)),
        }
    }

    // Takes in what was printed of each window.
    fn take_parts(
        &mut self,
        alloc: Global,
        windows: &[Window],
        parts: &[Result<Vec<u8>, TriageFault>],
    ) -> Result<(), Stop> {
        for at in 0..windows.len() {
            match parts.get(at) {
                Some(Ok(part)) => self.take(alloc, windows[at].from, part.as_slice())?,
                Some(Err(fault)) => return Err(Stop::Window(*fault)),
                None => {}
            }
        }
        Ok(())
    }
}

/// Appends the path of a trace as one word of a shell. For standard input it is `-`.
fn append_trace(out: &mut Vec<u8>, path: &str) -> Result<(), OutOfMemory> {
    if is_standard(path) {
        return Ok(out.extend_from_slice(path.as_bytes())?);
    }
    append_shell_word(out, path.as_bytes())
}

/// Shows how far the work is, if standard error is a terminal or the options request it.
fn show(rt: &HostRuntime, task: &TriageTask<'_>, windows: &Windows, count: u64) {
    if !task.progress && !rt.stderr().is_terminal() {
        return;
    }
    let mut line = Vec::new(rt.alloc());
    if append_progress(&mut line, windows.events(), count).is_ok() {
        say(rt, line.as_slice());
    }
}

/// Appends the line that shows how far the work is.
fn append_progress(out: &mut Vec<u8>, events: u64, count: u64) -> Result<(), OutOfMemory> {
    out.extend_from_slice(b"windows ")?;
    append_number(out, count)?;
    out.extend_from_slice(b" events ")?;
    append_number(out, events)?;
    out.extend_from_slice(b"\n")?;
    Ok(())
}

/// Judges all windows. With fewer than two workers, one window at a time is in memory.
pub(crate) fn judge_all<R: Threads + Sync>(
    rt: &HostRuntime,
    starts: &R,
    windows: &mut Windows,
    report: &mut Report<'_>,
) -> Result<(), Stop> {
    if report.task.workers > 1 {
        return judge_ahead(rt, starts, windows, report);
    }
    for _ in 0..u64::MAX {
        if !judge_next(rt, starts, windows, report)? {
            return Ok(());
        }
    }
    Ok(())
}

/// Judges the next window. Returns whether there was one.
fn judge_next<R: Threads + Sync>(
    rt: &HostRuntime,
    starts: &R,
    windows: &mut Windows,
    report: &mut Report<'_>,
) -> Result<bool, Stop> {
    match batch(rt.alloc(), windows, 1) {
        Ok(next) => judge_batch(rt, starts, windows, report, next.as_slice()),
        Err(fault) => Err(Stop::Trace(fault)),
    }
}

/// Judges these windows. Returns whether there were any.
fn judge_batch<R: Threads + Sync>(
    rt: &HostRuntime,
    starts: &R,
    windows: &Windows,
    report: &mut Report<'_>,
    next: &[Window],
) -> Result<bool, Stop> {
    if next.is_empty() {
        return Ok(false);
    }
    report.take_all(rt.alloc(), starts, next)?;
    show(rt, report.task, windows, report.count);
    Ok(true)
}

/// Judges all windows, in batches of as many as there are workers. It reads the next batch at the same time.
fn judge_ahead<R: Threads + Sync>(
    rt: &HostRuntime,
    starts: &R,
    windows: &mut Windows,
    report: &mut Report<'_>,
) -> Result<(), Stop> {
    let mut next = batch(rt.alloc(), windows, report.task.workers);
    for _ in 0..u64::MAX {
        match next {
            Ok(these) => {
                if these.is_empty() {
                    return Ok(());
                }
                next = judge_these(rt, starts, windows, report, these.as_slice())?;
            }
            Err(fault) => return Err(Stop::Trace(fault)),
        }
    }
    Ok(())
}

/// Judges the windows `these`, and reads the next batch at the same time. Their findings come before a fault of the
/// next batch.
fn judge_these<R: Threads + Sync>(
    rt: &HostRuntime,
    starts: &R,
    windows: &mut Windows,
    report: &mut Report<'_>,
    these: &[Window],
) -> Result<Result<Vec<Window>, BenchFault>, Stop> {
    let (parts, next) = judged_ahead(rt.alloc(), starts, report.task, windows, these);
    match parts {
        Ok(parts) => report.take_parts(rt.alloc(), these, parts.as_slice())?,
        Err(refused) => return Err(Stop::from(refused)),
    }
    show(rt, report.task, windows, report.count);
    Ok(next)
}

/// What is printed of each window.
type Judged = Result<Vec<Result<Vec<u8>, TriageFault>>, OutOfMemory>;

/// What is printed of each window of `these`, and the next batch, which is read at the same time.
fn judged_ahead<'a, R: Threads + Sync>(
    alloc: Global,
    starts: &'a R,
    task: &'a TriageTask<'a>,
    windows: &mut Windows,
    these: &'a [Window],
) -> (Judged, Result<Vec<Window>, BenchFault>) {
    let width = task.workers;
    thread::join(
        starts,
        || parts_of(alloc, starts, task, these),
        || batch(alloc, windows, width),
    )
}
