//! Judges windows with as many threads as there are windows, and keeps what is printed of each.

use crate::input::Input;
use crate::kept::Kept;
use crate::numbering::moved;
use crate::seen::Seen;
use calls::triage::{Asked, Crew, Filters, Form, Silent, TriageFault, triage};
use client_scripts::{FromRead, ReplayFault};
use program_words::TriageTask;
use rapid_text::OutOfMemory;
use std::alloc::Global;
use std::sync::atomic::AtomicU64;
use std::thread;
use std::thread::Threads;
use window::Window;

/// The options for one window.
fn asked_of<'a>(task: &TriageTask<'_>) -> Asked<'a> {
    Asked {
        filters: Filters {
            only: &[],
            hide: &[],
        },
        apart: task.apart,
        tries: task.tries,
        workers: 0,
        form: Form::Json,
        triage: None,
    }
}

/// What `triage --json` prints of a window, with the numbers that the events have in the trace.
fn part_of<R: Threads + Sync>(
    alloc: Global,
    starts: &R,
    task: &TriageTask<'_>,
    window: &Window,
) -> Result<Vec<u8>, TriageFault> {
    let marks: Vec<AtomicU64> = Vec::new(alloc);
    let seen = Seen::new(&Silent, marks.as_slice());
    let crew = Crew {
        threads: starts,
        watch: &seen,
    };
    let mut reader = FromRead::new(window.text.as_slice());
    let mut writer = Kept::new(alloc);
    let known: Option<Input> = None;
    let listed = triage(
        &crew,
        alloc,
        &mut reader,
        known,
        asked_of(task),
        &mut writer,
    );
    moved_part(alloc, listed, writer.bytes.as_slice(), window)
}

/// The printed part of a window, with the numbers that the events have in the trace. A fault if the window was not
/// listed.
fn moved_part(
    alloc: Global,
    listed: Result<u64, TriageFault>,
    part: &[u8],
    window: &Window,
) -> Result<Vec<u8>, TriageFault> {
    match listed {
        Ok(_) => Ok(moved(alloc, part, window)?),
        // The writer keeps its bytes in memory, so a failed write means that memory ran out.
        Err(TriageFault::Replay(ReplayFault::Write)) => {
            Err(TriageFault::Replay(ReplayFault::OutOfMemory))
        }
        Err(fault) => Err(fault),
    }
}

/// What `triage --json` prints of each window. Several windows are judged at the same time.
pub(crate) fn parts_of<R: Threads + Sync>(
    alloc: Global,
    starts: &R,
    task: &TriageTask<'_>,
    windows: &[Window],
) -> Result<Vec<Result<Vec<u8>, TriageFault>>, OutOfMemory> {
    let judge = |at: usize| -> Result<Vec<u8>, TriageFault> {
        match windows.get(at) {
            Some(window) => part_of(alloc, starts, task, window),
            None => Ok(Vec::new(alloc)),
        }
    };
    if windows.len() == 1 {
        let mut parts = Vec::new(alloc);
        parts.push(judge(0))?;
        return Ok(parts);
    }
    Ok(thread::map_indices(starts, alloc, windows.len(), &judge)?)
}
