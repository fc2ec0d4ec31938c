//! The runs of a schedule, the longest parts that belong to one thread.
ghost use Rattle.std.specs.Prelude.{◌≡◌, IfOk};
ghost use Rattle.explain_report.specs.Runs.{ended, ended_before, longer, next_run, run_from, run_total, runs_of, thread_of};
ghost use Rattle.rapid_text.specs.Appended.{Appended};

use crate::event_lines::thread_of;
use event_index::Indexed;
use rapid_text::OutOfMemory;
use std::alloc::Global;

/// A run: a longest part of a list of events that belongs to one thread.
#[derive(Clone, Copy)]
pub struct Run {
    /// Its thread.
    pub thread: u32,
    /// The index of its first event in the list.
    pub start: u32,
    /// The index after its last event.
    pub end: u32,
}

/// The runs of the list, in its order.
pub fn runs_of(alloc: Global, indexed: &Indexed, list: &[u32]) -> Result<Vec<Run>, OutOfMemory>
    ensures { IfOk result (λ runs. runs.items ≡ runs_of indexed.now.events list.now) }
{
    let mut runs: Vec<Run> = Vec::new(alloc);
    add_runs(&mut runs, indexed, list)?;
    Ok(runs)
}

/// Adds the runs of the list.
fn add_runs(runs: &mut Vec<Run>, indexed: &Indexed, list: &[u32]) -> Result<(), OutOfMemory>
    ensures { Appended result runs.old runs.new (runs_of indexed.now.events list.now) }
{
    let mut last: Option<Run> = None;
    for event in list {
        last = Some(add_ended(runs, last, thread_or_first(indexed, *event))?);
    }
    add_last(runs, last)?;
    Ok(())
}

/// The thread of the event, or thread 0 if the trace lacks it.
fn thread_or_first(indexed: &Indexed, event: u32) -> u32
    ensures { result ≡ thread_of indexed.now.events event }
{
    match thread_of(indexed, event) {
        Some(thread) => thread,
        None => 0,
    }
}

/// Adds the last run if it ends before an event of this thread. Returns the run of that event.
fn add_ended(runs: &mut Vec<Run>, last: Option<Run>, thread: u32) -> Result<Run, OutOfMemory>
    ensures ended { Appended result runs.old runs.new (ended_before last thread) }
    ensures next { IfOk result (λ run. run ≡ next_run last thread) }
{
    let Some(run) = last else {
        return Ok(run_from(thread, 0));
    };
    if run.thread == thread {
        return Ok(longer(run));
    }
    runs.push(run)?;
    Ok(run_from(thread, run.end))
}

/// A run that has only the event at this index.
fn run_from(thread: u32, start: u32) -> Run
    ensures { result ≡ run_from thread start }
{
    Run {
        thread,
        start,
        end: start.saturating_add(1),
    }
}

/// The run with the next event too.
fn longer(run: Run) -> Run
    ensures { result ≡ longer run }
{
    Run {
        thread: run.thread,
        start: run.start,
        end: run.end.saturating_add(1),
    }
}

/// Adds the last run, if there is one.
fn add_last(runs: &mut Vec<Run>, last: Option<Run>) -> Result<(), OutOfMemory>
    ensures { Appended result runs.old runs.new (ended last) }
{
    if let Some(run) = last {
        runs.push(run)?;
    }
    Ok(())
}

/// The number of runs in the list.
pub fn run_count(alloc: Global, indexed: &Indexed, list: &[u32]) -> Result<u64, OutOfMemory>
    ensures { IfOk result (λ count. count ≡ run_total indexed.now list.now) }
{
    match runs_of(alloc, indexed, list) {
        Ok(runs) => Ok(runs.len() as u64),
        Err(refused) => Err(refused),
    }
}
