//! Prints the runs of a schedule.
ghost use Rattle.std.specs.Prelude.{◌≡◌, None, Some, drop, slice_index_or};
ghost use Rattle.explain_report.specs.RunTexts.{AreRunsTold, block_size, each_run_text, event_total, gap_line, last_line, place_by, place_line, run_events, run_line, run_text, runs_text, shown_text, waiter_by, waiter_line};
ghost use Rattle.explain_report.specs.Runs.{runs_of};
ghost use Rattle.explain_report.specs.Waiting.{words_between};
ghost use Rattle.rapid_text.specs.Appended.{Appended, AppendedOne};

use crate::event_lines::{append_line, append_thread};
use crate::folded::append_block;
use crate::pieces::{append_count, append_number, append_words};
use crate::runs::{Run, runs_of};
use crate::waiting::{waiters_of, words_between};
use event_index::Indexed;
use rapid_text::OutOfMemory;

/// The most runs that are all printed one by one.
const MOST_RUNS: usize = 11;

/// If there are more, this many of the last ones are printed.
const LAST_RUNS: usize = 10;

/// Appends the runs of the list. If there are more than eleven, and `all` is false, all except the last ten become
/// one block.
pub fn append_runs(
    out: &mut Vec<u8>,
    indexed: &Indexed,
    list: &[u32],
    all: bool,
) -> Result<(), OutOfMemory>
    ensures { AppendedOne result out.old out.new (AreRunsTold indexed.now list.now all) }
{
    let runs = runs_of(*out.allocator(), indexed, list)?;
    append_found(out, indexed, list, runs.as_slice(), all)?;
    Ok(())
}

/// Appends these runs of the list.
fn append_found(
    out: &mut Vec<u8>,
    indexed: &Indexed,
    list: &[u32],
    runs: &[Run],
    all: bool,
) -> Result<(), OutOfMemory>
    requires { runs.now ≡ runs_of indexed.now.events list.now }
    ensures { AppendedOne result out.old out.new (AreRunsTold indexed.now list.now all) }
{
    let waiters = waiters_of(*out.allocator(), indexed, list)?;
    append_all(out, indexed, list, waiters.as_slice(), runs, all)?;
    Ok(())
}

/// Appends these runs of the list, given for each event one that waits for it.
fn append_all(
    out: &mut Vec<u8>,
    indexed: &Indexed,
    list: &[u32],
    waiters: &[Option<u32>],
    runs: &[Run],
    all: bool,
) -> Result<(), OutOfMemory>
    requires { runs.now ≡ runs_of indexed.now.events list.now }
    ensures { Appended result out.old out.new (runs_text indexed.now list.now waiters.now all) }
{
    let size = block_size(all, runs.len());
    append_shown(out, indexed, list, waiters, runs, size)?;
    Ok(())
}

/// How many of the runs become one block.
fn block_size(all: bool, runs: usize) -> usize
    ensures { result ≡ block_size all runs }
{
    if all || runs <= MOST_RUNS {
        0
    } else {
        runs - LAST_RUNS
    }
}

/// Appends the runs, the first `size` as one block.
fn append_shown(
    out: &mut Vec<u8>,
    indexed: &Indexed,
    list: &[u32],
    waiters: &[Option<u32>],
    runs: &[Run],
    size: usize,
) -> Result<(), OutOfMemory>
    ensures { Appended result out.old out.new (shown_text indexed.now list.now waiters.now runs.now size) }
{
    append_block(out, indexed, list, runs, size)?;
    append_each_run(out, indexed, list, waiters, runs, size)?;
    Ok(())
}

/// Appends each of the runs after the first `from`.
fn append_each_run(
    out: &mut Vec<u8>,
    indexed: &Indexed,
    list: &[u32],
    waiters: &[Option<u32>],
    runs: &[Run],
    from: usize,
) -> Result<(), OutOfMemory>
    ensures { Appended result out.old out.new (each_run_text indexed.now list.now waiters.now from (drop from runs.now)) }
{
    for at in from..runs.len() {
        append_run(out, indexed, list, waiters, runs[at], at as u64 + 1)?;
    }
    Ok(())
}

/// Appends a run: its first event, its last, and an event of another thread that waits for it.
fn append_run(
    out: &mut Vec<u8>,
    indexed: &Indexed,
    list: &[u32],
    waiters: &[Option<u32>],
    run: Run,
    number: u64,
) -> Result<(), OutOfMemory>
    ensures { Appended result out.old out.new (run_text indexed.now list.now waiters.now number run) }
{
    append_run_line(out, indexed, run, number)?;
    append_run_events(out, indexed, list, run)?;
    append_waiter(out, indexed, list, waiters, run.end.saturating_sub(1))?;
    Ok(())
}

/// The number of events of the run.
pub(crate) fn event_total(run: Run) -> u32
    ensures { result ≡ event_total run }
{
    run.end.saturating_sub(run.start)
}

/// Appends the line of the run: its number, its thread, and how many events it has.
fn append_run_line(
    out: &mut Vec<u8>,
    indexed: &Indexed,
    run: Run,
    number: u64,
) -> Result<(), OutOfMemory>
    ensures { Appended result out.old out.new (run_line indexed.now number run) }
{
    append_words(out, b"run ")?;
    append_number(out, number)?;
    append_words(out, b" of ")?;
    append_thread(out, indexed, run.thread)?;
    append_words(out, b", ")?;
    append_count(out, u64::from(event_total(run)), b"event")?;
    append_words(out, b"\n")?;
    Ok(())
}

/// Appends the first event of the run, and the last.
fn append_run_events(
    out: &mut Vec<u8>,
    indexed: &Indexed,
    list: &[u32],
    run: Run,
) -> Result<(), OutOfMemory>
    ensures { Appended result out.old out.new (run_events indexed.now list.now run) }
{
    append_place(out, indexed, list, run.start)?;
    append_gap(out, event_total(run))?;
    append_last(
        out,
        indexed,
        list,
        run.end.saturating_sub(1),
        event_total(run),
    )?;
    Ok(())
}

/// Appends the line between the first event of `count` and the last, if there are others.
fn append_gap(out: &mut Vec<u8>, count: u32) -> Result<(), OutOfMemory>
    ensures { Appended result out.old out.new (gap_line count) }
{
    if count > 2 {
        return append_words(out, b"  ..\n");
    }
    Ok(())
}

/// Appends the line of the last event of `count`, unless it is the first.
fn append_last(
    out: &mut Vec<u8>,
    indexed: &Indexed,
    list: &[u32],
    place: u32,
    count: u32,
) -> Result<(), OutOfMemory>
    ensures { Appended result out.old out.new (last_line indexed.now list.now place count) }
{
    if count > 1 {
        return append_place(out, indexed, list, place);
    }
    Ok(())
}

/// Appends the line of the event at this index.
fn append_place(
    out: &mut Vec<u8>,
    indexed: &Indexed,
    list: &[u32],
    place: u32,
) -> Result<(), OutOfMemory>
    ensures { Appended result out.old out.new (place_line indexed.now list.now place) }
{
    match list.get(place as usize) {
        Some(event) => append_indented(out, indexed, *event),
        None => Ok(()),
    }
}

/// Appends the line of the event after two blanks.
fn append_indented(out: &mut Vec<u8>, indexed: &Indexed, event: u32) -> Result<(), OutOfMemory>
    ensures { Appended result out.old out.new (place_by indexed.now (Some event)) }
{
    append_words(out, b"  ")?;
    append_line(out, indexed, event)?;
    Ok(())
}

/// Appends an event that waits for the one at this index, after the reason.
fn append_waiter(
    out: &mut Vec<u8>,
    indexed: &Indexed,
    list: &[u32],
    waiters: &[Option<u32>],
    place: u32,
) -> Result<(), OutOfMemory>
    ensures { Appended result out.old out.new (waiter_line indexed.now list.now waiters.now place) }
{
    match (list.get(place as usize), waiter_at(waiters, place)) {
        (Some(event), Some(waiter)) => append_reason(out, indexed, *event, waiter),
        _ => Ok(()),
    }
}

/// An event that waits for the one at this index.
pub(crate) fn waiter_at(waiters: &[Option<u32>], place: u32) -> Option<u32>
    ensures { result ≡ slice_index_or waiters.now place None }
{
    match waiters.get(place as usize) {
        Some(waiter) => *waiter,
        None => None,
    }
}

/// Appends the second event after the reason why it waits for the first.
fn append_reason(
    out: &mut Vec<u8>,
    indexed: &Indexed,
    first: u32,
    second: u32,
) -> Result<(), OutOfMemory>
    ensures { Appended result out.old out.new (waiter_by indexed.now (Some first) (Some second)) }
{
    append_words(out, b"  ")?;
    append_words(out, words_between(indexed, first, second))?;
    append_words(out, b" ")?;
    append_line(out, indexed, second)?;
    Ok(())
}
