//! Chooses the runs that a picture draws one by one: all of a few; of many the last ones, and the last that those
//! waited for.
ghost use Rattle.std.specs.Prelude.{◌≡◌, ◌<◌, ◌≤◌, IfOk, Some, length, slice_get, true};
ghost use Rattle.explain_report.specs.picture.Boxes.{AreChosen};
ghost use Rattle.explain_report.specs.picture.Placing.{KeepsFrom};

use crate::Run;
use event_index::Indexed;
use rapid_text::OutOfMemory;
use std::alloc::Global;

/// The most runs that are drawn one by one.
pub(crate) const MOST_RUNS: usize = 40;

/// If there are more runs, this many of the last ones are drawn.
const LAST_RUNS: usize = 20;

/// For each run, whether it is drawn one by one.
pub(crate) fn chosen_runs(
    alloc: Global,
    indexed: &Indexed,
    list: &[u32],
    runs: &[Run],
    waiters: &[Option<u32>],
) -> Result<Vec<bool>, OutOfMemory>
    ensures { IfOk result (λ shown. AreChosen (length runs.now) shown.items) }
{
    let mut shown = vec![in alloc; true; runs.len()]?;
    if runs.len() > MOST_RUNS {
        let last = runs.len() - LAST_RUNS;
        let late = late_events(alloc, indexed, list, runs.get(last).copied())?;
        choose_earlier(&mut shown, late.as_slice(), runs, waiters, last);
    }
    Ok(shown)
}

/// For each event, whether it is in this run or a later one.
fn late_events(
    alloc: Global,
    indexed: &Indexed,
    list: &[u32],
    run: Option<Run>,
) -> Result<Vec<bool>, OutOfMemory> {
    let mut late = vec![in alloc; false; indexed.len() as usize]?;
    if let Some(run) = run {
        for event in list.iter().skip(run.start as usize) {
            if let Some(is_late) = late.get_mut(*event as usize) {
                *is_late = true;
            }
        }
    }
    Ok(late)
}

/// Of the runs before run `last`, keeps the last ones for which a late event waits.
fn choose_earlier(
    shown: &mut Vec<bool>,
    late: &[bool],
    runs: &[Run],
    waiters: &[Option<u32>],
    last: usize,
)
    requires { last ≤ length shown.old.items }
    ensures { KeepsFrom last shown.old.items shown.new.items }
{
    let mut left = MOST_RUNS - LAST_RUNS;
    for step in 0..last {
        let at = last - step - 1;
        let is_shown = left > 0 && is_waited_for(runs.get(at).copied(), late, waiters);
        shown[at] = is_shown;
        if is_shown {
            left -= 1;
        }
    }
}

/// Whether a marked event waits for an event of the run.
fn is_waited_for(run: Option<Run>, late: &[bool], waiters: &[Option<u32>]) -> bool {
    let Some(run) = run else {
        return false;
    };
    for place in run.start..run.end {
        if let Some(waiter) = waiters.get(place as usize).copied().flatten() {
            if late.get(waiter as usize).copied().unwrap_or(false) {
                return true;
            }
        }
    }
    false
}
