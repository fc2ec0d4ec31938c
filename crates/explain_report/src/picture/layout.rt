//! The positions of boxes.
ghost use Rattle.std.specs.Prelude.{◌≡◌, ◌++◌, OnOk, false, map, slice_index_or};
ghost use Rattle.explain_report.specs.picture.Boxes.{box_if, boxes_after, told_of};
ghost use Rattle.explain_report.specs.picture.Placing.{box_of};

use crate::Run;
use crate::run_lines::{event_total, waiter_at};
use rapid_text::OutOfMemory;

/// The width of a box.
pub(crate) const BOX: u64 = 296;

/// The distance between lines of text.
pub(crate) const LINE: u64 = 13;

/// The distance of the text from the left edge of a box.
pub(crate) const INDENT: u64 = 13;

/// The free space of a box, above and below its lines together.
const FREE: u64 = 9;

/// The free space between two boxes, for arrows.
pub(crate) const GAP: u64 = 22;

/// The top of the first box.
pub(crate) const TOP: u64 = 62;

/// The height of a box with this many lines.
pub(crate) fn height_of(lines: u64) -> u64 {
    lines.saturating_mul(LINE).saturating_add(FREE)
}

/// The baseline of line `line` of a box whose top is at `top`.
pub(crate) fn base_of(top: u64, line: u64) -> u64 {
    top.saturating_add(height_of(line)).saturating_add(5)
}

/// A run with its box.
#[derive(Clone, Copy)]
pub(crate) struct Placed {
    /// The run.
    pub(crate) run: Run,
    /// The run's number among all runs, counted from 1.
    pub(crate) number: u64,
    /// The event of another thread that waits for the run's last event.
    pub(crate) waiter: Option<u32>,
    /// The top of the run's box.
    pub(crate) top: u64,
    /// The height of the run's box.
    pub(crate) height: u64,
}

/// Appends the boxes of the runs that are drawn one by one, each below the one before. The top of the first is at
/// `top`.
pub(crate) fn place_runs(
    all: &mut Vec<Placed>,
    runs: &[Run],
    shown: &[bool],
    waiters: &[Option<u32>],
    top: u64,
) -> Result<(), OutOfMemory>
    ensures { OnOk result (map box_of all.new.items ≡ map box_of all.old.items ++ boxes_after waiters.now shown.now 0 runs.now) }
{
    let mut next = top;
    for at in 0..runs.len() {
        let placed = placed_at(runs[at], at as u64 + 1, waiters, next);
        next = place_run(all, placed, is_drawn(shown, at))?;
    }
    Ok(())
}

/// Appends the box, if its run is drawn. Returns the top of the next box.
fn place_run(all: &mut Vec<Placed>, placed: Placed, is_drawn: bool) -> Result<u64, OutOfMemory>
    ensures { OnOk result (map box_of all.new.items ≡ map box_of all.old.items ++ box_if is_drawn (box_of placed)) }
{
    let mut next = placed.top;
    if is_drawn {
        all.push(placed)?;
        next = next.saturating_add(placed.height).saturating_add(GAP);
    }
    Ok(next)
}

/// Whether the run at this index is drawn one by one.
fn is_drawn(shown: &[bool], at: usize) -> bool
    ensures { result ≡ slice_index_or shown.now at false }
{
    match shown.get(at) {
        Some(is_shown) => *is_shown,
        None => false,
    }
}

/// The box of a run, whose top is at `top`.
fn placed_at(run: Run, number: u64, waiters: &[Option<u32>], top: u64) -> Placed
    ensures { box_of result ≡ told_of number run waiters.now }
{
    let waiter = waiter_at(waiters, run.end.saturating_sub(1));
    Placed {
        run,
        number,
        waiter,
        top,
        height: height_of(lines_of(run, waiter)),
    }
}

/// The number of lines in the box of the run.
fn lines_of(run: Run, waiter: Option<u32>) -> u64 {
    let events = if event_total(run) > 1 { 3 } else { 2 };
    if waiter.is_some() { events + 1 } else { events }
}

/// The end of the last box and the free space below it; `top` if there is no box.
pub(crate) fn end_of(placed: &[Placed], top: u64) -> u64 {
    match placed.last() {
        Some(last) => last.top.saturating_add(last.height).saturating_add(GAP),
        None => top,
    }
}
