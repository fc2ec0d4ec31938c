//! The boxes of runs.
ghost use Rattle.std.specs.Prelude.{◌≡◌, ◌-◌, nat_lt, slice_get};
ghost use Rattle.explain_report.specs.RunTexts.{event_total};
ghost use Rattle.explain_report.specs.picture.Boxes.{AreLines, Drew, If, IsEarlier, IsEarlierEvents, IsEarlierRuns, IsEvent, IsLine, IsReason, IsRect, IsRunBox, count_words, label_words, reason_words};
ghost use Rattle.explain_report.specs.declared.picture.class.Class.TheVariants.{Note};
ghost use Rattle.explain_report.specs.picture.Placing.{box_of};

use crate::Run;
use crate::picture::canvas::Canvas;
use crate::picture::class::Class;
use crate::picture::columns::{Columns, MARGIN};
use crate::picture::labels::{append_label, append_reason, append_run_words, draw_line};
use crate::picture::layout::{BOX, GAP, INDENT, Placed, TOP, base_of, height_of};
use crate::picture::shades::{Held, draw_bar};
use crate::pieces::{append_count, append_words};
use crate::run_lines::event_total;
use event_index::Indexed;
use rapid_text::OutOfMemory;

/// Draws an empty box.
pub(crate) fn draw_box(
    canvas: &mut Canvas,
    class: Class,
    left: u64,
    top: u64,
    height: u64,
) -> Result<(), OutOfMemory>
    ensures { Drew result canvas.old canvas.new (IsRect class) }
{
    canvas.rect(class, left, top, BOX, height)?;
    Ok(())
}

/// A line of a box: the position of the box, and the number of the line, counted from 0.
#[derive(Clone, Copy)]
pub(crate) struct BoxLine {
    pub(crate) left: u64,
    pub(crate) top: u64,
    pub(crate) line: u64,
}

/// Draws a line of a box.
pub(crate) fn draw_box_line(
    canvas: &mut Canvas,
    class: Class,
    at: BoxLine,
    text: &[u8],
) -> Result<(), OutOfMemory>
    ensures { Drew result canvas.old canvas.new (IsLine class text.now) }
{
    let left = at.left.saturating_add(INDENT);
    draw_line(canvas, class, left, base_of(at.top, at.line), text)?;
    Ok(())
}

/// Draws the box of a run: its number of events, its first, its last, and the event of another thread that waits for
/// it.
pub(crate) fn draw_run(
    canvas: &mut Canvas,
    indexed: &Indexed,
    columns: &Columns,
    list: &[u32],
    held: &Held,
    placed: &Placed,
) -> Result<(), OutOfMemory>
    ensures { Drew result canvas.old canvas.new (IsRunBox indexed.now list.now (box_of placed.now)) }
{
    let left = columns.left(placed.run.thread);
    draw_box(canvas, Class::Run, left, placed.top, placed.height)?;
    draw_bar(canvas, left, placed, held)?;
    draw_lines(canvas, indexed, list, placed, left)?;
    Ok(())
}

/// Draws the lines of the box.
fn draw_lines(
    canvas: &mut Canvas,
    indexed: &Indexed,
    list: &[u32],
    placed: &Placed,
    left: u64,
) -> Result<(), OutOfMemory>
    ensures { Drew result canvas.old canvas.new (AreLines indexed.now list.now (box_of placed.now)) }
{
    draw_count(canvas, indexed, placed, left)?;
    draw_first(canvas, indexed, list, placed, left)?;
    let last = last_of(list, placed);
    let line = last_line_of(placed);
    draw_event(canvas, indexed, last, line_of(placed, left, line))?;
    let at = line_of(placed, left, line.saturating_add(1));
    draw_reason(canvas, indexed, last, placed.waiter, at)?;
    Ok(())
}

/// Draws the line with the number of the run, its number of events, and its thread.
fn draw_count(
    canvas: &mut Canvas,
    indexed: &Indexed,
    placed: &Placed,
    left: u64,
) -> Result<(), OutOfMemory>
    ensures { Drew result canvas.old canvas.new (IsLine Note (count_words indexed.now placed.now.number placed.now.run)) }
{
    let mut text = Vec::new(canvas.allocator());
    append_run_words(&mut text, indexed, placed.number, placed.run)?;
    draw_box_line(
        canvas,
        Class::Note,
        line_of(placed, left, 0),
        text.as_slice(),
    )?;
    Ok(())
}

/// Draws the line of the first event of the run, unless it is the last too.
fn draw_first(
    canvas: &mut Canvas,
    indexed: &Indexed,
    list: &[u32],
    placed: &Placed,
    left: u64,
) -> Result<(), OutOfMemory>
    ensures { Drew result canvas.old canvas.new (If (nat_lt 1 (event_total placed.now.run)) (IsEvent indexed.now (slice_get list.now placed.now.run.start))) }
{
    let count = event_total(placed.run);
    if count > 1 {
        let first = first_of(list, placed);
        draw_event(canvas, indexed, first, line_of(placed, left, 1))?;
    }
    Ok(())
}

/// The first event of the run.
fn first_of(list: &[u32], placed: &Placed) -> Option<u32>
    ensures { result ≡ slice_get list.now placed.now.run.start }
{
    list.get(placed.run.start as usize).copied()
}

/// The last event of the run.
fn last_of(list: &[u32], placed: &Placed) -> Option<u32>
    ensures { result ≡ slice_get list.now (placed.now.run.end - 1) }
{
    list.get(placed.run.end.saturating_sub(1) as usize).copied()
}

/// The number of the line of the last event.
fn last_line_of(placed: &Placed) -> u64 {
    if event_total(placed.run) > 1 { 2 } else { 1 }
}

/// A line of the box of a run.
fn line_of(placed: &Placed, left: u64, line: u64) -> BoxLine {
    BoxLine {
        left,
        top: placed.top,
        line,
    }
}

/// Draws a line with the event, if there is one.
fn draw_event(
    canvas: &mut Canvas,
    indexed: &Indexed,
    event: Option<u32>,
    at: BoxLine,
) -> Result<(), OutOfMemory>
    ensures { Drew result canvas.old canvas.new (IsEvent indexed.now event) }
{
    match event {
        Some(event) => draw_label(canvas, Class::Event, indexed, event, at),
        None => Ok(()),
    }
}

/// Draws a line of a box with the event.
pub(crate) fn draw_label(
    canvas: &mut Canvas,
    class: Class,
    indexed: &Indexed,
    event: u32,
    at: BoxLine,
) -> Result<(), OutOfMemory>
    ensures { Drew result canvas.old canvas.new (IsLine class (label_words indexed.now event)) }
{
    let mut text = Vec::new(canvas.allocator());
    append_label(&mut text, indexed, event)?;
    draw_box_line(canvas, class, at, text.as_slice())?;
    Ok(())
}

/// Draws the line with the reason why the second event waits for the first, if there are two.
fn draw_reason(
    canvas: &mut Canvas,
    indexed: &Indexed,
    event: Option<u32>,
    waiter: Option<u32>,
    at: BoxLine,
) -> Result<(), OutOfMemory>
    ensures { Drew result canvas.old canvas.new (IsReason indexed.now event waiter) }
{
    match (event, waiter) {
        (Some(first), Some(second)) => draw_waiter(canvas, indexed, first, second, at),
        _ => Ok(()),
    }
}

/// Draws the line with the reason why the second event waits for the first.
fn draw_waiter(
    canvas: &mut Canvas,
    indexed: &Indexed,
    first: u32,
    second: u32,
    at: BoxLine,
) -> Result<(), OutOfMemory>
    ensures { Drew result canvas.old canvas.new (IsLine Note (reason_words indexed.now first second)) }
{
    let mut text = Vec::new(canvas.allocator());
    append_reason(&mut text, indexed, first, second)?;
    draw_box_line(canvas, Class::Note, at, text.as_slice())?;
    Ok(())
}

/// Draws one box for the runs that are not drawn one by one: their number, and the numbers of their threads and of
/// their events.
pub(crate) fn draw_earlier(
    canvas: &mut Canvas,
    indexed: &Indexed,
    runs: &[Run],
    shown: &[bool],
) -> Result<(), OutOfMemory>
    ensures { Drew result canvas.old canvas.new IsEarlier }
{
    let alloc = canvas.allocator();
    let mut seen = vec![in alloc; false; indexed.trace().raw().threads() as usize]?;
    let earlier = earlier_of(runs, shown, &mut seen);
    draw_box(canvas, Class::Run, MARGIN, TOP, height_of(2))?;
    draw_earlier_runs(canvas, earlier)?;
    draw_earlier_events(canvas, earlier.events)?;
    Ok(())
}

/// Draws the line with the number of the earlier runs and of their threads.
fn draw_earlier_runs(canvas: &mut Canvas, earlier: Earlier) -> Result<(), OutOfMemory>
    ensures { Drew result canvas.old canvas.new (IsEarlierRuns earlier.runs earlier.threads) }
{
    let mut text = Vec::new(canvas.allocator());
    append_count(&mut text, earlier.runs, b"earlier run")?;
    append_words(&mut text, b" of ")?;
    append_count(&mut text, earlier.threads, b"thread")?;
    draw_box_line(canvas, Class::Note, earlier_line(0), text.as_slice())?;
    Ok(())
}

/// Draws the line with the number of their events.
fn draw_earlier_events(canvas: &mut Canvas, events: u64) -> Result<(), OutOfMemory>
    ensures { Drew result canvas.old canvas.new (IsEarlierEvents events) }
{
    let mut text = Vec::new(canvas.allocator());
    append_count(&mut text, events, b"event")?;
    draw_box_line(canvas, Class::Note, earlier_line(1), text.as_slice())?;
    Ok(())
}

/// The height of the box of earlier runs, with the free space below it.
pub(crate) fn earlier_height() -> u64 {
    height_of(2).saturating_add(GAP)
}

/// A line of that box.
fn earlier_line(line: u64) -> BoxLine {
    BoxLine {
        left: MARGIN,
        top: TOP,
        line,
    }
}

/// The number of runs that are not drawn one by one, of their threads, and of their events.
#[derive(Clone, Copy)]
struct Earlier {
    runs: u64,
    threads: u64,
    events: u64,
}

/// Counts the runs that are not shown. `seen` has no thread yet.
fn earlier_of(runs: &[Run], shown: &[bool], seen: &mut Vec<bool>) -> Earlier {
    let mut earlier = Earlier {
        runs: 0,
        threads: 0,
        events: 0,
    };
    let mut at = 0usize;
    for run in runs {
        if !shown.get(at).copied().unwrap_or(true) {
            earlier = with_run(earlier, run, is_first(seen, run.thread));
        }
        at = at.saturating_add(1);
    }
    earlier
}

/// Counts one more run; and its thread, if `is_new` is true.
fn with_run(earlier: Earlier, run: &Run, is_new: bool) -> Earlier {
    Earlier {
        runs: earlier.runs.saturating_add(1),
        threads: earlier.threads.saturating_add(if is_new { 1 } else { 0 }),
        events: earlier.events.saturating_add(u64::from(event_total(*run))),
    }
}

/// Whether the thread is new in `seen`, which then has it.
fn is_first(seen: &mut Vec<bool>, thread: u32) -> bool {
    let Some(is_seen) = seen.get_mut(thread as usize) else {
        return false;
    };
    let is_new = !*is_seen;
    *is_seen = true;
    is_new
}
