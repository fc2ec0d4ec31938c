//! Draws the two accesses at the bottom, one below the other, so that a narrow page shows both.
ghost use Rattle.std.specs.Prelude.{◌≡◌, ◌-◌, ◌<◌, IfOk, length, nat_lt, take};
ghost use Rattle.explain_report.specs.Accesses.{held_locks};
ghost use Rattle.explain_report.specs.Chains.{thread_name as name_of_thread};
ghost use Rattle.explain_report.specs.picture.Boxes.{AreAccessLines, AreLocks, Drew, Each, If, IsAccessBox, IsLine, IsRect, Then, held_words, more_words};
ghost use Rattle.explain_report.specs.declared.picture.class.Class.TheVariants.{Event as EventLine, Name, Note, Race};

use crate::event_lines::append_thread_of;
use crate::picture::canvas::Canvas;
use crate::picture::class::Class;
use crate::picture::columns::MARGIN;
use crate::picture::labels::{append_held, append_more};
use crate::picture::layout::height_of;
use crate::picture::rows::{BoxLine, draw_box, draw_box_line, draw_label};
use event_index::Indexed;
use must_order::Analysis;
use rapid_text::OutOfMemory;
use std::alloc::Global;

/// The most locks that are named, of the locks held before an access.
const MOST_LOCKS: usize = 8;

/// The locks that the event's thread holds before it, in rising order of their numbers. None if the trace lacks the
/// event.
pub(crate) fn locks_before(
    alloc: Global,
    analysis: &Analysis<'_>,
    event: u32,
) -> Result<Vec<u32>, OutOfMemory>
    ensures { IfOk result (λ locks. event < length analysis.now.events → locks.items ≡ held_locks analysis.now event) }
{
    if event < analysis.indexed().len() {
        return found_locks(alloc, analysis, event);
    }
    Ok(Vec::new(alloc))
}

/// The same for an event of the trace.
fn found_locks(alloc: Global, analysis: &Analysis<'_>, event: u32) -> Result<Vec<u32>, OutOfMemory>
    requires { event < length analysis.now.events }
    ensures { IfOk result (λ locks. locks.items ≡ held_locks analysis.now event) }
{
    let locks = analysis.locks_held(alloc, event)?;
    Ok(locks)
}

/// The height of an access's box with these locks.
pub(crate) fn access_height(locks: &[u32]) -> u64 {
    let lines = locks.len().min(MOST_LOCKS.saturating_add(1)) as u64;
    height_of(lines.saturating_add(2))
}

/// Draws the box of an access at the left edge: the thread, the event, and the locks that the thread holds before it.
/// Draws nothing if the trace lacks the event.
pub(crate) fn draw_access(
    canvas: &mut Canvas,
    indexed: &Indexed,
    event: u32,
    locks: &[u32],
    top: u64,
) -> Result<(), OutOfMemory>
    requires { event < length indexed.now.events → locks.now ≡ held_locks indexed.now event }
    ensures { Drew result canvas.old canvas.new (IsAccessBox indexed.now event) }
{
    if event < indexed.len() {
        draw_found(canvas, indexed, event, locks, top)?;
    }
    Ok(())
}

/// Draws the box of an event that the trace has.
fn draw_found(
    canvas: &mut Canvas,
    indexed: &Indexed,
    event: u32,
    locks: &[u32],
    top: u64,
) -> Result<(), OutOfMemory>
    requires { locks.now ≡ held_locks indexed.now event }
    ensures { Drew result canvas.old canvas.new (Then (IsRect Race) (AreAccessLines indexed.now event)) }
{
    draw_box(canvas, Class::Race, MARGIN, top, access_height(locks))?;
    draw_lines(canvas, indexed, event, locks, top)?;
    Ok(())
}

/// Draws the lines of the box.
fn draw_lines(
    canvas: &mut Canvas,
    indexed: &Indexed,
    event: u32,
    locks: &[u32],
    top: u64,
) -> Result<(), OutOfMemory>
    requires { locks.now ≡ held_locks indexed.now event }
    ensures { Drew result canvas.old canvas.new (AreAccessLines indexed.now event) }
{
    draw_thread(canvas, indexed, event, line_at(top, 0))?;
    draw_label(canvas, Class::Access, indexed, event, line_at(top, 1))?;
    draw_locks(canvas, indexed, locks, top)?;
    Ok(())
}

/// Draws the line with the thread of the event.
fn draw_thread(
    canvas: &mut Canvas,
    indexed: &Indexed,
    event: u32,
    at: BoxLine,
) -> Result<(), OutOfMemory>
    ensures { Drew result canvas.old canvas.new (IsLine Name (name_of_thread indexed.now event)) }
{
    let mut text = Vec::new(canvas.allocator());
    append_thread_of(&mut text, indexed, event)?;
    draw_box_line(canvas, Class::Name, at, text.as_slice())?;
    Ok(())
}

/// A line of a box at the left edge.
fn line_at(top: u64, line: u64) -> BoxLine {
    BoxLine {
        left: MARGIN,
        top,
        line,
    }
}

/// Draws a line for each of the first eight locks, and one line with the number of further locks.
fn draw_locks(
    canvas: &mut Canvas,
    indexed: &Indexed,
    locks: &[u32],
    top: u64,
) -> Result<(), OutOfMemory>
    ensures { Drew result canvas.old canvas.new (AreLocks indexed.now locks.now) }
{
    draw_named(canvas, indexed, first_of(locks), top)?;
    draw_more(canvas, locks.len() as u64, line_at(top, 10))?;
    Ok(())
}

/// The first eight locks, or all of fewer.
fn first_of(locks: &[u32]) -> &[u32]
    ensures { result.now ≡ take 8 locks.now }
{
    if MOST_LOCKS < locks.len() {
        &locks[..MOST_LOCKS]
    } else {
        locks
    }
}

/// Draws a line for each of the locks.
fn draw_named(
    canvas: &mut Canvas,
    indexed: &Indexed,
    locks: &[u32],
    top: u64,
) -> Result<(), OutOfMemory>
    ensures { Drew result canvas.old canvas.new (Each (λ l. IsLine EventLine (held_words indexed.now l)) locks.now) }
{
    let mut line = 2u64;
    for lock in locks {
        draw_held(canvas, indexed, *lock, line_at(top, line))?;
        line = line.saturating_add(1);
    }
    Ok(())
}

/// Draws the line of a lock.
fn draw_held(
    canvas: &mut Canvas,
    indexed: &Indexed,
    lock: u32,
    at: BoxLine,
) -> Result<(), OutOfMemory>
    ensures { Drew result canvas.old canvas.new (IsLine EventLine (held_words indexed.now lock)) }
{
    let mut text = Vec::new(canvas.allocator());
    append_held(&mut text, indexed, lock)?;
    draw_box_line(canvas, Class::Event, at, text.as_slice())?;
    Ok(())
}

/// Draws the line with the number of the locks after the first eight, if there are more.
fn draw_more(canvas: &mut Canvas, count: u64, at: BoxLine) -> Result<(), OutOfMemory>
    ensures { Drew result canvas.old canvas.new (If (nat_lt 8 count) (IsLine Note (more_words (count - 8)))) }
{
    if count > 8 {
        draw_rest(canvas, count - 8, at)?;
    }
    Ok(())
}

/// Draws the line with the number of further locks.
fn draw_rest(canvas: &mut Canvas, count: u64, at: BoxLine) -> Result<(), OutOfMemory>
    ensures { Drew result canvas.old canvas.new (IsLine Note (more_words count)) }
{
    let mut text = Vec::new(canvas.allocator());
    append_more(&mut text, count)?;
    draw_box_line(canvas, Class::Note, at, text.as_slice())?;
    Ok(())
}
