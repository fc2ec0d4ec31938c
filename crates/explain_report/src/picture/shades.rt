//! Draws the bar at the left edge of a box, which is shaded where the thread holds a lock.
ghost use Rattle.explain_report.specs.declared.picture.class.Class.TheVariants.{Held as HeldPart};
ghost use Rattle.explain_report.specs.picture.Boxes.{AreBars, Drew, IsRect, Many};

use crate::Run;
use crate::event_lines::{op_of, thread_of};
use crate::picture::canvas::Canvas;
use crate::picture::class::Class;
use crate::picture::layout::Placed;
use event_index::Indexed;
use rapid_text::{Op, OutOfMemory};
use std::alloc::Global;

/// The width of the bar.
const BAR: u64 = 6;

/// The most shades of a picture in which each is drawn.
const MOST_SHADES: u64 = 100;

/// If there are more, the bar of a run with more than this many is shaded by its quarters.
const FEW_SHADES: u64 = 2;

/// Where the threads of a schedule hold locks.
#[derive(Drop)]
pub(crate) struct Held {
    /// For each index of the schedule, whether the thread of its event holds a lock before or after the event.
    events: Vec<bool>,
    /// Whether there are too many shades to draw each.
    is_coarse: bool,
}

/// Where the threads hold locks in the list, and whether these boxes have too many shades.
pub(crate) fn held_in(
    alloc: Global,
    indexed: &Indexed,
    list: &[u32],
    placed: &[Placed],
) -> Result<Held, OutOfMemory> {
    let mut events = Vec::new(alloc);
    note_held(&mut events, indexed, list)?;
    let is_coarse = shades_of(events.as_slice(), placed) > MOST_SHADES;
    Ok(Held { events, is_coarse })
}

/// Appends for each index of the list whether the thread of its event holds a lock before or after the event.
fn note_held(held: &mut Vec<bool>, indexed: &Indexed, list: &[u32]) -> Result<(), OutOfMemory> {
    let alloc = *held.allocator();
    let mut depths = vec![in alloc; 0u32; indexed.trace().raw().threads() as usize]?;
    for event in list {
        held.push(note_event(&mut depths, indexed, *event))?;
    }
    Ok(())
}

/// Updates the number of locks that the event's thread holds. Returns whether it holds one before or after the event.
fn note_event(depths: &mut Vec<u32>, indexed: &Indexed, event: u32) -> bool {
    let Some(thread) = thread_of(indexed, event) else {
        return false;
    };
    match depths.get_mut(thread as usize) {
        Some(depth) => note(depth, op_of(indexed, event)),
        None => false,
    }
}

/// Updates the number of locks held. Returns whether one is held before or after the operation.
fn note(depth: &mut u32, op: Option<Op>) -> bool {
    let before = *depth;
    match op {
        Some(Op::Acquire(_)) => *depth = before.saturating_add(1),
        Some(Op::Release(_)) => *depth = before.saturating_sub(1),
        _ => {}
    }
    before.max(*depth) > 0
}

/// The number of shades of the boxes.
fn shades_of(held: &[bool], placed: &[Placed]) -> u64 {
    let mut count = 0u64;
    for box_of_run in placed {
        count = count.saturating_add(shade_count(held, &box_of_run.run));
    }
    count
}

/// The number of the longest parts of the run in which its thread holds a lock.
fn shade_count(held: &[bool], run: &Run) -> u64 {
    let mut count = 0u64;
    let mut before = false;
    for at in run.start..run.end {
        let holds = holds_at(held, at);
        if holds && !before {
            count = count.saturating_add(1);
        }
        before = holds;
    }
    count
}

/// Whether a lock is held at this index of the list.
fn holds_at(held: &[bool], at: u32) -> bool {
    held.get(at as usize).copied().unwrap_or(false)
}

/// Draws the bar of a box.
pub(crate) fn draw_bar(
    canvas: &mut Canvas,
    left: u64,
    placed: &Placed,
    held: &Held,
) -> Result<(), OutOfMemory>
    ensures { Drew result canvas.old canvas.new AreBars }
{
    canvas.rect(Class::Edge, left, placed.top, BAR, placed.height)?;
    let mut parts = Vec::new(canvas.allocator());
    if held.is_coarse && shade_count(&held.events, &placed.run) > FEW_SHADES {
        note_quarters(&mut parts, &held.events, &placed.run)?;
    } else {
        note_parts(&mut parts, &held.events, &placed.run)?;
    }
    draw_shades(canvas, left, placed, parts.as_slice())?;
    Ok(())
}

/// Appends for each event of the run whether a lock is held.
fn note_parts(parts: &mut Vec<bool>, held: &[bool], run: &Run) -> Result<(), OutOfMemory> {
    for at in run.start..run.end {
        parts.push(holds_at(held, at))?;
    }
    Ok(())
}

/// Appends for each quarter of the run whether a lock is held anywhere in it.
fn note_quarters(parts: &mut Vec<bool>, held: &[bool], run: &Run) -> Result<(), OutOfMemory> {
    for quarter in 0..4u32 {
        let start = quarter_of(run, quarter);
        let end = quarter_of(run, quarter.saturating_add(1));
        parts.push(is_held_in(held, start, end))?;
    }
    Ok(())
}

/// The index at which a quarter of the run begins.
fn quarter_of(run: &Run, quarter: u32) -> u32 {
    let count = u64::from(run.end.saturating_sub(run.start));
    let before = count.saturating_mul(u64::from(quarter)) / 4;
    run.start
        .saturating_add(u32::try_from(before).unwrap_or(u32::MAX))
}

/// Whether a lock is held at an index from `start` up to `end`.
fn is_held_in(held: &[bool], start: u32, end: u32) -> bool {
    for at in start..end {
        if holds_at(held, at) {
            return true;
        }
    }
    false
}

/// Draws a shade for each longest row of parts that are to be shaded.
fn draw_shades(
    canvas: &mut Canvas,
    left: u64,
    placed: &Placed,
    parts: &[bool],
) -> Result<(), OutOfMemory>
    ensures { Drew result canvas.old canvas.new (Many (IsRect HeldPart)) }
{
    let count = (parts.len() as u64).max(1);
    let mut begun: Option<u64> = None;
    let mut place = 0u64;
    for holds in parts {
        let ended = if *holds { None } else { begun };
        draw_shade(canvas, left, placed, ended, place, count)?;
        begun = begun_at(begun, *holds, place);
        place = place.saturating_add(1);
    }
    draw_shade(canvas, left, placed, begun, place, count)?;
    Ok(())
}

/// Where the shade begins that goes on after this part, if one does.
fn begun_at(begun: Option<u64>, holds: bool, place: u64) -> Option<u64> {
    if !holds {
        return None;
    }
    begun.or(Some(place))
}

/// Draws the shade between two indices of the run, if a shade has begun.
fn draw_shade(
    canvas: &mut Canvas,
    left: u64,
    placed: &Placed,
    begun: Option<u64>,
    end: u64,
    count: u64,
) -> Result<(), OutOfMemory>
    ensures { Drew result canvas.old canvas.new (Many (IsRect HeldPart)) }
{
    let Some(start) = begun else {
        return Ok(());
    };
    let from = part_of(placed.height, start, count);
    let high = part_of(placed.height, end, count)
        .saturating_sub(from)
        .max(1);
    let top = placed.top.saturating_add(from);
    canvas.rect(Class::Held, left, top, BAR, high)?;
    Ok(())
}

/// `parts` of `count` parts of a height.
fn part_of(height: u64, parts: u64, count: u64) -> u64 {
    height.saturating_mul(parts).checked_div(count).unwrap_or(0)
}
