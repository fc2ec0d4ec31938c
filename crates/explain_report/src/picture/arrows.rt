//! Draws the arrows from a run to the event that waits for it.
ghost use Rattle.explain_report.specs.picture.Boxes.{Drew, IsArrow, Many};

use crate::event_lines::thread_of;
use crate::picture::canvas::Canvas;
use crate::picture::columns::Columns;
use crate::picture::layout::{BOX, Placed};
use crate::picture::shapes::Arrow;
use event_index::Indexed;
use rapid_text::OutOfMemory;

/// The distance that an arrow goes down before it turns, and after.
const BEND: u64 = 18;

/// Draws the arrows of all runs. The boxes are drawn over them later.
pub(crate) fn draw_arrows(
    canvas: &mut Canvas,
    indexed: &Indexed,
    columns: &Columns,
    list: &[u32],
    placed: &[Placed],
) -> Result<(), OutOfMemory>
    ensures { Drew result canvas.old canvas.new (Many IsArrow) }
{
    for from in placed {
        let to = pointed_at(indexed, list, placed, from);
        draw_if(canvas, columns, from, to)?;
    }
    Ok(())
}

/// Draws an arrow to this box, if there is one.
fn draw_if(
    canvas: &mut Canvas,
    columns: &Columns,
    from: &Placed,
    to: Option<&Placed>,
) -> Result<(), OutOfMemory>
    ensures { Drew result canvas.old canvas.new (Many IsArrow) }
{
    if let Some(to) = to {
        draw_arrow(canvas, columns, from, to)?;
    }
    Ok(())
}

/// The first later run that has the event which waits for this run.
fn pointed_at<'a>(
    indexed: &Indexed,
    list: &[u32],
    placed: &'a [Placed],
    from: &Placed,
) -> Option<&'a Placed> {
    let waiter = from.waiter?;
    let thread = thread_of(indexed, waiter);
    waiting_run(list, placed, from, thread, waiter)
}

/// The first later run of the thread that has the event.
fn waiting_run<'a>(
    list: &[u32],
    placed: &'a [Placed],
    from: &Placed,
    thread: Option<u32>,
    event: u32,
) -> Option<&'a Placed> {
    for to in placed {
        if to.number > from.number && thread == Some(to.run.thread) && has_event(list, to, event) {
            return Some(to);
        }
    }
    None
}

/// Whether the run has the event.
fn has_event(list: &[u32], placed: &Placed, event: u32) -> bool {
    for place in placed.run.start..placed.run.end {
        if list.get(place as usize).copied() == Some(event) {
            return true;
        }
    }
    false
}

/// Draws an arrow from the lower edge of one box to the upper edge of another.
fn draw_arrow(
    canvas: &mut Canvas,
    columns: &Columns,
    from: &Placed,
    to: &Placed,
) -> Result<(), OutOfMemory>
    ensures { Drew result canvas.old canvas.new IsArrow }
{
    let from_left = columns.left(from.run.thread);
    let to_left = columns.left(to.run.thread);
    let start = from.top.saturating_add(from.height);
    let x = from_left.saturating_add(BOX / 2);
    let to_x = to_left.saturating_add(if from_left < to_left {
        BOX / 4
    } else {
        BOX - BOX / 4
    });
    canvas.arrow(Arrow {
        from: (x, start),
        below: start.saturating_add(BEND),
        to: (to_x, to.top),
        above: to.top.saturating_sub(BEND),
    })?;
    Ok(())
}
