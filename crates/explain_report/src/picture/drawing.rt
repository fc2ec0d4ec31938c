//! Draws the schedule that shows a pair.
ghost use Rattle.std.specs.Prelude.{◌≡◌, ◌<◌, IfOk, OnErr, codes, length, map, nat_lt};
ghost use Rattle.explain_report.specs.Accesses.{held_locks};
ghost use Rattle.explain_report.specs.Runs.{runs_of};
ghost use Rattle.explain_report.specs.Waiting.{AreWaiters};
ghost use Rattle.explain_report.specs.declared.picture.class.Class.TheVariants.{Name};
ghost use Rattle.explain_report.specs.picture.Boxes.{AreOf, ArePair, AreRunBoxes, Drew, Each, HasNames, If, IsEarlier, IsLine, IsRunBox, IsWhole, top_text};
ghost use Rattle.explain_report.specs.picture.Pictures.{IsFigure, IsPicture, IsStyled};
ghost use Rattle.explain_report.specs.picture.Placing.{IsDrawing, IsPlacement, box_of};
ghost use Rattle.rapid_text.specs.Appended.{AppendedOne};
ghost use Rattle.rapid_text.specs.Canonical.{name_at};

use crate::picture::accesses::{access_height, draw_access, locks_before};
use crate::picture::arrows::draw_arrows;
use crate::picture::canvas::Canvas;
use crate::picture::choosing::{MOST_RUNS, chosen_runs};
use crate::picture::class::Class;
use crate::picture::columns::{Columns, MARGIN, SHARED, columns_of, left_of};
use crate::picture::head::{Size, append_description, append_drawn, append_root};
use crate::picture::labels::{draw_line, thread_name};
use crate::picture::layout::{GAP, Placed, TOP, end_of, place_runs};
use crate::picture::rows::{draw_earlier, draw_run, earlier_height};
use crate::picture::shades::{Held, held_in};
use crate::picture::style::STYLE;
use crate::pieces::{append_count, append_number, append_words};
use crate::{Run, runs_of, waiters_of};
use event_index::Indexed;
use must_order::Analysis;
use rapid_text::OutOfMemory;
use std::alloc::Global;

/// The runs of a drawing, and the positions of their boxes.
#[derive(Drop)]
struct Placement {
    runs: Vec<Run>,
    shown: Vec<bool>,
    placed: Vec<Placed>,
    end: u64,
}

/// The runs of the schedule, and the positions of the boxes of the drawn runs.
fn placement_of(alloc: Global, indexed: &Indexed, events: &[u32]) -> Result<Placement, OutOfMemory>
    ensures { IfOk result (IsPlacement indexed.now events.now) }
{
    let runs = runs_of(alloc, indexed, events)?;
    let waiters = waiters_of(alloc, indexed, events)?;
    let placement = place_with(alloc, indexed, events, runs, waiters.as_slice())?;
    Ok(placement)
}

/// The same, given the runs, and for each event one that waits for it.
fn place_with(
    alloc: Global,
    indexed: &Indexed,
    events: &[u32],
    runs: Vec<Run>,
    waiters: &[Option<u32>],
) -> Result<Placement, OutOfMemory>
    requires runs { runs.items ≡ runs_of indexed.now.events events.now }
    requires waiters { AreWaiters indexed.now.events events.now waiters.now }
    ensures { IfOk result (IsPlacement indexed.now events.now) }
{
    let shown = chosen_runs(alloc, indexed, events, runs.as_slice(), waiters)?;
    let top = top_of(runs.len());
    let mut placed = Vec::new(alloc);
    place_runs(&mut placed, runs.as_slice(), shown.as_slice(), waiters, top)?;
    let end = end_of(placed.as_slice(), top);
    Ok(Placement {
        runs,
        shown,
        placed,
        end,
    })
}

/// The top of the first box of a run.
fn top_of(runs: usize) -> u64 {
    if runs > MOST_RUNS {
        TOP.saturating_add(earlier_height())
    } else {
        TOP
    }
}

/// The parts of a drawing, and their positions.
#[derive(Drop)]
struct Drawing {
    placement: Placement,
    columns: Columns,
    held: Held,
    first_locks: Vec<u32>,
    second_locks: Vec<u32>,
}

/// The parts of a drawing of the schedule.
fn drawing_of(
    alloc: Global,
    analysis: &Analysis<'_>,
    events: &[u32],
    first: u32,
    second: u32,
) -> Result<Drawing, OutOfMemory>
    ensures { IfOk result (IsDrawing analysis.now events.now first second) }
{
    let indexed = analysis.indexed();
    let placement = placement_of(alloc, indexed, events)?;
    let columns = columns_of(alloc, indexed, placement.placed.as_slice(), first, second)?;
    let held = held_in(alloc, indexed, events, placement.placed.as_slice())?;
    let first_locks = locks_before(alloc, analysis, first)?;
    let second_locks = locks_before(alloc, analysis, second)?;
    Ok(Drawing {
        placement,
        columns,
        held,
        first_locks,
        second_locks,
    })
}

impl Drawing {
    /// The top of the second access's box, below that of the first.
    fn below_first(&self) -> u64 {
        let top = self.placement.end.saturating_add(GAP);
        top.saturating_add(access_height(self.first_locks.as_slice()))
            .saturating_add(MARGIN)
    }

    /// The size of the drawing.
    fn size(&self) -> Size {
        let bottom = self
            .below_first()
            .saturating_add(access_height(self.second_locks.as_slice()));
        Size::new(self.columns.width(), bottom.saturating_add(MARGIN))
    }
}

/// Appends a picture (SVG) of the schedule `events`, which shows the pair. It has a column for each thread, a box for
/// each run below the one before, and the two accesses at the bottom. If there are more than 40 runs, it draws the last
/// 20, and the last 20 that those waited for; the rest is one box. If there are more than four threads, all except the
/// two of the pair share a column. If memory runs out, `out` stays as it was.
pub fn picture_text(
    analysis: &Analysis<'_>,
    events: &[u32],
    first: u32,
    second: u32,
    out: &mut Vec<u8>,
) -> Result<(), OutOfMemory>
    // The picture names the pair, and the events of the schedule if there are at most 2,000. Else it counts them. It has
    // a box for each run, in their order, with its first and last event. The box may name an event, and then that waits
    // for the last one. If there are more than 40 runs, there is a box for each of the last 20, and maybe for others. It
    // has a box for each access, with the locks that are held before it.
    ensures ok { AppendedOne result out.old out.new (IsPicture analysis.now events.now first second) }
    ensures err { OnErr result (out.new.items ≡ out.old.items) }
{
    styled_text(analysis, events, (first, second), STYLE, out)
}

/// Appends the same picture without its style, for a page that has the style itself. If memory runs out, `out` stays
/// as it was.
pub fn figure_text(
    analysis: &Analysis<'_>,
    events: &[u32],
    first: u32,
    second: u32,
    out: &mut Vec<u8>,
) -> Result<(), OutOfMemory>
    // The figure has the title, the description and the boxes of a picture.
    ensures ok { AppendedOne result out.old out.new (IsFigure analysis.now events.now first second) }
    ensures err { OnErr result (out.new.items ≡ out.old.items) }
{
    styled_text(analysis, events, (first, second), b"", out)
}

/// Appends the picture with this style, all of it or nothing.
fn styled_text(
    analysis: &Analysis<'_>,
    events: &[u32],
    pair: (u32, u32),
    style: &[u8],
    out: &mut Vec<u8>,
) -> Result<(), OutOfMemory>
    ensures ok { AppendedOne result out.old out.new (IsStyled analysis.now style.now events.now pair.0 pair.1) }
    ensures err { OnErr result (out.new.items ≡ out.old.items) }
{
    let mut text = Vec::new(*out.allocator());
    append_styled(&mut text, analysis, events, pair, style)?;
    out.extend_from_slice(text.as_slice())?;
    Ok(())
}

/// Appends the picture. If memory runs out, part of it may already be appended.
fn append_styled(
    out: &mut Vec<u8>,
    analysis: &Analysis<'_>,
    events: &[u32],
    pair: (u32, u32),
    style: &[u8],
) -> Result<(), OutOfMemory>
    ensures { AppendedOne result out.old out.new (IsStyled analysis.now style.now events.now pair.0 pair.1) }
{
    let alloc = *out.allocator();
    let drawing = drawing_of(alloc, analysis, events, pair.0, pair.1)?;
    append_drawing(out, analysis.indexed(), &drawing, events, pair, style)?;
    Ok(())
}

/// Appends this drawing.
fn append_drawing(
    out: &mut Vec<u8>,
    indexed: &Indexed,
    drawing: &Drawing,
    events: &[u32],
    pair: (u32, u32),
    style: &[u8],
) -> Result<(), OutOfMemory>
    requires { IsDrawing indexed.now events.now pair.0 pair.1 drawing.now }
    ensures { AppendedOne result out.old out.new (IsStyled indexed.now style.now events.now pair.0 pair.1) }
{
    let mut canvas = Canvas::new(*out.allocator());
    draw_all(&mut canvas, indexed, drawing, events, pair)?;
    append_root(out, drawing.size())?;
    append_description(out, events, pair.0, pair.1)?;
    append_words(out, style)?;
    append_drawn(out, canvas.bytes())?;
    Ok(())
}

/// Draws all parts.
fn draw_all(
    canvas: &mut Canvas,
    indexed: &Indexed,
    drawing: &Drawing,
    events: &[u32],
    pair: (u32, u32),
) -> Result<(), OutOfMemory>
    requires { IsDrawing indexed.now events.now pair.0 pair.1 drawing.now }
    ensures { Drew result canvas.old canvas.new (AreOf indexed.now events.now pair.0 pair.1) }
{
    let runs = drawing.placement.runs.as_slice();
    let placed = drawing.placement.placed.as_slice();
    draw_top_line(canvas, runs.len(), events.len(), pair)?;
    draw_names(canvas, indexed, &drawing.columns)?;
    draw_arrows(canvas, indexed, &drawing.columns, events, placed)?;
    draw_runs(canvas, indexed, drawing, events)?;
    draw_pair(canvas, indexed, drawing, pair)?;
    Ok(())
}

/// Draws the line at the top.
fn draw_top_line(
    canvas: &mut Canvas,
    runs: usize,
    events: usize,
    pair: (u32, u32),
) -> Result<(), OutOfMemory>
    ensures { Drew result canvas.old canvas.new (IsWhole Name (top_text runs events pair.0 pair.1)) }
{
    let mut text = Vec::new(canvas.allocator());
    append_number(&mut text, u64::from(pair.0))?;
    append_words(&mut text, b" and ")?;
    append_number(&mut text, u64::from(pair.1))?;
    append_words(&mut text, b": after ")?;
    append_count(&mut text, events as u64, b"event")?;
    append_words(&mut text, b" in ")?;
    append_count(&mut text, runs as u64, b"run")?;
    append_words(&mut text, b" both are next")?;
    canvas.line(Class::Name, MARGIN, 20, text.as_slice())?;
    Ok(())
}

/// Draws above each column the name of its thread, or that several threads share it.
fn draw_names(canvas: &mut Canvas, indexed: &Indexed, columns: &Columns) -> Result<(), OutOfMemory>
    ensures { Drew result canvas.old canvas.new (HasNames indexed.now) }
{
    draw_own(canvas, indexed, columns, columns.own())?;
    draw_shared(canvas, columns.is_shared())?;
    Ok(())
}

/// Draws the names of the threads above their columns.
fn draw_own(
    canvas: &mut Canvas,
    indexed: &Indexed,
    columns: &Columns,
    threads: &[u32],
) -> Result<(), OutOfMemory>
    ensures { Drew result canvas.old canvas.new (Each (λ t. IsLine Name (name_at indexed.now.threads t)) threads.now) }
{
    for thread in threads {
        let name = thread_name(indexed, *thread);
        draw_line(canvas, Class::Name, columns.left(*thread), 48, name)?;
    }
    Ok(())
}

/// Draws the name of the column that threads share, if there is one.
fn draw_shared(canvas: &mut Canvas, is_shared: bool) -> Result<(), OutOfMemory>
    ensures { Drew result canvas.old canvas.new (If is_shared (IsLine Name (codes "other threads"))) }
{
    if is_shared {
        draw_line(canvas, Class::Name, left_of(SHARED), 48, b"other threads")?;
    }
    Ok(())
}

/// Draws the boxes of the runs.
fn draw_runs(
    canvas: &mut Canvas,
    indexed: &Indexed,
    drawing: &Drawing,
    events: &[u32],
) -> Result<(), OutOfMemory>
    requires { drawing.now.placement.runs.items ≡ runs_of indexed.now.events events.now }
    ensures { Drew result canvas.old canvas.new (AreRunBoxes indexed.now events.now (map box_of drawing.now.placement.placed.items)) }
{
    draw_others(canvas, indexed, &drawing.placement)?;
    let placed = drawing.placement.placed.as_slice();
    draw_placed(
        canvas,
        indexed,
        &drawing.columns,
        events,
        &drawing.held,
        placed,
    )?;
    Ok(())
}

/// Draws the box of the runs that are not drawn one by one, if there are more than 40 runs.
fn draw_others(
    canvas: &mut Canvas,
    indexed: &Indexed,
    placement: &Placement,
) -> Result<(), OutOfMemory>
    ensures { Drew result canvas.old canvas.new (If (nat_lt 40 (length placement.now.runs.items)) IsEarlier) }
{
    if placement.runs.len() > 40 {
        let shown = placement.shown.as_slice();
        draw_earlier(canvas, indexed, placement.runs.as_slice(), shown)?;
    }
    Ok(())
}

/// Draws the boxes of the runs that are drawn one by one.
fn draw_placed(
    canvas: &mut Canvas,
    indexed: &Indexed,
    columns: &Columns,
    events: &[u32],
    held: &Held,
    placed: &[Placed],
) -> Result<(), OutOfMemory>
    ensures { Drew result canvas.old canvas.new (Each (λ p. IsRunBox indexed.now events.now (box_of p)) placed.now) }
{
    for one in placed {
        draw_run(canvas, indexed, columns, events, held, one)?;
    }
    Ok(())
}

/// Draws the two accesses.
fn draw_pair(
    canvas: &mut Canvas,
    indexed: &Indexed,
    drawing: &Drawing,
    pair: (u32, u32),
) -> Result<(), OutOfMemory>
    requires first { pair.0 < length indexed.now.events → drawing.now.first_locks.items ≡ held_locks indexed.now pair.0 }
    requires second { pair.1 < length indexed.now.events → drawing.now.second_locks.items ≡ held_locks indexed.now pair.1 }
    ensures { Drew result canvas.old canvas.new (ArePair indexed.now pair.0 pair.1) }
{
    let end = drawing.placement.end;
    draw_line(
        canvas,
        Class::Name,
        MARGIN,
        end.saturating_add(10),
        b"then both are next:",
    )?;
    let locks = drawing.first_locks.as_slice();
    draw_access(canvas, indexed, pair.0, locks, end.saturating_add(GAP))?;
    let locks = drawing.second_locks.as_slice();
    draw_access(canvas, indexed, pair.1, locks, drawing.below_first())?;
    Ok(())
}
