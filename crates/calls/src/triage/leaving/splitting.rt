//! Splits cells into those that stay and the pairs of locations that are left out.
ghost use Rattle.std.specs.Prelude.{◌≡◌, ◌<◌, ◌&&◌, cond, true, length, [], ◌∷◌, IfOk};
ghost use Rattle.calls.specs.triage.LeavingListed.{is_listed_by};
ghost use Rattle.calls.specs.triage.LeavingSplitting.{drops_known, drops_first, is_out, HasGone, HasStaying};
ghost use Rattle.rapid_text.specs.Appended.{Appended};

use crate::triage::leaving::entries::is_decided;
use crate::triage::leaving::filters::is_hidden;
use crate::triage::leaving::lines::{cell_at, first_of, is_new, rest_at};
use crate::triage::leaving::listed::{Listed, is_listed};
use race_parts::{Cell, Row};
use race_triage::Filters;
use rapid_text::OutOfMemory;
use std::alloc::Global;
use triage_file::Value;

/// A reason for leaving a pair of locations out.
#[derive(Clone, Copy)]
pub(crate) enum Test<'a> {
    /// The pair is a known race: a text of known races names it, if there is one, or one of the entries leaves it out.
    Race(Option<&'a Listed>, &'a [Value]),
    /// The filters drop the block of the pair's first cell.
    Block(Filters<'a>),
}

/// The cells that stay, and the first cell of each pair of locations that is left out.
#[derive(Drop)]
pub(crate) struct Parted<'a> {
    pub(crate) stay: Vec<Cell<'a>>,
    pub(crate) gone: Vec<Cell<'a>>,
}

/// Whether a text of known races names the cell's locations; false if there is no text.
fn is_listed_by(listed: Option<&Listed>, cell: &Cell<'_>) -> Result<bool, OutOfMemory>
    ensures { IfOk result (λ is. is ≡ is_listed_by listed.entry cell.now) }
{
    match listed {
        Some(listed) => is_listed(listed, cell),
        None => Ok(false),
    }
}

/// Whether the cell's locations are a known race. `cells` begin with this cell.
fn drops_race(
    alloc: Global,
    rows: &[Row<'_>],
    listed: Option<&Listed>,
    entries: &[Value],
    cell: &Cell<'_>,
    cells: &[Cell<'_>],
) -> Result<bool, OutOfMemory>
    ensures { IfOk result (λ is. is ≡ drops_known rows.now listed.entry entries.now cell.now cells.now) }
{
    if cell.rank != 0 {
        return Ok(false);
    }
    if is_listed_by(listed, cell)? {
        return Ok(true);
    }
    is_decided(alloc, rows, entries, cell, cells)
}

/// Whether the test leaves out the cell's locations. `cells` begin with this cell.
fn drops_first(
    alloc: Global,
    rows: &[Row<'_>],
    test: Test<'_>,
    cell: &Cell<'_>,
    cells: &[Cell<'_>],
) -> Result<bool, OutOfMemory>
    ensures { IfOk result (λ out. out ≡ drops_first rows.now test.entry cell.now cells.now) }
{
    match test {
        Test::Race(listed, entries) => drops_race(alloc, rows, listed, entries, cell, cells),
        Test::Block(filters) => is_hidden(alloc, rows, filters, cell),
    }
}

/// Appends the cell, if it stays.
fn keep<'a>(cells: &mut Vec<Cell<'a>>, cell: Cell<'a>, stays: bool) -> Result<(), OutOfMemory>
    ensures { Appended result cells.old cells.new (cond stays (cell.entry ∷ []) []) }
{
    if stays {
        cells.push(cell)?;
    }
    Ok(())
}

/// Whether both are true.
fn are_both(one: bool, other: bool) -> bool
    ensures { result ≡ (one && other) }
{
    one && other
}

/// Splits the cells by the test. Neighbouring cells of one pair of locations stay or are left out together.
pub(crate) fn split<'a>(
    alloc: Global,
    rows: &[Row<'_>],
    cells: &[Cell<'a>],
    test: Test<'_>,
) -> Result<Parted<'a>, OutOfMemory>
    ensures stay { IfOk result (HasStaying rows.now test.entry cells.now) }
    ensures gone { IfOk result (HasGone rows.now test.entry cells.now) }
{
    let mut stay = Vec::new(alloc);
    let mut gone = Vec::new(alloc);
    let mut before = None;
    let mut is_out = false;
    let mut at = 0;
    'cells: while at < cells.len() {
        let cell = cell_at(cells, at);
        let is_first = is_new(before, cell);
        is_out = out_of(alloc, rows, test, is_first, is_out, rest_at(cells, at))?;
        keep(&mut stay, cell, !is_out)?;
        keep(&mut gone, cell, are_both(is_first, is_out))?;
        before = Some(cell);
        at += 1;
    }
    Ok(Parted { stay, gone })
}

/// Whether the first of the cells is left out. If it is the first of its locations, the test decides. Else it goes the
/// way of the cell before it.
#[tactic(auto, using(crate::proofs::triage::LeavingSplitLemmas::out_later))]
fn out_of(
    alloc: Global,
    rows: &[Row<'_>],
    test: Test<'_>,
    is_first: bool,
    was_out: bool,
    cells: &[Cell<'_>],
) -> Result<bool, OutOfMemory>
    requires { 0 < length cells.now }
    ensures { IfOk result (λ out. out ≡ is_out (drops_first rows.now test.entry) is_first was_out cells.now) }
{
    if is_first {
        first_out(alloc, rows, test, was_out, cells)
    } else {
        Ok(was_out)
    }
}

/// Whether the first of the cells is left out, if it is the first of its locations.
#[tactic(auto, using(crate::proofs::triage::LeavingSplitLemmas::out_first))]
fn first_out(
    alloc: Global,
    rows: &[Row<'_>],
    test: Test<'_>,
    was_out: bool,
    cells: &[Cell<'_>],
) -> Result<bool, OutOfMemory>
    requires { 0 < length cells.now }
    ensures { IfOk result (λ out. out ≡ is_out (drops_first rows.now test.entry) true was_out cells.now) }
{
    let (cell, _) = first_of(cells);
    drops_first(alloc, rows, test, &cell, cells)
}
