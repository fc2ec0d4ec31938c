//! The pairs of locations in a report, each with the row to print and the parts' verdicts.
ghost use Rattle.std.specs.Prelude.{◌≡◌, ◌≤◌, ◌∷◌, [], IfOk, None, drop, length, map, slice_get};
ghost use Rattle.race_parts.specs.Pairs.{line_by, pair_shown, pair_told, pairs_shown, pairs_told, AppendedPairs};

use crate::cells::{Cell, Row, cell_at};
use crate::counting::{is_head, run_counts};
use rapid_text::OutOfMemory;
use std::alloc::Global;

/// A pair of locations.
#[derive(Clone, Copy)]
pub struct Pair<'a> {
    /// The line of the row to print for this pair.
    pub line: &'a [u8],
    /// The name of the part that has this line.
    pub part: &'a [u8],
    /// 0 for a race, 1 for an undecided pair, 2 for an apart pair.
    pub rank: u8,
    /// In how many parts the pair is a race.
    pub races: usize,
    /// In how many parts the pair is undecided.
    pub undecided: usize,
    /// In how many parts the pair is apart.
    pub apart: usize,
}

/// Returns the pairs of locations in the order of the report: races, then undecided pairs, then apart pairs if
/// `apart` is true.
pub fn pairs_of<'a>(
    alloc: Global,
    rows: &'a [Row<'_>],
    cells: &[Cell<'a>],
    apart: bool,
) -> Result<Vec<Pair<'a>>, OutOfMemory>
    ensures { IfOk result (λ pairs. map pair_shown pairs.items ≡ pairs_shown rows.now cells.now apart) }
{
    let mut pairs = Vec::new(alloc);
    push_pairs(&mut pairs, rows, cells, 0)?;
    push_pairs(&mut pairs, rows, cells, 1)?;
    if apart {
        push_pairs(&mut pairs, rows, cells, 2)?;
    }
    Ok(pairs)
}

/// Adds the pairs with this rank.
fn push_pairs<'a>(
    pairs: &mut Vec<Pair<'a>>,
    rows: &'a [Row<'_>],
    cells: &[Cell<'a>],
    rank: u8,
) -> Result<(), OutOfMemory>
    ensures { AppendedPairs result pairs.old pairs.new (pairs_told rows.now rank None cells.now) }
{
    let mut before = None;
    let mut at = 0;
    'cells: while at < cells.len() {
        let cell = cell_at(cells, at);
        if is_head(before, rank, cell) {
            push_pair(pairs, rows, cell, cells, at)?;
        }
        before = Some(cell);
        at += 1;
    }
    Ok(())
}

/// Adds the pair for the cell at index `at`. The cell is the first one for its pair of locations.
fn push_pair<'a>(
    pairs: &mut Vec<Pair<'a>>,
    rows: &'a [Row<'_>],
    cell: Cell<'a>,
    cells: &[Cell<'a>],
    at: usize,
) -> Result<(), OutOfMemory>
    requires { at ≤ length cells.now }
    ensures { AppendedPairs result pairs.old pairs.new (pair_told rows.now cell.entry (drop at cells.now) ∷ []) }
{
    pairs.push(pair_of(rows, cell, cells, at))?;
    Ok(())
}

/// The pair for the cell at index `at`. The cell is the first one for its pair of locations.
fn pair_of<'a>(rows: &'a [Row<'_>], cell: Cell<'a>, cells: &[Cell<'a>], at: usize) -> Pair<'a>
    requires { at ≤ length cells.now }
    ensures { pair_shown result ≡ pair_told rows.now cell.entry (drop at cells.now) }
{
    let counts = run_counts(cell, cells, at);
    Pair {
        line: line_at(rows, cell.number),
        part: cell.part,
        rank: cell.rank,
        races: counts.races,
        undecided: counts.undecided,
        apart: counts.apart,
    }
}

/// The line of the row with this number; empty if no row has this number.
fn line_at<'a>(rows: &'a [Row<'_>], number: usize) -> &'a [u8]
    ensures { result.now ≡ line_by (slice_get rows.now number) }
{
    match rows.get(number) {
        Some(row) => row.line,
        None => b"",
    }
}
