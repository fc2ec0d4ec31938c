//! Counts, for a pair of locations, the parts with each verdict; and counts the pairs with each verdict.
ghost use Rattle.std.specs.Prelude.{◌≡◌, ◌-◌, ◌≤◌, None, drop, length};
ghost use Rattle.race_parts.specs.Texts.{heads_count, is_head, one_if, run_count};

use crate::cells::{Cell, cell_at, is_same};

/// How many are races, undecided and apart.
#[derive(Clone, Copy)]
pub(crate) struct Counts {
    pub(crate) races: usize,
    pub(crate) undecided: usize,
    pub(crate) apart: usize,
}

/// Counts the verdicts for the locations of `cell`. Starts at index `from` and stops at the first cell with other
/// locations.
pub(crate) fn run_counts(cell: Cell<'_>, cells: &[Cell<'_>], from: usize) -> Counts
    requires { from ≤ length cells.now }
    ensures races { result.races ≡ run_count cell.entry 0 (drop from cells.now) }
    ensures undecided { result.undecided ≡ run_count cell.entry 1 (drop from cells.now) }
    ensures apart { result.apart ≡ run_count cell.entry 2 (drop from cells.now) }
{
    let (mut races, mut undecided, mut apart) = (0, 0, 0);
    let mut at = from;
    'cells: while at < cells.len() {
        let next = cell_at(cells, at);
        if !is_same(&cell, &next) {
            return Counts {
                races,
                undecided,
                apart,
            };
        }
        races += one_if(next.rank == 0);
        undecided += one_if(next.rank == 1);
        apart += one_if(next.rank == 2);
        at += 1;
    }
    Counts {
        races,
        undecided,
        apart,
    }
}

/// 1 if true, otherwise 0.
fn one_if(is: bool) -> usize
    ensures { result ≡ one_if is }
{
    if is { 1 } else { 0 }
}

/// How many parts have no row for a pair of locations, given the counts of parts that have one.
pub(crate) fn unmet_of(parts: usize, races: usize, undecided: usize, apart: usize) -> usize
    ensures { result ≡ parts - races - undecided - apart }
{
    parts
        .saturating_sub(races)
        .saturating_sub(undecided)
        .saturating_sub(apart)
}

/// Whether the cell is the first one for its pair of locations, and has this rank.
pub(crate) fn is_head(before: Option<Cell<'_>>, rank: u8, cell: Cell<'_>) -> bool
    ensures { result ≡ is_head before.entry rank cell.entry }
{
    if cell.rank != rank {
        return false;
    }
    match before {
        Some(before) => !is_same(&before, &cell),
        None => true,
    }
}

/// How many pairs of locations are races, undecided and apart.
pub(crate) fn head_counts(cells: &[Cell<'_>]) -> Counts
    ensures races { result.races ≡ heads_count 0 None cells.now }
    ensures undecided { result.undecided ≡ heads_count 1 None cells.now }
    ensures apart { result.apart ≡ heads_count 2 None cells.now }
{
    let (mut races, mut undecided, mut apart) = (0, 0, 0);
    let mut before = None;
    let mut at = 0;
    'cells: while at < cells.len() {
        let cell = cell_at(cells, at);
        races += one_if(is_head(before, 0, cell));
        undecided += one_if(is_head(before, 1, cell));
        apart += one_if(is_head(before, 2, cell));
        before = Some(cell);
        at += 1;
    }
    Counts {
        races,
        undecided,
        apart,
    }
}

/// How many pairs of locations have this rank.
fn heads_count(cells: &[Cell<'_>], rank: u8) -> usize
    ensures count { result ≡ heads_count rank None cells.now }
{
    let mut count = 0;
    let mut before = None;
    let mut at = 0;
    'cells: while at < cells.len() {
        let cell = cell_at(cells, at);
        if is_head(before, rank, cell) {
            count += 1;
        }
        before = Some(cell);
        at += 1;
    }
    count
}

/// Returns how many pairs of locations are races.
pub fn races_in(cells: &[Cell<'_>]) -> usize
    ensures { result ≡ heads_count 0 None cells.now }
{
    heads_count(cells, 0)
}
