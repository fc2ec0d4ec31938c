//! Presorts cells by numbers of their locations, because comparing numbers takes less time than comparing locations.
ghost use Rattle.std.specs.List.Sorted.{IsPermutation};
ghost use Rattle.std.specs.Prelude.{◌≡◌, IfOk, slice_index_or};
ghost use Rattle.race_parts.specs.Cells.{cells_by};
ghost use Rattle.race_parts.specs.declared.cells.Cell.{Cell};

use crate::cells::Cell;
use rapid_text::OutOfMemory;
use std::alloc::Global;

/// The key for presorting a cell: the positions of its two locations among all locations, its rank, its size and its
/// number. Rows have their numbers in the order of their parts' names. So this order is the final one, if no part has
/// two rows for one pair of locations.
#[derive(Clone, Copy, PartialEq, Eq, PartialOrd, Ord)]
struct Quick {
    first: usize,
    second: usize,
    rank: u8,
    size: u64,
    number: usize,
}

/// The positions of the two locations of the cell with this number.
fn places_at(places: &[(usize, usize)], number: usize) -> (usize, usize) {
    match places.get(number) {
        Some(pair) => *pair,
        None => (number, 0),
    }
}

/// The presort key of each cell.
fn keys_of(
    alloc: Global,
    cells: &[Cell<'_>],
    places: &[(usize, usize)],
) -> Result<Vec<Quick>, OutOfMemory>
    ensures { IfOk result (λ keys. (d : Cell) → cells_by cells.now d keys.items ≡ cells.now) }
{
    let mut keys = Vec::with_capacity(alloc, cells.len())?;
    let mut at = 0;
    'cells: while at < cells.len() {
        let cell = cells[at];
        let (first, second) = places_at(places, at);
        keys.push(Quick {
            first,
            second,
            rank: cell.rank,
            size: cell.size,
            number: at,
        })?;
        at += 1;
    }
    Ok(keys)
}

/// Sorts the keys.
fn sort_keys(keys: &mut Vec<Quick>)
    ensures { IsPermutation keys.old.items keys.new.items }
{
    keys.sort_unstable();
}

/// The cell with this number; `other` if no cell has this number.
fn cell_or<'a>(cells: &[Cell<'a>], number: usize, other: Cell<'a>) -> Cell<'a>
    ensures { result ≡ slice_index_or cells.now number other.entry }
{
    match cells.get(number) {
        Some(cell) => *cell,
        None => other,
    }
}

/// The cells in the order of the keys.
fn in_order<'a>(
    alloc: Global,
    cells: &[Cell<'a>],
    keys: &Vec<Quick>,
    other: Cell<'a>,
) -> Result<Vec<Cell<'a>>, OutOfMemory>
    ensures { IfOk result (λ made. made.items ≡ cells_by cells.now other.entry keys.now.items) }
{
    let mut made = Vec::with_capacity(alloc, keys.len())?;
    for key in keys {
        made.push(cell_or(cells, key.number, other))?;
    }
    Ok(made)
}

/// Returns the cells presorted, so that the final sort is quick. `places` has the positions of each cell's two
/// locations.
pub(crate) fn presorted<'a>(
    alloc: Global,
    cells: Vec<Cell<'a>>,
    places: &[(usize, usize)],
) -> Result<Vec<Cell<'a>>, OutOfMemory>
    ensures { IfOk result (λ made. IsPermutation cells.entry.items made.items) }
{
    match first_of(&cells) {
        Some(other) => presorted_by(alloc, &cells, places, other),
        None => Ok(cells),
    }
}

/// The first cell, if there is one.
fn first_of<'a>(cells: &[Cell<'a>]) -> Option<Cell<'a>> {
    match cells.first() {
        Some(cell) => Some(*cell),
        None => None,
    }
}

/// The same for a list that is not empty. `other` is one of its cells.
fn presorted_by<'a>(
    alloc: Global,
    cells: &[Cell<'a>],
    places: &[(usize, usize)],
    other: Cell<'a>,
) -> Result<Vec<Cell<'a>>, OutOfMemory>
    ensures { IfOk result (λ made. IsPermutation cells.now made.items) }
{
    let mut keys = keys_of(alloc, cells, places)?;
    sort_keys(&mut keys);
    in_order(alloc, cells, &keys, other)
}
