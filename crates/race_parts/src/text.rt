//! Prints a merged report as text.
ghost use Rattle.std.specs.Prelude.{◌≡◌, ◌≤◌, IfOk, None, drop, length, slice_get};
ghost use Rattle.race_parts.specs.Texts.{block_text, blocks_text, counts_text, heads_count, merged_words, part_text, row_text_at, tallies_text, tally_text};
ghost use Rattle.rapid_text.specs.Appended.{Appended};

use crate::appending::{append_count, append_named, append_shown, append_words};
use crate::blocks::append_row;
use crate::cells::{Cell, Row, cell_at};
use crate::counting::{Counts, head_counts, is_head, run_counts, unmet_of};
use crate::facts::data_of;
use rapid_text::OutOfMemory;
use std::alloc::Global;

/// Appends in how many parts a pair of locations is a race, undecided and apart, and how many parts do not meet it.
fn append_tally(
    out: &mut Vec<u8>,
    parts: usize,
    races: usize,
    undecided: usize,
    apart: usize,
) -> Result<(), OutOfMemory>
    ensures { Appended result out.old out.new (tally_text parts races undecided apart) }
{
    append_named(out, b"    parts race", races)?;
    append_named(out, b" undecided", undecided)?;
    append_named(out, b" apart", apart)?;
    append_named(out, b" unmet", unmet_of(parts, races, undecided, apart))?;
    append_words(out, b"\n")
}

/// Appends the line with a part's name.
fn append_part(out: &mut Vec<u8>, name: &[u8]) -> Result<(), OutOfMemory>
    ensures { Appended result out.old out.new (part_text name.now) }
{
    append_words(out, b"    part ")?;
    append_shown(out, name)?;
    append_words(out, b"\n")
}

/// Appends the row with this number as a block. Appends nothing if there is no such row.
fn append_row_at(out: &mut Vec<u8>, rows: &[Row<'_>], number: usize) -> Result<(), OutOfMemory>
    ensures { Appended result out.old out.new (row_text_at (slice_get rows.now number)) }
{
    match rows.get(number) {
        Some(row) => append_row(out, &data_of(*out.allocator(), row.line)?),
        None => Ok(()),
    }
}

/// Appends the counts of parts with each verdict. The cell at index `at` is the first one for its pair of locations.
fn append_tallies(
    out: &mut Vec<u8>,
    parts: usize,
    cell: Cell<'_>,
    cells: &[Cell<'_>],
    at: usize,
) -> Result<(), OutOfMemory>
    requires { at ≤ length cells.now }
    ensures { Appended result out.old out.new (tallies_text parts cell.entry (drop at cells.now)) }
{
    let counts = run_counts(cell, cells, at);
    append_tally(out, parts, counts.races, counts.undecided, counts.apart)
}

/// Appends the block of the cell at index `at`. The cell is the first one for its pair of locations.
fn append_block(
    out: &mut Vec<u8>,
    parts: usize,
    rows: &[Row<'_>],
    cell: Cell<'_>,
    cells: &[Cell<'_>],
    at: usize,
) -> Result<(), OutOfMemory>
    requires { at ≤ length cells.now }
    ensures { Appended result out.old out.new (block_text parts rows.now cell.entry (drop at cells.now)) }
{
    append_row_at(out, rows, cell.number)?;
    append_tallies(out, parts, cell, cells, at)?;
    append_part(out, cell.part)?;
    Ok(())
}

/// Appends the blocks of the pairs with this rank.
fn append_blocks(
    out: &mut Vec<u8>,
    parts: usize,
    rows: &[Row<'_>],
    cells: &[Cell<'_>],
    rank: u8,
) -> Result<(), OutOfMemory>
    ensures { Appended result out.old out.new (blocks_text parts rows.now rank None cells.now) }
{
    let mut before = None;
    let mut at = 0;
    'cells: while at < cells.len() {
        let cell = cell_at(cells, at);
        if is_head(before, rank, cell) {
            append_block(out, parts, rows, cell, cells, at)?;
        }
        before = Some(cell);
        at += 1;
    }
    Ok(())
}

/// Appends the lines of the counts.
fn append_counts(out: &mut Vec<u8>, parts: usize, counts: Counts) -> Result<(), OutOfMemory>
    ensures { Appended result out.old out.new (counts_text parts counts.races counts.undecided counts.apart) }
{
    append_count(out, b"parts", parts as u64)?;
    append_count(out, b"races", counts.races as u64)?;
    append_count(out, b"undecided", counts.undecided as u64)?;
    append_count(out, b"apart", counts.apart as u64)
}

/// Returns the merged report as text, and the number of races in it. `apart` says whether to print the apart pairs
/// too.
pub fn merged_text(
    alloc: Global,
    parts: usize,
    rows: &[Row<'_>],
    cells: &[Cell<'_>],
    apart: bool,
) -> Result<(Vec<u8>, usize), OutOfMemory>
    ensures text { IfOk result (λ made. made.0.items ≡ merged_words parts rows.now cells.now apart) }
    ensures races { IfOk result (λ made. made.1 ≡ heads_count 0 None cells.now) }
{
    let mut text = Vec::new(alloc);
    let counts = head_counts(cells);
    append_counts(&mut text, parts, counts)?;
    append_blocks(&mut text, parts, rows, cells, 0)?;
    append_blocks(&mut text, parts, rows, cells, 1)?;
    if apart {
        append_blocks(&mut text, parts, rows, cells, 2)?;
    }
    Ok((text, counts.races))
}
