//! Appends the lines of rows.
ghost use Rattle.std.specs.Prelude.{◌≡◌, [], ◌∷◌, codes, slice_get, slice_index, slice_index_or, cond, flat_map, length, false, Some};
ghost use Rattle.rapid_text.specs.Appended.{Appended};
ghost use Rattle.uses_report.specs.Texts.{column_lines, head_line, held_line, held_lines, location_line, op_words, part_text, row_text, rows_text, side_words, where_words, word_of};

use crate::pieces::{append_location, append_lock, append_small, append_words, flag_at, number_at};
use event_index::Indexed;
use rapid_text::{Op, OutOfMemory};
use variable_uses::{LockCount, Side, Uses};

/// Appends the lines of all rows.
pub(crate) fn append_rows(
    out: &mut Vec<u8>,
    indexed: &Indexed,
    uses: &Uses,
) -> Result<(), OutOfMemory>
    ensures { Appended result out.old out.new (rows_text indexed.now uses.now (length uses.now.firsts.items)) }
{
    for row in 0..uses.firsts.len() {
        append_row(out, indexed, uses, row)?;
    }
    Ok(())
}

// Appends the lines of a row.
fn append_row(
    out: &mut Vec<u8>,
    indexed: &Indexed,
    uses: &Uses,
    row: usize,
) -> Result<(), OutOfMemory>
    ensures { Appended result out.old out.new (row_text indexed.now uses.now row) }
{
    let first = number_at(uses.firsts.as_slice(), row);
    append_head(out, indexed, uses, row, first)?;
    append_line(out, indexed, first)?;
    append_column(out, indexed, uses, row)?;
    Ok(())
}

// Appends the line of the location of an event.
fn append_line(out: &mut Vec<u8>, indexed: &Indexed, event: u32) -> Result<(), OutOfMemory>
    ensures { Appended result out.old out.new (location_line indexed.now event) }
{
    append_words(out, b"  ")?;
    append_location(out, indexed, event)?;
    append_words(out, b"\n")?;
    Ok(())
}

// Appends the first line of a row with this first access.
fn append_head(
    out: &mut Vec<u8>,
    indexed: &Indexed,
    uses: &Uses,
    row: usize,
    first: u32,
) -> Result<(), OutOfMemory>
    requires { first ≡ slice_index uses.now.firsts.items row }
    ensures { Appended result out.old out.new (head_line indexed.now uses.now row) }
{
    append_words(out, word_of(indexed, first))?;
    append_small(out, number_at(uses.counts.as_slice(), row))?;
    append_words(out, b" threads")?;
    append_small(out, number_at(uses.threads.as_slice(), row))?;
    append_words(out, where_of(uses, row))?;
    append_words(out, b"\n")?;
    Ok(())
}

// The word for the operation of an event.
fn word_of(indexed: &Indexed, event: u32) -> &'static [u8]
    ensures { result.now ≡ word_of indexed.now event }
{
    match indexed.get(event) {
        Some(found) => op_words(found.op),
        None => b"other",
    }
}

// The word for an operation.
fn op_words(op: Op) -> &'static [u8]
    ensures { result.now ≡ op_words op }
{
    match op {
        Op::Read(_) => b"read",
        Op::Write(_) => b"write",
        Op::Acquire(_) => b"other",
        Op::Release(_) => b"other",
        Op::Fork(_) => b"other",
        Op::Join(_) => b"other",
    }
}

// Where the accesses of a row are.
fn where_of(uses: &Uses, row: usize) -> &'static [u8]
    ensures { result.now ≡ where_words uses.now row }
{
    if flag_at(uses.named.as_slice(), row) {
        return b" in the race";
    }
    match uses.sides.get(row) {
        Some(side) => side_words(*side),
        None => b"",
    }
}

// On which side of the race the accesses of a row are.
fn side_words(side: Side) -> &'static [u8]
    ensures { result.now ≡ side_words (Some side) }
{
    if side.is_before {
        b" before the race"
    } else if side.is_after {
        b" after the race"
    } else {
        b""
    }
}

// Appends the lines of the locks of a row.
fn append_column(
    out: &mut Vec<u8>,
    indexed: &Indexed,
    uses: &Uses,
    row: usize,
) -> Result<(), OutOfMemory>
    ensures { Appended result out.old out.new (column_lines indexed.now (slice_index uses.now.counts.items row) (slice_get uses.now.locks.items row)) }
{
    let all = number_at(uses.counts.as_slice(), row);
    match uses.locks.get(row) {
        Some(column) => append_locks(out, indexed, all, column.as_slice()),
        None => Ok(()),
    }
}

// Appends a line for each lock of a row with `all` accesses.
fn append_locks(
    out: &mut Vec<u8>,
    indexed: &Indexed,
    all: u32,
    locks: &[LockCount],
) -> Result<(), OutOfMemory>
    ensures { Appended result out.old out.new (held_lines indexed.now all locks.now) }
{
    if locks.is_empty() {
        append_words(out, b"    holds nothing\n")
    } else {
        append_each(out, indexed, all, locks)
    }
}

// Appends the lines of the locks.
fn append_each(
    out: &mut Vec<u8>,
    indexed: &Indexed,
    all: u32,
    locks: &[LockCount],
) -> Result<(), OutOfMemory>
    ensures { Appended result out.old out.new (flat_map (held_line indexed.now all) locks.now) }
{
    for lock in locks {
        append_held(out, indexed, all, *lock)?;
    }
    Ok(())
}

// Appends the line of a lock.
fn append_held(
    out: &mut Vec<u8>,
    indexed: &Indexed,
    all: u32,
    held: LockCount,
) -> Result<(), OutOfMemory>
    ensures { Appended result out.old out.new (held_line indexed.now all held) }
{
    append_words(out, b"    holds ")?;
    append_lock(out, indexed, held.lock)?;
    append_part(out, all, held.count)?;
    append_words(out, b"\n")?;
    Ok(())
}

// Appends at how many accesses a lock is held, unless all accesses hold it.
fn append_part(out: &mut Vec<u8>, all: u32, count: u32) -> Result<(), OutOfMemory>
    ensures { Appended result out.old out.new (part_text all count) }
{
    if all == count {
        return Ok(());
    }
    append_words(out, b" at")?;
    append_small(out, count)?;
    Ok(())
}
