//! Prints a table as text.
ghost use Rattle.std.specs.Prelude.{◌≡◌, OnErr, OnOk, flat_map};
ghost use Rattle.rapid_text.specs.Appended.{Appended};
ghost use Rattle.uses_report.specs.Texts.{counts_text, locks_text, total_line, uses_words};

use crate::pieces::{append_count, append_lock, append_small, append_words};
use crate::rows::append_rows;
use crate::totals::{accesses_in, flags_set};
use event_index::Indexed;
use rapid_text::OutOfMemory;
use variable_uses::{LockCount, Uses};

/// Appends the table of the chosen variables: how many variables, accesses and rows there are, the rows, and the locks
/// that are held at some of the accesses.
pub fn uses_text(
    indexed: &Indexed,
    chosen: &[bool],
    uses: &Uses,
    out: &mut Vec<u8>,
) -> Result<(), OutOfMemory>
    // The text is exactly the one for the trace and the table.
    ensures ok { Appended result out.old out.new (uses_words indexed.now chosen.now uses.now) }
    // If memory runs out, `out` stays as it was.
    ensures err { OnErr result (out.new.items ≡ out.old.items) }
{
    let mut text = Vec::new(*out.allocator());
    append_all(&mut text, indexed, chosen, uses)?;
    out.extend_from_slice(&text)?;
    Ok(())
}

// Appends the three parts of the text.
fn append_all(
    out: &mut Vec<u8>,
    indexed: &Indexed,
    chosen: &[bool],
    uses: &Uses,
) -> Result<(), OutOfMemory>
    ensures { Appended result out.old out.new (uses_words indexed.now chosen.now uses.now) }
{
    append_counts(out, chosen, uses)?;
    append_rows(out, indexed, uses)?;
    append_totals(out, indexed, uses.totals.as_slice())?;
    Ok(())
}

// Appends the numbers of variables, accesses and rows.
fn append_counts(out: &mut Vec<u8>, chosen: &[bool], uses: &Uses) -> Result<(), OutOfMemory>
    ensures { Appended result out.old out.new (counts_text chosen.now uses.now) }
{
    append_count(out, b"variables", flags_set(chosen))?;
    append_count(out, b"accesses", accesses_in(uses))?;
    append_count(out, b"rows", uses.firsts.len() as u64)?;
    Ok(())
}

// Appends the locks that are held at some of the accesses.
fn append_totals(
    out: &mut Vec<u8>,
    indexed: &Indexed,
    locks: &[LockCount],
) -> Result<(), OutOfMemory>
    ensures { Appended result out.old out.new (locks_text indexed.now locks.now) }
{
    append_count(out, b"locks", locks.len() as u64)?;
    append_lines(out, indexed, locks)?;
    Ok(())
}

// Appends a line for each of the locks.
fn append_lines(
    out: &mut Vec<u8>,
    indexed: &Indexed,
    locks: &[LockCount],
) -> Result<(), OutOfMemory>
    ensures { Appended result out.old out.new (flat_map (total_line indexed.now) locks.now) }
{
    for lock in locks {
        append_total(out, indexed, *lock)?;
    }
    Ok(())
}

// Appends the line of a lock.
fn append_total(out: &mut Vec<u8>, indexed: &Indexed, held: LockCount) -> Result<(), OutOfMemory>
    ensures { Appended result out.old out.new (total_line indexed.now held) }
{
    append_words(out, b"  ")?;
    append_lock(out, indexed, held.lock)?;
    append_words(out, b" at")?;
    append_small(out, held.count)?;
    append_words(out, b"\n")?;
    Ok(())
}
