//! An access: its line of the trace, and the locks that its thread holds before it.
ghost use Rattle.std.specs.Prelude.{◌<◌, length, slice_index_or, [], codes};
ghost use Rattle.rapid_text.specs.Appended.{Appended};
ghost use Rattle.rapid_text.specs.Canonical.{name_at};
ghost use Rattle.explain_report.specs.Accesses.{access_text, held_locks, lock_line, lock_lines, numbered_access, pair_text};

use crate::event_lines::{append_event, append_lock};
use crate::pieces::{append_number, append_words};
use event_index::Indexed;
use must_order::Analysis;
use rapid_text::OutOfMemory;

/// Appends both accesses of a pair, each after its number.
pub(crate) fn append_pair(
    out: &mut Vec<u8>,
    analysis: &Analysis<'_>,
    first: u32,
    second: u32,
) -> Result<(), OutOfMemory>
    ensures { Appended result out.old out.new (pair_text analysis.now first second) }
{
    append_numbered_access(out, analysis, first)?;
    append_numbered_access(out, analysis, second)?;
    Ok(())
}

/// Appends the event's number, its canonical line and the locks that its thread holds before it. Appends nothing if
/// the trace has no such event.
fn append_numbered_access(
    out: &mut Vec<u8>,
    analysis: &Analysis<'_>,
    event: u32,
) -> Result<(), OutOfMemory>
    ensures { Appended result out.old out.new (numbered_access analysis.now event) }
{
    if event >= analysis.indexed().len() {
        return Ok(());
    }
    append_number(out, u64::from(event))?;
    append_access(out, analysis, event)?;
    Ok(())
}

/// Appends two blanks and the canonical line of the event, and a line for each lock that its thread holds before it.
fn append_access(out: &mut Vec<u8>, analysis: &Analysis<'_>, event: u32) -> Result<(), OutOfMemory>
    requires event { event < length analysis.now.events }
    ensures { Appended result out.old out.new (access_text analysis.now event) }
{
    append_words(out, b"  ")?;
    append_event(out, analysis.indexed(), event)?;
    append_held(out, analysis, event)?;
    Ok(())
}

/// Appends a line for each lock that the event's thread holds before it.
fn append_held(out: &mut Vec<u8>, analysis: &Analysis<'_>, event: u32) -> Result<(), OutOfMemory>
    requires event { event < length analysis.now.events }
    ensures { Appended result out.old out.new (lock_lines analysis.now (held_locks analysis.now event)) }
{
    let locks = analysis.locks_held(*out.allocator(), event)?;
    append_locks(out, analysis.indexed(), locks.as_slice())?;
    Ok(())
}

/// Appends a line for each of the locks.
fn append_locks(out: &mut Vec<u8>, indexed: &Indexed, locks: &[u32]) -> Result<(), OutOfMemory>
    ensures { Appended result out.old out.new (lock_lines indexed.now locks.now) }
{
    for lock in locks {
        append_lock_line(out, indexed, *lock)?;
    }
    Ok(())
}

/// Appends the line of a lock.
fn append_lock_line(out: &mut Vec<u8>, indexed: &Indexed, lock: u32) -> Result<(), OutOfMemory>
    ensures { Appended result out.old out.new (lock_line indexed.now lock) }
{
    append_words(out, b"    holds ")?;
    append_lock(out, indexed, lock)?;
    append_words(out, b"\n")?;
    Ok(())
}
