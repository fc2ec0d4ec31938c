//! The table of the two accesses of a row of a merged page.
ghost use Rattle.std.specs.Prelude.{◌≡◌};
ghost use Rattle.rapid_text.specs.Appended.{Appended};
ghost use Rattle.serde_json.specs.Find.{as_str};
ghost use Rattle.serde_json.specs.View.{view};
ghost use Rattle.race_parts.specs.Texts.{text_in};
ghost use Rattle.race_page.specs.MergedTable.{access_row, begin_text, end_text, event_text, line_text, lock_names, lock_text, locks_cell, locks_text, number_text, table_text};

use crate::marks::{Mark, append_marks};
use race_parts::{access_in, number_of, text_of};
use rapid_text::OutOfMemory;
use serde_json::Value;

/// What comes before the first access in a table.
const TABLE_BEGIN: &[u8] = b"<h4>The two accesses</h4>
<table>
<thead>
<tr><th scope=\"col\">Event</th><th scope=\"col\">Line of the trace</th><th scope=\"col\">Locks held before it</th></tr>
</thead>
<tbody>
";

/// What comes after the second access.
const TABLE_END: &[u8] = b"</tbody>
</table>
";

/// Appends the table of both accesses.
pub(crate) fn append_table(out: &mut Vec<u8>, row: &Value) -> Result<(), OutOfMemory>
    ensures { Appended result out.old out.new (table_text (view row.now)) }
{
    append_marks(out, &[Mark::Own(TABLE_BEGIN)])?;
    append_access(out, row, 0)?;
    append_access(out, row, 1)?;
    append_marks(out, &[Mark::Own(TABLE_END)])
}

/// Appends the table line of an access, 0 or 1, if the row has it.
fn append_access(out: &mut Vec<u8>, row: &Value, place: usize) -> Result<(), OutOfMemory>
    ensures { Appended result out.old out.new (access_row place (view row.now)) }
{
    match access_in(row, place) {
        Some(access) => append_line(out, access),
        None => Ok(()),
    }
}

/// Appends the table line of an access.
fn append_line(out: &mut Vec<u8>, access: &Value) -> Result<(), OutOfMemory>
    ensures { Appended result out.old out.new (line_text (view access.now)) }
{
    append_event(out, access)?;
    append_held(out, access)?;
    append_marks(out, &[Mark::Own(b"</td></tr>\n")])
}

/// Appends the locks that the thread holds before the access.
fn append_held(out: &mut Vec<u8>, access: &Value) -> Result<(), OutOfMemory>
    ensures { Appended result out.old out.new (locks_text (view access.now)) }
{
    append_locks(out, locks_of(access))?;
    Ok(())
}

/// Appends the table line of an access, up to the locks.
fn append_event(out: &mut Vec<u8>, access: &Value) -> Result<(), OutOfMemory>
    ensures { Appended result out.old out.new (event_text (view access.now)) }
{
    append_number(out, access)?;
    append_begin(out, access)?;
    append_end(out, access)
}

/// Appends the number of the event.
fn append_number(out: &mut Vec<u8>, access: &Value) -> Result<(), OutOfMemory>
    ensures { Appended result out.old out.new (number_text (view access.now)) }
{
    append_marks(
        out,
        &[
            Mark::Own(b"<tr><th scope=\"row\">"),
            Mark::Number(number_of(access, "event")),
            Mark::Own(b"</th><td><code>"),
        ],
    )
}

/// Appends the thread and the operation.
fn append_begin(out: &mut Vec<u8>, access: &Value) -> Result<(), OutOfMemory>
    ensures { Appended result out.old out.new (begin_text (view access.now)) }
{
    append_marks(
        out,
        &[
            Mark::Text(text_of(access, "thread")),
            Mark::Own(b"|"),
            Mark::Text(text_of(access, "operation")),
        ],
    )
}

/// Appends the variable and the location.
fn append_end(out: &mut Vec<u8>, access: &Value) -> Result<(), OutOfMemory>
    ensures { Appended result out.old out.new (end_text (view access.now)) }
{
    append_marks(
        out,
        &[
            Mark::Own(b"("),
            Mark::Text(text_of(access, "variable")),
            Mark::Own(b")|"),
            Mark::Text(text_of(access, "location")),
            Mark::Own(b"</code></td><td>"),
        ],
    )
}

/// The locks that the thread holds before the access; empty if the access names none.
fn locks_of(access: &Value) -> &[Value]
    ensures { locks_text (view access.now) ≡ locks_cell result.now }
{
    match access.get("holds") {
        Some(found) => match found.as_array() {
            Some(list) => list.as_slice(),
            None => &[],
        },
        None => &[],
    }
}

/// Appends the names of the locks, or `none`.
fn append_locks(out: &mut Vec<u8>, locks: &[Value]) -> Result<(), OutOfMemory>
    ensures { Appended result out.old out.new (locks_cell locks.now) }
{
    if locks.is_empty() {
        append_marks(out, &[Mark::Own(b"none")])
    } else {
        append_names(out, locks)
    }
}

/// Appends the name of each lock.
fn append_names(out: &mut Vec<u8>, locks: &[Value]) -> Result<(), OutOfMemory>
    ensures { Appended result out.old out.new (lock_names locks.now) }
{
    for lock in locks {
        append_lock(out, lock)?;
    }
    Ok(())
}

/// Appends the name of a lock.
fn append_lock(out: &mut Vec<u8>, lock: &Value) -> Result<(), OutOfMemory>
    ensures { Appended result out.old out.new (lock_text (view lock.now)) }
{
    append_marks(
        out,
        &[
            Mark::Own(b"<bdi>"),
            Mark::Text(lock_name(lock)),
            Mark::Own(b"</bdi> "),
        ],
    )
}

/// The name of a lock; empty if it is no text.
fn lock_name(lock: &Value) -> &[u8]
    ensures { result.now ≡ text_in (as_str (view lock.now)) }
{
    match lock.as_str() {
        Some(text) => text.as_bytes(),
        None => b"",
    }
}
