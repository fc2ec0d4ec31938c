//! The lines of one request.
ghost use Rattle.std.specs.Prelude.{◌≡◌, ◌<◌, IfSome, Some, length};
ghost use Rattle.rapid_text.specs.Appended.{Appended};
ghost use Rattle.triage_report.specs.lines.Lines.{lock_lines};
ghost use Rattle.deadlock_report.specs.Holds.{other_locks};
ghost use Rattle.deadlock_report.specs.lines.Lines.{hold_lines, request_lines, since_lines, told_lines, wait_line};

use crate::holds::{other_locks, since_of};
use crate::requests::lock_of;
use event_index::Indexed;
use explain_report::places::location_of;
use must_order::Analysis;
use rapid_text::OutOfMemory;
use report::{Piece, append_pieces};
use triage_report::folder::Folder;
use triage_report::lines::{
    append_about, append_calls, append_locks, place_at, thread_of, variable_of,
};

/// Appends the lines of a request at this place. Appends nothing if the trace has no such event.
pub(crate) fn append_request(
    out: &mut Vec<u8>,
    analysis: &Analysis<'_>,
    folder: &Folder,
    place: &[u8],
    request: u32,
    other: u32,
) -> Result<(), OutOfMemory>
    ensures { Appended result out.old out.new (request_lines analysis.now folder.now place.now request other) }
{
    if request >= analysis.indexed().len() {
        return Ok(());
    }
    let wanted = lock_of(analysis.indexed(), other);
    append_told(out, analysis, folder, place, request, wanted)
}

// Appends the lines of a request. The other request acquires the lock `wanted`.
fn append_told(
    out: &mut Vec<u8>,
    analysis: &Analysis<'_>,
    folder: &Folder,
    place: &[u8],
    request: u32,
    wanted: Option<u32>,
) -> Result<(), OutOfMemory>
    requires request { request < length analysis.now.events }
    requires wanted { IfSome wanted (λ l. l < length analysis.now.locks) }
    ensures { Appended result out.old out.new (told_lines analysis.now folder.now place.now request wanted) }
{
    let indexed = analysis.indexed();
    append_wait(out, indexed, place, request)?;
    append_others(out, analysis, place, request, wanted)?;
    append_calls(out, folder, place, location_of(indexed, request))?;
    append_hold(out, analysis, folder, request, wanted)?;
    Ok(())
}

// Appends the first line of a request at this place.
fn append_wait<'a>(
    out: &mut Vec<u8>,
    indexed: &'a Indexed,
    place: &'a [u8],
    request: u32,
) -> Result<(), OutOfMemory>
    ensures { Appended result out.old out.new (wait_line indexed.now place.now request) }
{
    append_pieces(
        out,
        &[
            Piece::Words(place),
            Piece::Words(b": note: event "),
            Piece::Number(u64::from(request)),
            Piece::Words(b": "),
            Piece::Words(thread_of(indexed, request)),
            Piece::Words(b" waits for "),
            Piece::Words(variable_of(indexed, request)),
            Piece::Words(b"\n"),
        ],
    )
}

// Appends a line for each other lock that the request's thread holds.
fn append_others(
    out: &mut Vec<u8>,
    analysis: &Analysis<'_>,
    place: &[u8],
    request: u32,
    but: Option<u32>,
) -> Result<(), OutOfMemory>
    requires { request < length analysis.now.events }
    ensures { Appended result out.old out.new (lock_lines analysis.now place.now (other_locks analysis.now request but)) }
{
    let others = other_locks(*out.allocator(), analysis, request, but)?;
    append_locks(out, analysis.indexed(), place, others.as_slice())?;
    Ok(())
}

// Appends since when the request's thread holds the lock that is waited for, if it does.
fn append_hold(
    out: &mut Vec<u8>,
    analysis: &Analysis<'_>,
    folder: &Folder,
    request: u32,
    wanted: Option<u32>,
) -> Result<(), OutOfMemory>
    requires request { request < length analysis.now.events }
    requires wanted { IfSome wanted (λ l. l < length analysis.now.locks) }
    ensures { Appended result out.old out.new (hold_lines analysis.now folder.now request wanted) }
{
    match wanted {
        Some(lock) => append_since(
            out,
            analysis.indexed(),
            folder,
            since_of(analysis, request, lock),
        ),
        None => Ok(()),
    }
}

// Appends the lines of the acquire since which the lock is held, if there is one.
fn append_since(
    out: &mut Vec<u8>,
    indexed: &Indexed,
    folder: &Folder,
    since: Option<u32>,
) -> Result<(), OutOfMemory>
    ensures { Appended result out.old out.new (since_lines indexed.now folder.now since) }
{
    match since {
        Some(since) => append_acquire(out, indexed, folder, since),
        None => Ok(()),
    }
}

// Appends the lines of the acquire since which a lock is held.
fn append_acquire(
    out: &mut Vec<u8>,
    indexed: &Indexed,
    folder: &Folder,
    since: u32,
) -> Result<(), OutOfMemory>
    ensures { Appended result out.old out.new (since_lines indexed.now folder.now (Some since)) }
{
    let place = place_at(out, indexed, folder, since)?;
    append_about(out, indexed, place.as_slice(), since)?;
    append_calls(out, folder, place.as_slice(), location_of(indexed, since))?;
    Ok(())
}
