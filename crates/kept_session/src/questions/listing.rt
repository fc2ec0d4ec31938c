//! Answers with a list of all schedules.
ghost use Rattle.std.specs.Prelude.{◌≡◌, ◌<◌, codes, decimal, flat_map, length, slice_get, take};
ghost use Rattle.inverse_log.specs.Log.{client_of};
ghost use Rattle.kept_session.specs.QuestionAnswers.{client_at, row_item_at, row_items, rows_line};
ghost use Rattle.rapid_text.specs.Appended.{Appended};

use inverse_log::{Bench, Entry};
use moves::Workspace;
use rapid_text::OutOfMemory;
use report::{Piece, append_pieces};

/// The client of an entry.
fn client_of(entry: &Entry) -> u32
    ensures { result ≡ client_of entry.now }
{
    match entry {
        Entry::Did { client, command: _ } => *client,
        Entry::Batch {
            client,
            commands: _,
        } => *client,
        Entry::Undid { client, entry: _ } => *client,
        Entry::Proposed {
            client,
            first: _,
            second: _,
            events: _,
        } => *client,
    }
}

/// The client of the log entry with this number; 0 if there is no such entry.
fn client_at(bench: &Bench, entry: u64) -> u32
    ensures { result ≡ client_at bench.now.log entry }
{
    if entry < bench.log_len() {
        client_of(bench.entry(entry))
    } else {
        0
    }
}

/// Appends the item of the schedule with this index in the workspace.
fn append_row(
    out: &mut Vec<u8>,
    bench: &Bench,
    rows: &Workspace,
    at: usize,
) -> Result<(), OutOfMemory>
    requires { at < length rows.now }
    ensures { Appended result out.old out.new (row_item_at bench.now.log (slice_get rows.now at)) }
{
    let (name, birth, schedule) = rows.row(at);
    append_pieces(
        out,
        &[
            Piece::Words(b" "),
            Piece::Words(name.bytes()),
            Piece::Words(b":"),
            Piece::Number(schedule.events().len() as u64),
            Piece::Words(b":"),
            Piece::Number(birth.entry()),
            Piece::Words(b":"),
            Piece::Number(u64::from(client_at(bench, birth.entry()))),
        ],
    )
}

/// Appends the items of all schedules.
fn append_items(out: &mut Vec<u8>, bench: &Bench, rows: &Workspace) -> Result<(), OutOfMemory>
    ensures { Appended result out.old out.new (row_items bench.now.log rows.now (length rows.now)) }
{
    for at in 0..rows.len() {
        append_row(out, bench, rows, at)?;
    }
    Ok(())
}

/// Appends the line that lists all schedules, in the order in which they were made.
pub(crate) fn append_rows(
    out: &mut Vec<u8>,
    bench: &Bench,
    rows: &Workspace,
) -> Result<(), OutOfMemory>
    ensures { Appended result out.old out.new (rows_line bench.now.log rows.now) }
{
    append_pieces(
        out,
        &[Piece::Words(b"rows "), Piece::Number(bench.log_len())],
    )?;
    append_items(out, bench, rows)?;
    append_pieces(out, &[Piece::Words(b"\n")])
}
