//! Prints the numbers of events, threads, variables and locks in a trace.
ghost use Rattle.std.specs.Prelude.{◌≡◌, ◌<◌, length, OnErr};
ghost use Rattle.rapid_text.specs.Appended.{Appended};
ghost use Rattle.rapid_text.specs.Canonical.{name_at};
ghost use Rattle.report.specs.Info.{info_text, counts_text, thread_line, thread_lines};

use crate::pieces::{Piece, append_count, append_pieces};
use event_index::Indexed;
use rapid_text::OutOfMemory;

/// Appends the numbers of events, threads, variables and locks, each in a line. Then appends a line for each thread
/// with its number, its name and the number of its events. If memory runs out, `out` stays as it was.
pub fn info(indexed: &Indexed, out: &mut Vec<u8>) -> Result<(), OutOfMemory>
    ensures ok { Appended result out.old out.new (info_text indexed.now) }
    ensures err { OnErr result (out.new.items ≡ out.old.items) }
{
    let mut text = Vec::new(*out.allocator());
    append_counts(&mut text, indexed)?;
    append_threads(&mut text, indexed)?;
    out.extend_from_slice(&text)?;
    Ok(())
}

/// Appends the lines of the four numbers.
fn append_counts(out: &mut Vec<u8>, indexed: &Indexed) -> Result<(), OutOfMemory>
    ensures { Appended result out.old out.new (counts_text indexed.now) }
{
    append_count(out, b"events", u64::from(indexed.len()))?;
    append_count(out, b"threads", u64::from(indexed.threads()))?;
    append_count(out, b"variables", u64::from(indexed.variables()))?;
    append_count(out, b"locks", u64::from(indexed.locks()))
}

/// Appends the lines of all threads.
fn append_threads(out: &mut Vec<u8>, indexed: &Indexed) -> Result<(), OutOfMemory>
    ensures { Appended result out.old out.new (thread_lines indexed.now (length indexed.now.threads)) }
{
    for thread in 0..indexed.threads() {
        append_thread(out, indexed, thread)?;
    }
    Ok(())
}

/// Appends the line of a thread.
fn append_thread(out: &mut Vec<u8>, indexed: &Indexed, thread: u32) -> Result<(), OutOfMemory>
    requires { thread < length indexed.now.threads }
    ensures { Appended result out.old out.new (thread_line indexed.now thread) }
{
    let events = indexed.thread_events(thread).len() as u64;
    append_pieces(
        out,
        &[
            Piece::Words(b"thread "),
            Piece::Number(u64::from(thread)),
            Piece::Words(b" "),
            Piece::Words(name_of(indexed, thread)),
            Piece::Words(b" "),
            Piece::Number(events),
            Piece::Words(b"\n"),
        ],
    )?;
    Ok(())
}

/// The name of a thread.
fn name_of(indexed: &Indexed, thread: u32) -> &[u8]
    requires { thread < length indexed.now.threads }
    ensures { result.now ≡ name_at indexed.now.threads thread }
{
    indexed.thread_name(thread)
}
