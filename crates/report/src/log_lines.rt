//! Prints the log of a bench.
ghost use Rattle.std.specs.Prelude.{◌≡◌, ◌<◌, ◌++◌, length, OnErr, codes, decimal};
ghost use Rattle.inverse_log.specs.Log.{client_of};
ghost use Rattle.rapid_text.specs.Appended.{Appended};
ghost use Rattle.report.specs.Log.{entry_words, entry_line, line_at, entry_lines, log_text, proposed_words};

use crate::commands::{append_batch, append_command};
use crate::pieces::{Piece, append_count, append_pieces};
use inverse_log::{Bench, Entry};
use rapid_text::OutOfMemory;

/// Appends the number of log entries, and a line for each with its number, its client and what the client did. If
/// memory runs out, `out` stays as it was.
#[tactic(auto, unfolding(crate::specs::Log::log_text))]
pub fn log(bench: &Bench, out: &mut Vec<u8>) -> Result<(), OutOfMemory>
    ensures ok { Appended result out.old out.new (log_text bench.now.log) }
    ensures err { OnErr result (out.new.items ≡ out.old.items) }
{
    let start = out.len();
    append_count(out, b"log", bench.log_len())?;
    if let Err(refused) = append_entries(out, bench) {
        out.truncate(start);
        return Err(refused);
    }
    Ok(())
}

/// Appends the lines of all entries.
fn append_entries(out: &mut Vec<u8>, bench: &Bench) -> Result<(), OutOfMemory>
    ensures ok { Appended result out.old out.new (entry_lines bench.now.log (length bench.now.log)) }
    ensures err { OnErr result (out.new.items ≡ out.old.items) }
{
    let start = out.len();
    for number in 0..bench.log_len() {
        if let Err(refused) = entry(bench, number, out) {
            out.truncate(start);
            return Err(refused);
        }
    }
    Ok(())
}

/// Appends the line of the log entry with this number. If memory runs out, `out` stays as it was.
pub fn entry(bench: &Bench, number: u64, out: &mut Vec<u8>) -> Result<(), OutOfMemory>
    requires { number < length bench.now.log }
    ensures ok { Appended result out.old out.new (line_at bench.now.log number) }
    ensures err { OnErr result (out.new.items ≡ out.old.items) }
{
    append_entry(out, number, bench.entry(number))
}

/// Appends the line of an entry.
fn append_entry(out: &mut Vec<u8>, number: u64, entry: &Entry) -> Result<(), OutOfMemory>
    ensures ok { Appended result out.old out.new (entry_line number entry.now) }
    ensures err { OnErr result (out.new.items ≡ out.old.items) }
{
    let start = out.len();
    append_head(out, number, client_of(entry))?;
    if let Err(refused) = append_rest(out, entry) {
        out.truncate(start);
        return Err(refused);
    }
    Ok(())
}

/// The client of an entry.
fn client_of(entry: &Entry) -> u32
    ensures { result ≡ client_of entry.now }
{
    match entry {
        Entry::Did { client, command: _ } => *client,
        Entry::Batch {
            client,
            commands: _,
        } => *client,
        Entry::Undid { client, entry: _ } => *client,
        Entry::Proposed {
            client,
            first: _,
            second: _,
            events: _,
        } => *client,
    }
}

/// Appends the entry's number and its client, with a blank after each.
fn append_head(out: &mut Vec<u8>, number: u64, client: u32) -> Result<(), OutOfMemory>
    ensures ok { Appended result out.old out.new (decimal number ++ codes " " ++ decimal client ++ codes " ") }
    ensures err { OnErr result (out.new.items ≡ out.old.items) }
{
    append_pieces(
        out,
        &[
            Piece::Number(number),
            Piece::Words(b" "),
            Piece::Number(u64::from(client)),
            Piece::Words(b" "),
        ],
    )?;
    Ok(())
}

/// Appends what the client did, and a line feed.
fn append_rest(out: &mut Vec<u8>, entry: &Entry) -> Result<(), OutOfMemory>
    ensures ok { Appended result out.old out.new (entry_words entry.now ++ codes "\n") }
    ensures err { OnErr result (out.new.items ≡ out.old.items) }
{
    let start = out.len();
    append_entry_words(out, entry)?;
    if let Err(refused) = append_pieces(out, &[Piece::Words(b"\n")]) {
        out.truncate(start);
        return Err(refused);
    }
    Ok(())
}

/// Appends what the client did.
fn append_entry_words(out: &mut Vec<u8>, entry: &Entry) -> Result<(), OutOfMemory>
    ensures ok { Appended result out.old out.new (entry_words entry.now) }
    ensures err { OnErr result (out.new.items ≡ out.old.items) }
{
    match entry {
        Entry::Did { client: _, command } => append_command(out, &command.command()),
        Entry::Batch {
            client: _,
            commands,
        } => append_batch(out, commands.items()),
        Entry::Undid { client: _, entry } => append_undone(out, *entry),
        Entry::Proposed {
            client: _,
            first,
            second,
            events,
        } => append_proposed(out, *first, *second, events.items()),
    }
}

/// Appends the text of an undo.
fn append_undone(out: &mut Vec<u8>, entry: u64) -> Result<(), OutOfMemory>
    ensures ok { Appended result out.old out.new (codes "undo " ++ decimal entry) }
    ensures err { OnErr result (out.new.items ≡ out.old.items) }
{
    append_pieces(out, &[Piece::Words(b"undo "), Piece::Number(entry)])?;
    Ok(())
}

/// Appends the text of a proposal.
fn append_proposed(
    out: &mut Vec<u8>,
    first: u32,
    second: u32,
    events: &[u32],
) -> Result<(), OutOfMemory>
    ensures ok { Appended result out.old out.new (proposed_words first second events.now) }
    ensures err { OnErr result (out.new.items ≡ out.old.items) }
{
    append_pieces(
        out,
        &[
            Piece::Words(b"propose "),
            Piece::Number(u64::from(first)),
            Piece::Words(b" "),
            Piece::Number(u64::from(second)),
            Piece::Numbers(events),
        ],
    )?;
    Ok(())
}
