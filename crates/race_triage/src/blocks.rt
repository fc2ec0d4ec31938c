//! Prints the block of one verdict.
ghost use Rattle.std.specs.Prelude.{◌≡◌, ◌<◌, [], length, slice_index_or};
ghost use Rattle.race_triage.specs.Texts.{access_line, access_text, block_text, head_line, held_locks, how_words, lock_line, lock_lines, open_text, pairs_text, size_text, word_text};
ghost use Rattle.rapid_text.specs.Appended.{Appended};

use crate::pieces::{append_event, append_number, append_small, append_words};
use crate::verdicts::{Outcome, Verdict};
use event_index::Indexed;
use explain_report::How;
use must_order::Must;
use rapid_text::OutOfMemory;

/// Appends the block of a verdict: its first line and its two accesses.
pub(crate) fn append_block(
    out: &mut Vec<u8>,
    indexed: &Indexed,
    must: &Must,
    verdict: &Verdict,
) -> Result<(), OutOfMemory>
    requires must { must.now ≡ indexed.now }
    ensures { Appended result out.old out.new (block_text indexed.now verdict.now) }
{
    append_head(out, verdict)?;
    append_access(out, indexed, must, verdict.first)?;
    append_access(out, indexed, must, verdict.second)?;
    Ok(())
}

// Appends the first line of the block.
fn append_head(out: &mut Vec<u8>, verdict: &Verdict) -> Result<(), OutOfMemory>
    ensures { Appended result out.old out.new (head_line verdict.now) }
{
    match verdict.outcome {
        Outcome::Race {
            how,
            events,
            threads,
        } => {
            append_word(out, b"race", verdict)?;
            append_words(out, how_text(how))?;
            append_open(out, verdict)?;
            append_size(out, events, threads)?;
        }
        Outcome::Undecided { tried } => {
            append_word(out, b"undecided", verdict)?;
            append_open(out, verdict)?;
            append_words(out, b" tried")?;
            append_small(out, tried)?;
        }
        Outcome::Apart => {
            append_word(out, b"apart", verdict)?;
            append_pairs(out, verdict)?;
        }
    }
    append_words(out, b"\n")?;
    Ok(())
}

// Appends the word and the two event numbers.
fn append_word(out: &mut Vec<u8>, word: &[u8], verdict: &Verdict) -> Result<(), OutOfMemory>
    ensures { Appended result out.old out.new (word_text word.now verdict.now) }
{
    append_words(out, word)?;
    append_small(out, verdict.first)?;
    append_small(out, verdict.second)?;
    Ok(())
}

// Appends the size of the schedule: its events and its threads.
fn append_size(out: &mut Vec<u8>, events: u32, threads: u32) -> Result<(), OutOfMemory>
    ensures { Appended result out.old out.new (size_text events threads) }
{
    append_words(out, b" events")?;
    append_small(out, events)?;
    append_words(out, b" threads")?;
    append_small(out, threads)?;
    Ok(())
}

// Appends the number of pairs of events that the block covers.
fn append_pairs(out: &mut Vec<u8>, verdict: &Verdict) -> Result<(), OutOfMemory>
    ensures { Appended result out.old out.new (pairs_text verdict.now) }
{
    append_words(out, b" pairs")?;
    append_number(out, verdict.pairs())?;
    Ok(())
}

// Appends the number of pairs of events, and the number of their variables.
fn append_open(out: &mut Vec<u8>, verdict: &Verdict) -> Result<(), OutOfMemory>
    ensures { Appended result out.old out.new (open_text verdict.now) }
{
    append_pairs(out, verdict)?;
    append_words(out, b" variables")?;
    append_small(out, verdict.variables)?;
    Ok(())
}

fn how_text(how: How) -> &'static [u8]
    ensures { result.now ≡ how_words how }
{
    match how {
        How::Candidate => b" candidate",
        How::Beyond => b" beyond",
        How::Turned => b" turned",
    }
}

// Appends the canonical line of an event, and the locks that its thread holds before it.
fn append_access(
    out: &mut Vec<u8>,
    indexed: &Indexed,
    must: &Must,
    event: u32,
) -> Result<(), OutOfMemory>
    requires must { must.now ≡ indexed.now }
    ensures { Appended result out.old out.new (access_text indexed.now event) }
{
    if event >= indexed.len() {
        return Ok(());
    }
    append_line(out, indexed, event)?;
    append_held(out, indexed, must, event)?;
    Ok(())
}

// Appends the canonical line of an event.
fn append_line(out: &mut Vec<u8>, indexed: &Indexed, event: u32) -> Result<(), OutOfMemory>
    ensures { Appended result out.old out.new (access_line indexed.now event) }
{
    append_words(out, b"  ")?;
    append_event(out, indexed, event)?;
    append_words(out, b"\n")?;
    Ok(())
}

// Appends a line for each lock that the event's thread holds before it.
fn append_held(
    out: &mut Vec<u8>,
    indexed: &Indexed,
    must: &Must,
    event: u32,
) -> Result<(), OutOfMemory>
    requires must { must.now ≡ indexed.now }
    requires event { event < length indexed.now.events }
    ensures { Appended result out.old out.new (lock_lines indexed.now (held_locks indexed.now event)) }
{
    let locks = must.locks_held(*out.allocator(), indexed, event)?;
    append_locks(out, indexed, locks.as_slice())?;
    Ok(())
}

// Appends a line for each of the locks.
fn append_locks(out: &mut Vec<u8>, indexed: &Indexed, locks: &[u32]) -> Result<(), OutOfMemory>
    ensures { Appended result out.old out.new (lock_lines indexed.now locks.now) }
{
    for lock in locks {
        append_lock(out, indexed, *lock)?;
    }
    Ok(())
}

// Appends the line of a lock.
fn append_lock(out: &mut Vec<u8>, indexed: &Indexed, lock: u32) -> Result<(), OutOfMemory>
    ensures { Appended result out.old out.new (lock_line indexed.now lock) }
{
    append_words(out, b"    holds ")?;
    append_name(out, indexed, lock)?;
    append_words(out, b"\n")?;
    Ok(())
}

// Appends the name of the lock. Appends nothing if the trace has no such lock.
fn append_name(out: &mut Vec<u8>, indexed: &Indexed, lock: u32) -> Result<(), OutOfMemory>
    ensures { Appended result out.old out.new (slice_index_or indexed.now.locks lock []) }
{
    let raw = indexed.trace().raw();
    if lock < raw.locks() {
        append_words(out, raw.lock_name(lock))?;
    }
    Ok(())
}
